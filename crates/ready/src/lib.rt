// Whether the legs of a strategy are ready, for many strategies at once: the contracts at the best prices of all series, in one walk.
#![tactic(auto)]

ghost use Rattle.std.specs.Prelude.{◌≡◌, ◌+◌, ◌<◌, ◌≤◌};
ghost use Rattle.base.specs.All.{All};
ghost use Rattle.rules.specs.Nets.{best_with};
ghost use Rattle.rules.specs.Valid.{FitOrder, Priced};
ghost use Rattle.ranges.specs.Fit.{FitLegs};
ghost use Rattle.ready.specs.Ready.{best_table, lot_table, ready_by};

use rules::{Best, LegOrder, State, Strategy};
use sides::{better, leg_side, other};

// Both sides of every series stand in one table: at place series * 2 + side.
pub const SERIES_SIDES: usize = State::SERIES * 2;

// No live order yet, which the rules write as price 0.
const NO_BEST: Best = Best {
    price: 0,
    contracts: 0,
};

// The best price of a live order's series and side, with the contracts at it, after that order: a better price starts them afresh.
fn best_by(best: Best, o: LegOrder) -> Best
    requires { (best.contracts ≤ 319968) × (o.contracts ≤ 9999) × (0 < o.contracts) }
    ensures { result ≡ best_with o.series o.side best o }
{
    if best.price == 0 || better(o.side, best.price, o.price) {
        Best {
            price: o.price,
            contracts: o.contracts,
        }
    } else if o.price == best.price {
        Best {
            contracts: best.contracts + o.contracts,
            ..best
        }
    } else {
        best
    }
}

// The best of every side of every series, in one walk over the leg orders: a leg order changes that of its own series and side
// alone.
fn bests_of(os: [LegOrder; State::LEG_ORDERS]) -> [Best; SERIES_SIDES]
    requires { All FitOrder os × All Priced os }
    ensures { result ≡ best_table os }
{
    let mut bests = [NO_BEST; SERIES_SIDES];
    for o in &os {
        if 0 < o.contracts {
            let at = o.series as usize * 2 + o.side as usize;
            bests[at] = best_by(bests[at], *o);
        }
    }
    bests
}

// The contracts at the best price of every side of every series.
pub fn lots_of(os: [LegOrder; State::LEG_ORDERS]) -> [u32; SERIES_SIDES]
    requires { All FitOrder os × All Priced os }
    ensures { result ≡ lot_table os }
{
    bests_of(os).map(|b| b.contracts)
}

// Whether the legs of a strategy are ready for a complex party of that side: each best price holds at least the ratio.
pub fn ready(ls: &[u32; SERIES_SIDES], side: u8, t: Strategy) -> bool
    requires { FitLegs t }
    ensures { result ≡ ready_by ls.now side t }
{
    for i in 0..t.count as usize {
        let l = t.legs[i];
        let on = other(leg_side(side, l));
        if ls[l.series as usize * 2 + on as usize] < l.ratio as u32 {
            return false;
        }
    }
    true
}
