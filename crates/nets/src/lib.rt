// Best prices of the leg orders with the contracts at them, nets, and the units that the legs give.
#![tactic(auto)]

ghost use Rattle.std.specs.Prelude.{◌≡◌, ◌+◌, ◌*◌, ◌-◌, ◌/◌, ◌<◌, ◌≤◌};
ghost use Rattle.base.specs.All.{All};
ghost use Rattle.base.specs.Chains.{unless_zero};
ghost use Rattle.rules.specs.Nets.{stands, price_with, price_of, lot, known, weight, weighed, net_of, nets_in, best_of, starts_afresh, best_with};
ghost use Rattle.rules.specs.Valid.{FitLeg, FitOrder, Priced};
ghost use Rattle.ranges.specs.Most.{AtMost};
ghost use Rattle.ranges.specs.Fit.{FitLegs};
ghost use Rattle.nets.specs.Bests.{FitBest, if_priced};
ghost use Rattle.nets.specs.Nets.{betters_net};
ghost use Rattle.nets.specs.Legs.{sums_with, leg_bests, net_where};

use rules::{Best, Leg, LegNets, LegOrder, State, Strategy, ZERO_LEVEL};
use sides::{better, leg_side, other};

// The most units that an entry has.
const MOST_UNITS: u32 = 9999;

// Before any leg order: no price yet, which the rule writes 0.
const NO_BEST: Best = Best {
    price: 0,
    contracts: 0,
};

// What a complex party meets on the legs of a strategy: the best price of each leg, the units that the contracts at these
// prices give, at most 9,999, and the net of the prices, as a level.
#[derive(Clone, Copy)]
pub struct LegBests {
    pub prices: [u32; 6],
    pub units: u32,
    pub net: u32,
}

// The sums of the legs walked so far, over the buy legs and over the sell legs, and the units that they give.
#[derive(Clone, Copy)]
struct LegSums {
    buys: u32,
    sells: u32,
    units: u32,
}

const NO_SUMS: LegSums = LegSums {
    buys: 0,
    sells: 0,
    units: MOST_UNITS,
};

// Both nets unknown, which the stored nets write 0.
const NO_NETS: LegNets = LegNets { bid: 0, offer: 0 };

// Whether a leg order stands in that series and side.
pub fn stands(s: u8, side: u8, o: LegOrder) -> bool
    ensures { result ≡ stands s side o }
{
    o.series == s && o.side == side && o.contracts != 0
}

// What a leg order holds of a series and side at a price.
pub fn lot(s: u8, side: u8, price: u32, o: LegOrder) -> u32
    ensures { result ≡ lot s side price o }
{
    if stands(s, side, o) && o.price == price {
        o.contracts
    } else {
        0
    }
}

// Whether no price is missing.
fn known(ps: [u32; 6], count: usize) -> bool
    requires { count ≤ 6 }
    ensures { result ≡ known ps count }
{
    ps[..count].iter().all(|p| 0 < *p)
}

// Ratio × price of a leg, in the sum over the legs of that side.
fn weight(side: u8, l: Leg, price: u32) -> u32
    requires { FitLeg l × (side ≤ 1) × (price ≤ 99999) }
    ensures { result ≡ weight side l price }
{
    if l.side == side {
        l.ratio as u32 * price
    } else {
        0
    }
}

// The sum over the legs of that side.
fn weighed(side: u8, legs: [Leg; 6], ps: [u32; 6], count: usize) -> u32
    requires { (count ≤ 6) × All FitLeg legs × (side ≤ 1) × AtMost 99999 ps }
    ensures { result ≡ weighed side legs ps count }
{
    let mut n: u32 = 0;
    for i in 0..count {
        n += weight(side, legs[i], ps[i]);
    }
    n
}

// The net of the buy legs less the sell legs, as a level; 0 where it is unknown, as the rules' net_of and bounds have it.
pub fn net_of(s: Strategy, ps: [u32; 6]) -> u32
    requires { FitLegs s × AtMost 99999 ps }
    ensures { result ≡ net_of s ps }
{
    let count = s.count as usize;
    if known(ps, count) {
        ZERO_LEVEL + weighed(0, s.legs, ps, count) - weighed(1, s.legs, ps, count)
    } else {
        0
    }
}

// Whether an order at price q starts the best price p of that side (0: none yet) afresh.
fn starts_afresh(side: u8, p: u32, q: u32) -> bool
    ensures { result ≡ starts_afresh side p q }
{
    p == 0 || better(side, p, q)
}

// The pair with one order more: it starts afresh at a better price.
fn best_with(s: u8, side: u8, b: Best, o: LegOrder) -> Best
    requires { (b.contracts ≤ 319968) × (o.contracts ≤ 9999) }
    ensures { result ≡ best_with s side b o }
{
    if stands(s, side, o) {
        if starts_afresh(side, b.price, o.price) {
            return Best {
                price: o.price,
                contracts: o.contracts,
            };
        }
        if o.price == b.price {
            return Best {
                contracts: b.contracts + o.contracts,
                ..b
            };
        }
    }
    b
}

// The best price of a series and side with the contracts at it, in one walk over the leg orders.
fn best_in(os: &[LegOrder; State::LEG_ORDERS], s: u8, side: u8) -> Option<Best>
    requires { All FitOrder os.now × All Priced os.now }
    ensures { result ≡ if_priced (best_of os.now s side) }
{
    let mut b = NO_BEST;
    for o in os {
        b = best_with(s, side, b, *o);
    }
    (b.price != 0).then_some(b)
}

// .. none where no leg order stands there.
pub fn best_of(os: [LegOrder; State::LEG_ORDERS], s: u8, side: u8) -> Option<Best>
    requires { All FitOrder os × All Priced os }
    ensures { result ≡ if_priced (best_of os s side) }
{
    best_in(&os, s, side)
}

// The sums with one leg more, and the best that is met on it. The units are rounded down.
fn sums_with(n: LegSums, l: Leg, b: Best) -> LegSums
    requires { FitLeg l × (0 < l.ratio) × FitBest b × (n.buys ≤ 5999940) × (n.sells ≤ 5999940) }
    ensures { result ≡ sums_with n l b }
{
    LegSums {
        buys: n.buys + weight(0, l, b.price),
        sells: n.sells + weight(1, l, b.price),
        units: n.units.min(b.contracts / l.ratio as u32),
    }
}

// What a complex party of that side meets on the legs of a strategy: one walk over the leg orders for each leg. None where a leg
// has no price.
pub fn leg_bests(os: [LegOrder; State::LEG_ORDERS], side: u8, s: Strategy) -> Option<LegBests>
    requires { All FitOrder os × All Priced os × FitLegs s }
    ensures { result ≡ leg_bests os side s }
{
    let mut prices: [u32; 6] = [0; 6];
    let mut n = NO_SUMS;
    for i in 0..s.count as usize {
        let l = s.legs[i];
        let b = best_in(&os, l.series, other(leg_side(side, l)))?;
        prices[i] = b.price;
        n = sums_with(n, l, b);
    }
    Some(LegBests {
        prices,
        units: n.units,
        net: ZERO_LEVEL + n.buys - n.sells,
    })
}

// Their net where they give one unit.
pub fn ready_net(b: Option<LegBests>) -> Option<u32>
    ensures { result ≡ net_where b }
{
    b.filter(|b| b.units != 0).map(|b| b.net)
}

// Both leg nets of a strategy; none where it has no legs.
pub fn leg_nets(os: [LegOrder; State::LEG_ORDERS], s: Strategy) -> LegNets
    requires { All FitOrder os × All Priced os × FitLegs s }
    ensures { result ≡ nets_in os s }
{
    if s.count == 0 {
        return NO_NETS;
    }
    LegNets {
        bid: leg_bests(os, 1, s).map_or(0, |b| b.net),
        offer: leg_bests(os, 0, s).map_or(0, |b| b.net),
    }
}

// Whether a limit of a side is better than a leg net of its own side; where that net is unknown, the answer is `unknown`.
pub fn betters(unknown: bool, side: u8, level: u32, net: Option<u32>) -> bool
    ensures { result ≡ betters_net unknown side level net }
{
    net.map_or(unknown, |net| better(other(side), level, net))
}

// The best price so far and a leg order's, where it stands in that series and side. A price of 0 is none here, and no option:
// price_of promises the rule's price for leg orders at any price, and the rule takes one of 0 for none.
fn price_with(s: u8, side: u8, p: u32, o: LegOrder) -> u32
    ensures { result ≡ price_with s side p o }
{
    if stands(s, side, o) && starts_afresh(side, p, o.price) {
        o.price
    } else {
        p
    }
}

// The best price of a series and side, none where no leg order stands there.
pub fn price_of(os: [LegOrder; State::LEG_ORDERS], s: u8, side: u8) -> Option<u32>
    ensures { result ≡ unless_zero (price_of os s side) }
{
    let p = os.iter().fold(0, |p, o| price_with(s, side, p, *o));
    (p != 0).then_some(p)
}
