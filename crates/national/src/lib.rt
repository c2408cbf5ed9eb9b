// National prices and the execution range: the national nets of a strategy, and what they let its fills be.
#![tactic(auto)]

ghost use Rattle.std.specs.Prelude.{◌≡◌, ◌<◌, eqb, unwrap_or};
ghost use Rattle.base.specs.Pick.{pick};
ghost use Rattle.base.specs.All.{All};
ghost use Rattle.base.specs.Chains.{unless_zero};
ghost use Rattle.rules.specs.Sizes.{series_count};
ghost use Rattle.rules.specs.Sides.{leg_side};
ghost use Rattle.rules.specs.National.{national_net, bounds_of, may_buy, may_sell, may_take, may_meet, on_national, on_range};
ghost use Rattle.rules.specs.Valid.{FitQuote};
ghost use Rattle.ranges.specs.Fit.{FitLegs};

use nets::net_of;
use rules::{Bounds, Leg, Quote, State, Strategy};
use sides::leg_side;

// The national price that a complex party of that side meets on a leg whose series has these: the offer where it buys, the
// bid where it sells. None where it is missing, which the national prices keep as 0, as the events of kind 9 bring it.
fn national_price(q: Quote, side: u8, l: Leg) -> Option<u32>
    ensures { result ≡ unless_zero (pick (eqb (leg_side side l) 0) q.offer q.bid) }
{
    let price = if leg_side(side, l) == 0 {
        q.offer
    } else {
        q.bid
    };
    (price != 0).then_some(price)
}

// The national offer net for a buy, the bid net for a sell, as a level; none from the first leg whose price is missing.
fn national_net(qs: [Quote; State::SERIES], side: u8, s: Strategy) -> Option<u32>
    requires { All FitQuote qs × FitLegs s }
    ensures { unwrap_or result 0 ≡ national_net qs side s }
{
    let mut ps: [u32; 6] = [0; 6];
    for i in 0..s.count as usize {
        let l = s.legs[i];
        ps[i] = national_price(qs[l.series as usize], side, l)?;
    }
    Some(net_of(s, ps))
}

// What bounds the fills of a strategy under these prices and this range. The rules' bounds have 0 for a net that is missing.
pub fn bounds(qs: [Quote; State::SERIES], range: u32, s: Strategy) -> Bounds
    requires { All FitQuote qs × FitLegs s }
    ensures { result ≡ bounds_of qs range s }
{
    Bounds {
        offer: national_net(qs, 0, s).unwrap_or(0),
        bid: national_net(qs, 1, s).unwrap_or(0),
        range,
    }
}

// Whether a complex party that buys may fill at a level: at most the national offer net and the range, if there is one.
fn may_buy(w: Bounds, level: u32) -> bool
    ensures { result ≡ may_buy w level }
{
    w.offer == 0 || level as u64 <= w.offer as u64 + w.range as u64
}

// Whether one that sells may: at least the national bid net less the range.
fn may_sell(w: Bounds, level: u32) -> bool
    ensures { result ≡ may_sell w level }
{
    w.bid == 0 || w.bid as u64 <= level as u64 + w.range as u64
}

// Whether an entry of that side may fill by its legs at that net.
pub fn may_take(w: Bounds, side: u8, net: u32) -> bool
    ensures { result ≡ may_take w side net }
{
    if side == 0 {
        may_buy(w, net)
    } else {
        may_sell(w, net)
    }
}

// Whether whole may fill against whole at that level: both parties may.
pub fn may_meet(w: Bounds, level: u32) -> bool
    ensures { result ≡ may_meet w level }
{
    may_buy(w, level) && may_sell(w, level)
}

// Both national prices of a series are set; a 0 takes the old one away.
pub fn set_prices(b: &mut State, s: u8, q: Quote)
    requires { s < series_count }
    ensures { b.new ≡ on_national s q b.old }
{
    b.national[s as usize] = q;
}

// The execution range is set.
pub fn set_range(b: &mut State, range: u32)
    ensures { b.new ≡ on_range range b.old }
{
    b.range = range;
}
