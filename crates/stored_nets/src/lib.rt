// The leg nets that are stored of each strategy: read, and kept true after a best price has changed.
#![tactic(auto)]

ghost use Rattle.std.specs.Prelude.{◌≡◌, ◌≤◌, unwrap_or};
ghost use Rattle.base.specs.All.{All};
ghost use Rattle.base.specs.Chains.{unless_zero};
ghost use Rattle.rules.specs.Nets.{net_of, prices};
ghost use Rattle.rules.specs.Valid.{FitOrder, Priced};
ghost use Rattle.ranges.specs.Fit.{FitLegs};
ghost use Rattle.stored_nets.specs.Stored.{net_for, leg_of, net_moved, nets_moved, nets_anew, nets_after, FitNets, Refreshed};

use nets::{leg_bests, price_of};
use rules::{Leg, LegNets, LegOrder, State, Strategy};
use states::holds;

// Of the two nets of a strategy, the one that a complex party of that side meets, where it is known. The stored nets keep 0 for one
// that is not, since the theorems stored-nets, nets-each-move and of-today say so of them.
pub fn net_for(n: LegNets, side: u8) -> Option<u32>
    ensures { result ≡ unless_zero (net_for n side) }
{
    let net = if side == 0 { n.offer } else { n.bid };
    (net != 0).then_some(net)
}

// The leg of a series.
fn leg_of(t: Strategy, s: u8) -> Option<Leg>
    requires { FitLegs t }
    ensures { result ≡ leg_of t s }
{
    t.legs[..t.count as usize]
        .iter()
        .copied()
        .find(|l| l.series == s)
}

// A net after the price of one of its legs, which had one, went from p to q, each 0 where it is unknown, as
// the nets are stored.
fn net_moved(net: u32, l: Leg, p: u32, q: u32) -> u32
    requires { (net ≤ 20000000) × (l.ratio ≤ 12) × (p ≤ 99999) × (q ≤ 99999) }
    ensures { result ≡ net_moved net l p q }
{
    if net == 0 || q == 0 {
        return 0;
    }
    let ratio = l.ratio as u32;
    if l.side == 0 {
        (net + ratio * q).saturating_sub(ratio * p)
    } else {
        (net + ratio * p).saturating_sub(ratio * q)
    }
}

// Both nets, of which one takes the price of leg l on that side.
fn nets_moved(n: LegNets, l: Leg, side: u8, p: u32, q: u32) -> LegNets
    requires { FitNets n × (l.ratio ≤ 12) × (p ≤ 99999) × (q ≤ 99999) }
    ensures { result ≡ nets_moved n l side p q }
{
    if l.side == side {
        LegNets {
            bid: net_moved(n.bid, l, p, q),
            ..n
        }
    } else {
        LegNets {
            offer: net_moved(n.offer, l, p, q),
            ..n
        }
    }
}

// A leg net of a strategy as it is stored.
fn net_in(os: [LegOrder; State::LEG_ORDERS], side: u8, t: Strategy) -> u32
    requires { All FitOrder os × All Priced os × FitLegs t }
    ensures { result ≡ net_of t (prices os side t.legs) }
{
    leg_bests(os, side, t).map_or(0, |b| b.net)
}

// Both nets of a strategy, of which the one that takes the price of leg l on that side is found anew.
fn nets_anew(
    n: LegNets,
    t: Strategy,
    l: Leg,
    side: u8,
    os: [LegOrder; State::LEG_ORDERS],
) -> LegNets
    requires { All FitOrder os × All Priced os × FitLegs t }
    ensures { result ≡ nets_anew n t l side os }
{
    if l.side == side {
        LegNets {
            bid: net_in(os, 1, t),
            ..n
        }
    } else {
        LegNets {
            offer: net_in(os, 0, t),
            ..n
        }
    }
}

// Both nets of a strategy after the price of leg l on that side went from p, 0 where there was none, to q.
fn nets_after(
    n: LegNets,
    t: Strategy,
    l: Leg,
    side: u8,
    os: [LegOrder; State::LEG_ORDERS],
    p: u32,
    q: u32,
) -> LegNets
    requires { FitNets n × FitLegs t × (l.ratio ≤ 12) × All FitOrder os × All Priced os × (p ≤ 99999) × (q ≤ 99999) }
    ensures { result ≡ nets_after n t l side os p q }
{
    if p == 0 {
        nets_anew(n, t, l, side, os)
    } else {
        nets_moved(n, l, side, p, q)
    }
}

// The nets after the best price of that series and side went from p to what it is among these leg orders.
pub fn refreshed(
    ns: [LegNets; State::STRATEGIES],
    ss: [Strategy; State::STRATEGIES],
    os: [LegOrder; State::LEG_ORDERS],
    s: u8,
    side: u8,
    p: Option<u32>,
) -> [LegNets; State::STRATEGIES]
    requires { All FitLegs ss × All FitOrder os × All Priced os × All FitNets ns × (side ≤ 1) × (unwrap_or p 0 ≤ 99999) }
    ensures { Refreshed ns ss os s side (unwrap_or p 0) result }
{
    let q = price_of(os, s, side);
    if q == p {
        return ns;
    }
    let (old, new) = (p.unwrap_or(0), q.unwrap_or(0));
    let mut ms = ns;
    for (k, t) in ss.iter().enumerate() {
        if holds(*t, s) {
            if let Some(l) = leg_of(*t, s) {
                ms[k] = nets_after(ns[k], *t, l, side, os, old, new);
            }
        }
    }
    ms
}
