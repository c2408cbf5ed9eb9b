// Lookups: live quantity, shut legs, leg nets, depth.
#![tactic(auto)]

ghost use Rattle.std.specs.Prelude.{◌≡◌, ◌+◌, ◌-◌, ◌<◌, eqb};
ghost use Rattle.base.specs.Pick.{pick};
ghost use Rattle.base.specs.All.{All};
ghost use Rattle.rules.specs.Lookups.{told_net, live_quantity, shut_legs, leg_nets, depth_tells, shut_tells, net_told, nets_tells};
ghost use Rattle.rules.specs.Valid.{FitOrder, Priced, Valid};
ghost use Rattle.lookups.specs.LegNets.{stored_nets};
ghost use Rattle.lookups.specs.Lookups.{book_depth, entry_of, lent_row};

use events::Refusal;
use nets::best_of;
use records::cents;
use rules::{Best, LegOrder, OrderEntry, ShutLegs, State, StrategyNets};
use states::shut_set;

// What a row of number x holds under a number.
#[tactic(auto, unfolding(base::specs::Pick::pick))]
fn held_by(x: u32, quantity: u32, number: u32) -> u32
    ensures { result ≡ pick (eqb x number) quantity 0 }
{
    if x == number { quantity } else { 0 }
}

// The live quantity of a number, 0 if there is none.
pub fn live_quantity(b: State, n: u32) -> u32
    requires { Valid b }
    ensures { result ≡ live_quantity b n }
{
    let units: u32 = b
        .entries
        .iter()
        .map(|e| held_by(e.number, e.units as u32, n))
        .sum();
    let contracts: u32 = b
        .orders
        .iter()
        .map(|o| held_by(o.number, o.contracts, n))
        .sum();
    units + contracts
}

// How many legs of a strategy are shut, and the lowest series of them; 32 when none is shut.
pub fn shut_legs(b: State, k: u32) -> Result<ShutLegs, Refusal>
    requires { Valid b }
    ensures { shut_tells result ≡ shut_legs b k }
{
    if b.defined as u32 <= k {
        return Err(Refusal::UnknownStrategy);
    }
    let x = shut_set(b, k as usize);
    Ok(ShutLegs {
        count: x.count_ones(),
        lowest: x.trailing_zeros(),
    })
}

// A net in cents, from its level; a level of 0 is an unknown net.
fn told_net(level: u32) -> Option<i32>
    requires { level < 2147483648 }
    ensures { net_told result ≡ told_net level }
{
    if level == 0 { None } else { Some(cents(level)) }
}

// The leg nets of a strategy, which are stored.
pub fn nets(b: State, strategy: u32) -> Result<StrategyNets, Refusal>
    requires { Valid b }
    ensures result_value { nets_tells result ≡ leg_nets b strategy }
    ensures result_value_2 { nets_tells result ≡ stored_nets b strategy }
{
    if b.defined as u32 <= strategy {
        return Err(Refusal::UnknownStrategy);
    }
    let stored = b.nets[strategy as usize];
    Ok(StrategyNets {
        bid: told_net(stored.bid),
        offer: told_net(stored.offer),
    })
}

// The best price of a series and side and its contracts.
pub fn depth(os: [LegOrder; State::LEG_ORDERS], s: u32, side: u32) -> Result<Option<Best>, Refusal>
    requires { All FitOrder os × All Priced os }
    ensures { depth_tells result ≡ book_depth os s side }
{
    if 31 < s || 1 < side {
        return Err(Refusal::BadField);
    }
    let Some(Best { price, contracts }) = best_of(os, s as u8, side as u8) else {
        return Ok(None);
    };
    Ok(Some(Best { price, contracts }))
}

// A leg order as an order entry. It is no `From`, which only the crate of both types, that of the rules, may write.
#[tactic(auto, unfolding(crate::specs::Lookups::entry_of))]
fn entry_of(o: LegOrder) -> OrderEntry
    ensures { result ≡ entry_of o }
{
    OrderEntry {
        series: o.series as u32,
        side: o.side as u32,
        contracts: o.contracts,
        price: o.price,
    }
}

// The leg orders as a row of order entries.
pub fn row_of(os: [LegOrder; State::LEG_ORDERS]) -> [OrderEntry; State::LEG_ORDERS]
    ensures { result ≡ lent_row os }
{
    os.map(entry_of)
}
