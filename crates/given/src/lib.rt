// What the events of kinds 1 to 4, 9 and 11 bring: the row that enters, the strategy defined, whether its definition is
// ill-formed, the national prices, and the specialist. These are functions and no `From`: each but quote_given requires that the
// fields fit their types, which the contract of `From` does not ask, and its two types are of other crates than this.
#![tactic(auto)]

ghost use Rattle.std.specs.Prelude.{◌≡◌, ◌<◌};
ghost use Rattle.rules.specs.Given.{leg_given, legs_given, strategy_given, sweep_given, order_given, leg_order_given, specialist_given, quote_given};
ghost use Rattle.rules.specs.Fits.{FitGiven, FitSweepGiven, FitOrderGiven, FitLegOrderGiven};
ghost use Rattle.rules.specs.Refusals.{ill_formed};
ghost use Rattle.rules.specs.Valid.{FitLeg};

use rules::{Entry, Leg, LegOrder, Quote, Specialist, State, Strategy};
use strategies::defined;
use terms::{over_threefold, twice};

// A sweep as it enters: an entry of life 4.
pub fn sweep_given(b: State, e: events::Sweep) -> Entry
    requires { FitSweepGiven e × (b.last < 4294967295) }
    ensures { result ≡ sweep_given b e }
{
    Entry {
        number: b.last + 1,
        member: e.member as u16,
        strategy: e.strategy as u8,
        side: e.side as u8,
        class: 0,
        life: 4,
        units: e.units as u16,
        level: e.level,
    }
}

// A complex order as it enters.
pub fn order_given(b: State, e: events::Order) -> Entry
    requires { FitOrderGiven e × (b.last < 4294967295) }
    ensures { result ≡ order_given b e }
{
    Entry {
        number: b.last + 1,
        member: e.member as u16,
        strategy: e.strategy as u8,
        side: e.side as u8,
        class: e.class as u8,
        life: e.life as u8,
        units: e.units as u16,
        level: e.level,
    }
}

// A leg order as it enters.
pub fn leg_order_given(b: State, e: events::LegOrder) -> LegOrder
    requires { FitLegOrderGiven e × (b.last < 4294967295) }
    ensures { result ≡ leg_order_given b e }
{
    LegOrder {
        number: b.last + 1,
        member: e.member as u16,
        series: e.series as u8,
        side: e.side as u8,
        contracts: e.contracts,
        price: e.price,
    }
}

// A specialist as it is named.
pub fn specialist_given(e: events::Specialist) -> Specialist
    requires { (e.member < 65536) × (e.percentage < 65536) }
    ensures { result ≡ specialist_given e }
{
    Specialist {
        member: e.member as u16,
        percentage: e.percentage as u16,
    }
}

// National prices as they are set.
pub fn quote_given(e: events::National) -> Quote
    ensures { result ≡ quote_given e }
{
    Quote {
        bid: e.bid,
        offer: e.offer,
    }
}

// One leg as the event has it.
fn leg_given(l: events::Leg) -> Leg
    requires { FitLeg (leg_given l) }
    ensures { result ≡ leg_given l }
{
    Leg {
        series: l.series as u8,
        side: l.side as u8,
        ratio: l.ratio as u8,
    }
}

// Six rows, the first `count` in use.
fn legs_given(e: events::Strategy) -> [Leg; 6]
    requires { FitGiven e }
    ensures { result ≡ legs_given e }
{
    let l = e.legs;
    // Six calls and no `map`: that it may call leg_given at each leg was tried and did not prove (`map-requires`).
    [
        leg_given(l.0),
        leg_given(l.1),
        leg_given(l.2),
        leg_given(l.3),
        leg_given(l.4),
        leg_given(l.5),
    ]
}

// The strategy that a definition gives.
pub fn strategy_given(e: events::Strategy) -> Strategy
    requires { FitGiven e }
    ensures { result ≡ strategy_given e }
{
    defined(legs_given(e), e.count as usize)
}

// 5: a series twice, or the largest ratio over 3 × the smallest.
pub fn ill_formed(e: events::Strategy) -> bool
    requires { FitGiven e }
    ensures { result ≡ ill_formed e }
{
    let legs = legs_given(e);
    let count = e.count as usize;
    twice(legs, count) || over_threefold(legs, count)
}
