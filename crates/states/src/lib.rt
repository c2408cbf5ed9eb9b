// What the state says of a series, a strategy and an entry, as every event asks it.
#![tactic(auto)]

ghost use Rattle.std.specs.Prelude.{◌≡◌, not, ◌<◌, eqb};
ghost use Rattle.base.specs.Sets.{has, minus};
ghost use Rattle.rules.specs.Sizes.{strategy_slots};
ghost use Rattle.rules.specs.Strategies.{shut_set};
ghost use Rattle.rules.specs.Auctions.{running, live_in};

use rules::{Entry, State, Strategy};

// Whether a set of series has a series.
pub fn has(x: u32, s: u8) -> bool
    ensures { result ≡ has x s }
{
    s < 32 && (x >> s as u32) % 2 == 1
}

// Whether a series is open.
pub fn is_open(b: State, s: u8) -> bool
    ensures { result ≡ has b.opened s }
{
    has(b.opened, s)
}

// Whether a strategy holds a series.
pub fn holds(t: Strategy, s: u8) -> bool
    ensures { result ≡ has t.series s }
{
    has(t.series, s)
}

// The shut legs of a strategy, as a set of series.
fn shut_in(t: Strategy, opened: u32) -> u32
    ensures { result ≡ minus t.series opened }
{
    t.series & (u32::MAX - opened)
}

// Whether no leg of a strategy is shut.
pub fn none_shut(t: Strategy, opened: u32) -> bool
    ensures { result ≡ eqb (minus t.series opened) 0 }
{
    shut_in(t, opened) == 0
}

// The shut legs of strategy k, as a set of series.
pub fn shut_set(b: State, k: usize) -> u32
    requires { k < strategy_slots }
    ensures { result ≡ shut_set b k }
{
    shut_in(b.strategies[k], b.opened)
}

// Whether an auction runs in a strategy.
pub fn runs(s: Strategy) -> bool
    ensures { result ≡ not (eqb s.starter 0) }
{
    s.starter != 0
}

// Whether an auction runs in strategy k.
pub fn running(b: State, k: usize) -> bool
    requires { k < strategy_slots }
    ensures { result ≡ running b k }
{
    runs(b.strategies[k])
}

// Whether an entry is live and of strategy k.
pub fn live_in(k: usize, e: Entry) -> bool
    ensures { result ≡ live_in k e }
{
    e.units != 0 && e.strategy as usize == k
}
