// Series: one that shuts, opens or stays.
#![tactic(auto)]

ghost use Rattle.std.specs.Prelude.{◌≡◌, false, not, ◌+◌, ◌^◌, ◌<◌, eqb};
ghost use Rattle.base.specs.Pick.{pick};
ghost use Rattle.base.specs.Sets.{has};
ghost use Rattle.rules.specs.Events.{shut, reopen, on_series};
ghost use Rattle.records.specs.Space.{Room};
ghost use Rattle.records.specs.Done.{Done};
ghost use Rattle.ranges.specs.Fit.{Fit};

use auctions::end_unfilled;
use matching::{all_leg_passes, match_series};
use records::Records;
use rules::{State, Strategy};
use states::{holds, is_open, runs};

// Whether an auction runs in a strategy that holds a series.
#[tactic(auto, using(base::specs::Pick::tests))]
fn ends(h: Strategy, s: u8) -> bool
    ensures { result ≡ pick (not (eqb h.starter 0)) (has h.series s) false }
{
    runs(h) && holds(h, s)
}

// A series shuts: the auctions of strategies that hold it end, by strategy.
fn shut(b: &mut State, s: u8, records: &mut Records)
    requires s_bound { s < 32 }
    requires room { Room records.old (shut s b.old).records }
    ensures { Done records.old records.new b.new (shut s b.old) }
{
    b.opened = b.opened.saturating_sub(1 << s);
    for k in 0..State::STRATEGIES {
        if ends(b.strategies[k], s) {
            end_unfilled(b, k, records);
        }
    }
}

// A set of series with one more.
fn with_series(x: u32, s: u8) -> u32
    requires { (s < 32) × (has x s ≡ false) }
    ensures { result ≡ x + 2 ^ s }
{
    x + (1 << s)
}

// A series opens: the matches by strategy, then the passes by legs only.
fn reopen(b: &mut State, s: u8, records: &mut Records)
    requires s_bound { (s < 32) × Fit b.old × (has b.old.opened s ≡ false) }
    requires room { Room records.old (reopen s b.old).records }
    ensures { Done records.old records.new b.new (reopen s b.old) }
{
    b.opened = with_series(b.opened, s);
    match_series(b, s, records);
    all_leg_passes(b, s, records);
}

// A series shuts (state 0), opens, or stays.
pub fn on_series(b: &mut State, s: u8, state: u32, records: &mut Records)
    requires s_bound { (s < 32) × Fit b.old }
    requires room { Room records.old (on_series s state b.old).records }
    ensures { Done records.old records.new b.new (on_series s state b.old) }
{
    if is_open(*b, s) {
        if state == 0 {
            shut(b, s, records);
        }
    } else if state != 0 {
        reopen(b, s, records);
    }
}
