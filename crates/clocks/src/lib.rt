// Clock: the auctions begun at least the timer ago end.
#![tactic(auto)]

ghost use Rattle.std.specs.Prelude.{◌≡◌, false, not, ◌+◌, ◌<◌, ◌≤◌, eqb, leb};
ghost use Rattle.base.specs.Pick.{pick};
ghost use Rattle.rules.specs.Events.{on_clock};
ghost use Rattle.records.specs.Space.{Room};
ghost use Rattle.records.specs.Done.{Done};
ghost use Rattle.auctions.specs.Ranged.{Ranged};

use endings::end_auction;
use records::Records;
use rules::{State, Strategy};

// Whether an auction of a strategy runs and was begun at least the timer ago.
#[tactic(auto, using(base::specs::Pick::tests))]
fn due(s: Strategy, timer: u32, clock: u32) -> bool
    requires { s.begun + timer < 4294967296 }
    ensures { result ≡ pick (not (eqb s.starter 0)) (leb (s.begun + timer) clock) false }
{
    s.starter != 0 && s.begun + timer <= clock
}

// The clock, then the auctions that are due, by strategy.
pub fn on_clock(b: &mut State, t: u32, records: &mut Records)
    requires t_bound { (t ≤ 86400000) × Ranged b.old }
    requires room { Room records.old (on_clock t b.old).records }
    ensures { Done records.old records.new b.new (on_clock t b.old) }
{
    b.clock = t;
    for k in 0..State::STRATEGIES {
        if due(b.strategies[k], b.timer, b.clock) {
            end_auction(b, k, records);
        }
    }
}
