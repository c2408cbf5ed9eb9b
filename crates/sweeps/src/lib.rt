// Sweep: the one that it replaces is cancelled first, then it enters and answers the auction.
#![tactic(auto)]

ghost use Rattle.std.specs.Prelude.{◌≡◌};
ghost use Rattle.rules.specs.Moves.{still};
ghost use Rattle.rules.specs.Fills.{cancel_entry};
ghost use Rattle.rules.specs.Events.{old_sweep, enter_sweep, on_sweep};
ghost use Rattle.records.specs.Space.{Room};
ghost use Rattle.records.specs.Done.{Done};
ghost use Rattle.ranges.specs.Fit.{Fit};
ghost use Rattle.sweeps.specs.Sweeps.{MayEnter};

use auctions::answers;
use entries::old_sweep;
use fills::cancel_entry;
use records::Records;
use rules::{Entry, State};
use tables::{Row, insert};

// The sweep that e replaces is cancelled, if there is one.
fn cancel_old(e: Entry, b: &mut State, records: &mut Records)
    requires fit { Fit b.old }
    requires room { Room records.old (cancel_entry (old_sweep b.old e) b.old).records }
    ensures { Done records.old records.new b.new (cancel_entry (old_sweep b.old e) b.old) }
{
    if let Some(i) = old_sweep(b.entries, e) {
        cancel_entry(b, i, records);
    }
}

// A sweep enters and answers, if it has units.
fn enter_sweep(e: Entry, b: &mut State)
    requires { MayEnter e }
    ensures { still b.new ≡ enter_sweep e b.old }
{
    if e.is_live() {
        let rows = insert(b.entries, e).rows;
        b.entries = rows;
        b.last = e.number;
        let k = e.strategy as usize;
        if answers(rows, k, b.strategies[k].starter, e.side) {
            b.strategies[k].answered = true;
        }
    }
}

// A sweep, accepted: the one that it replaces is cancelled first; then it enters and answers, if it has units.
pub fn on_sweep(e: Entry, b: &mut State, records: &mut Records)
    requires may_enter { MayEnter e × Fit b.old }
    requires room { Room records.old (on_sweep e b.old).records }
    ensures { Done records.old records.new b.new (on_sweep e b.old) }
{
    cancel_old(e, b, records);
    enter_sweep(e, b);
}
