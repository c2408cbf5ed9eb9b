// Day end: the records of the auctions by strategy, the cancels by number, and a fresh book with the new timer.
#![tactic(auto)]

ghost use Rattle.std.specs.Prelude.{◌≡◌, ◌+◌, min};
ghost use Rattle.std.specs.List.{reduce};
ghost use Rattle.rules.specs.Sizes.{strategy_slots, table_rows};
ghost use Rattle.rules.specs.Moves.{each};
ghost use Rattle.rules.specs.Events.{close_running, cancel_lowest, on_day_end};
ghost use Rattle.rules.specs.Valid.{Sound, Valid};
ghost use Rattle.records.specs.Space.{Room};
ghost use Rattle.records.specs.Done.{Done};
ghost use Rattle.day_ends.specs.DayEnds.{live_numbers};

use auctions::close;
use cancels::cancel_number;
use records::Records;
use rules::State;
use states::runs;
use tables::fresh;

// The lowest number that is live, if any is.
fn lowest_live(b: &State) -> Option<u32>
    ensures { result ≡ reduce min (live_numbers b.now) }
{
    let entries = b.entries.iter().filter(|e| e.units != 0).map(|e| e.number);
    let orders = b
        .orders
        .iter()
        .filter(|o| o.contracts != 0)
        .map(|o| o.number);
    entries.chain(orders).min()
}

// At the day's end: all that is live, by number, until nothing is.
fn cancel_all(b: &mut State, records: &mut Records)
    requires sound { Sound b.old }
    requires room { Room records.old (each cancel_lowest (table_rows + table_rows) b.old).records }
    ensures { Done records.old records.new b.new (each cancel_lowest (table_rows + table_rows) b.old) }
{
    for _ in 0..State::LIVE {
        match lowest_live(b) {
            Some(n) => cancel_number(b, n, records),
            None => return,
        }
    }
}

// At the day's end: the auctions, by strategy.
fn close_all(b: &mut State, records: &mut Records)
    requires { Room records.old (each close_running strategy_slots b.old).records }
    ensures { Done records.old records.new b.new (each close_running strategy_slots b.old) }
{
    for k in 0..State::STRATEGIES {
        if runs(b.strategies[k]) {
            close(b, k, records);
        }
    }
}

// The auctions end by strategy, all that is live is cancelled by number, then a fresh book with the new timer.
pub fn on_day_end(b: &mut State, timer: u32, records: &mut Records)
    requires valid { Valid b.old }
    requires room { Room records.old (on_day_end timer b.old).records }
    ensures { Done records.old records.new b.new (on_day_end timer b.old) }
{
    close_all(b, records);
    cancel_all(b, records);
    *b = fresh(timer);
}
