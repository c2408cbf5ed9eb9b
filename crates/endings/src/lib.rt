// The end of an auction: the starter's pass, the others' by number, the cancels and its record.
#![tactic(auto)]

ghost use Rattle.std.specs.Prelude.{◌≡◌, false, not, ◌+◌, ◌-◌, ◌%◌, ◌<◌, eqb};
ghost use Rattle.base.specs.Sets.{has};
ghost use Rattle.rules.specs.Sizes.{strategy_slots, table_rows};
ghost use Rattle.rules.specs.Moves.{each};
ghost use Rattle.rules.specs.Auctions.{running, starter_pass, later, later_pass, end_auction};
ghost use Rattle.records.specs.Space.{Room};
ghost use Rattle.records.specs.Done.{Done};
ghost use Rattle.ranges.specs.Fit.{Fit};

use auctions::{end_unfilled, starter_slot};
use passes::pass;
use records::Records;
use rules::{Allocation, Entry, State};
use states::live_in;

// The starter's shared pass, legs barred if an opposite sweep or waiting order was accepted meanwhile.
fn starter_pass(b: &mut State, k: usize, records: &mut Records)
    requires k_lt_strategy_slots { (k < strategy_slots) × Fit b.old }
    requires room { Room records.old (starter_pass k b.old).records }
    ensures { Done records.old records.new b.new (starter_pass k b.old) }
{
    let s = b.strategies[k];
    if let Some(a) = starter_slot(b.entries, k, s.starter) {
        pass(Allocation::ForStarter, !s.answered, b, a, records);
    }
}

// Whether an entry of strategy k was accepted after number n.
#[tactic(auto, using(base::specs::Pick::tests), unfolding(rules::specs::Auctions::later))]
fn later(k: usize, n: u32, e: Entry) -> bool
    ensures { result ≡ later k n e }
{
    live_in(k, e) && n < e.number
}

// A numbered pass of each entry accepted meanwhile, by number; sweeps never use legs.
fn later_passes(b: &mut State, k: usize, n: u32, records: &mut Records)
    requires fit { Fit b.old }
    requires room { Room records.old (each (later_pass k n) table_rows b.old).records }
    ensures { Done records.old records.new b.new (each (later_pass k n) table_rows b.old) }
{
    for i in 0..State::ROWS {
        let e = b.entries[i];
        if later(k, n, e) {
            pass(Allocation::Numbered, e.life != 4, b, i, records);
        }
    }
}

// The auction of strategy k ends.
pub fn end_auction(b: &mut State, k: usize, records: &mut Records)
    requires k_lt_strategy_slots { (k < strategy_slots) × Fit b.old }
    requires room { Room records.old (end_auction k b.old).records }
    ensures { Done records.old records.new b.new (end_auction k b.old) }
{
    let n = b.strategies[k].starter;
    starter_pass(b, k, records);
    later_passes(b, k, n, records);
    end_unfilled(b, k, records);
}
