// Auctions: their start, their answer, what lapses at their end, and their end without fills.
#![tactic(auto)]

ghost use Rattle.std.specs.Prelude.{◌≡◌, ◌<◌, position};
ghost use Rattle.base.specs.Chains.{found};
ghost use Rattle.rules.specs.Sizes.{strategy_slots, table_rows};
ghost use Rattle.rules.specs.Moves.{each};
ghost use Rattle.rules.specs.Auctions.{put_auction, begin, close, lapses, cancel_lapsed, end_unfilled};
ghost use Rattle.records.specs.Space.{Room};
ghost use Rattle.records.specs.Done.{Done};
ghost use Rattle.ranges.specs.Fit.{Fit};
ghost use Rattle.auctions.specs.Auctions.{numbered, starter_in, answers_in, begun_record, ended_record};

use fills::cancel_entry;
use records::Records;
use rules::{Entry, Kind, Record, State, Strategy, ZERO_LEVEL};
use sides::other;
use states::live_in;

// Whether an entry is live, of strategy k and of number n.
#[tactic(auto, using(base::specs::Pick::tests), unfolding(crate::specs::Auctions::numbered))]
fn is_number(k: usize, n: u32, e: Entry) -> bool
    ensures { result ≡ numbered k n e }
{
    live_in(k, e) && e.number == n
}

// The first slot of such an entry.
fn slot_of(es: [Entry; State::ROWS], k: usize, n: u32) -> Option<usize>
    ensures { result ≡ position (numbered k n) es }
{
    es.iter().position(|e| is_number(k, n, *e))
}

// The slot of the order of number n that started the auction of strategy k, if it is not gone.
#[tactic(auto, using(crate::specs::Auctions::starter_found))]
pub fn starter_slot(es: [Entry; State::ROWS], k: usize, n: u32) -> Option<usize>
    ensures { result ≡ found table_rows (starter_in es k n) }
{
    slot_of(es, k, n)
}

// The auction of strategy k, changed: its starter, the clock at its start, whether it was answered.
fn put_auction(b: &mut State, k: usize, n: u32, t: u32, a: bool)
    requires { k < strategy_slots }
    ensures { b.new ≡ put_auction b.old k n t a }
{
    b.strategies[k] = Strategy {
        starter: n,
        begun: t,
        answered: a,
        ..b.strategies[k]
    };
}

fn begun_record(e: Entry) -> Record
    ensures { result ≡ begun_record e }
{
    Record {
        kind: Kind::AuctionBegun,
        number: e.number,
        place: e.strategy,
        side: e.side,
        quantity: e.units as u32,
        level: e.level,
    }
}

// Entry i starts the auction of its strategy.
pub fn begin(b: &mut State, i: usize, records: &mut Records)
    requires i_lt_table_rows { (i < table_rows) × Fit b.old }
    requires room { Room records.old (begin i b.old).records }
    ensures { Done records.old records.new b.new (begin i b.old) }
{
    let e = b.entries[i];
    records.push(begun_record(e));
    put_auction(b, e.strategy as usize, e.number, b.clock, false);
}

fn ended_record(n: u32, k: u8) -> Record
    ensures { result ≡ ended_record n k }
{
    Record {
        kind: Kind::AuctionEnded,
        number: n,
        place: k,
        side: 0,
        quantity: 0,
        level: ZERO_LEVEL,
    }
}

// The auction of strategy k is over.
pub fn close(b: &mut State, k: usize, records: &mut Records)
    requires k_lt_strategy_slots { k < strategy_slots }
    requires room { Room records.old (close k b.old).records }
    ensures { Done records.old records.new b.new (close k b.old) }
{
    records.push(ended_record(b.strategies[k].starter, k as u8));
    put_auction(b, k, 0, 0, false);
}

// Whether a sweep or waiting order of that side answers the auction of strategy k, which the order of number n started.
pub fn answers(es: [Entry; State::ROWS], k: usize, n: u32, side: u8) -> bool
    ensures { result ≡ answers_in es k n side }
{
    starter_slot(es, k, n).map_or(0, |i| es[i].side) == other(side)
}

// Whether an entry is cancelled at the end of the auction of strategy k: a response, an immediate or a sweep.
#[tactic(auto, using(base::specs::Pick::tests), unfolding(rules::specs::Auctions::lapses))]
fn lapses(k: usize, e: Entry) -> bool
    ensures { result ≡ lapses k e }
{
    live_in(k, e) && (e.life == 1 || e.life == 2 || e.life == 4)
}

// What lapses is cancelled, by number.
fn cancel_lapses(b: &mut State, k: usize, records: &mut Records)
    requires { Room records.old (each (cancel_lapsed k) table_rows b.old).records }
    ensures { Done records.old records.new b.new (each (cancel_lapsed k) table_rows b.old) }
{
    for i in 0..State::ROWS {
        if lapses(k, b.entries[i]) {
            cancel_entry(b, i, records);
        }
    }
}

// The auction of strategy k ends without fills: the cancels, then its record.
pub fn end_unfilled(b: &mut State, k: usize, records: &mut Records)
    requires k_lt_strategy_slots { k < strategy_slots }
    requires room { Room records.old (end_unfilled k b.old).records }
    ensures { Done records.old records.new b.new (end_unfilled k b.old) }
{
    cancel_lapses(b, k, records);
    close(b, k, records);
}
