// Complex order: it enters, and rests, waits, starts an auction or has its shared pass.
#![tactic(auto)]

ghost use Rattle.std.specs.Prelude.{◌≡◌, true, ◌<◌, eqb};
ghost use Rattle.base.specs.Pick.{pick};
ghost use Rattle.base.specs.All.{All};
ghost use Rattle.rules.specs.Sizes.{table_rows};
ghost use Rattle.rules.specs.State.{strategy_at};
ghost use Rattle.rules.specs.Events.{free_slot, rest_or_cancel, may_start, trades, on_order};
ghost use Rattle.rules.specs.Valid.{FitEntry, FitOrder, Priced};
ghost use Rattle.records.specs.Space.{Room};
ghost use Rattle.records.specs.Done.{Done};
ghost use Rattle.ranges.specs.Fit.{FitLegs, Fit};
ghost use Rattle.complex_orders.specs.ComplexOrders.{starts_by, NetsAre, rests_as, waits_as, arrival_of};

use auctions::{answers, begin};
use fills::cancel_entry;
use nets::betters;
use passes::{idle, pass};
use records::Records;
use rules::{Allocation, Entry, LegNets, LegOrder, State, Strategy};
use sides::other;
use states::{none_shut, runs};
use stored_nets::net_for;
use tables::{Inserted, insert};

// What an order does that has entered: it stays, resting or waiting in the auction; it is cancelled; it waits and answers
// the auction; it starts one; or it has its shared pass.
#[derive(Clone, Copy)]
pub enum Arrival {
    Rests,
    Cancelled,
    Answers,
    Starts,
    Passes,
}

// Whether class and life let an order start an auction.
#[tactic(auto, using(base::specs::Pick::tests), unfolding(rules::specs::Events::may_start))]
fn may_start(e: Entry) -> bool
    ensures { result ≡ may_start e }
{
    (e.class == 1 || e.class == 2) && (e.life == 0 || e.life == 1)
}

// Whether it does: its limit is better than the known leg net of its own side.
fn starts(e: Entry, n: LegNets) -> bool
    ensures { result ≡ starts_by e n }
{
    may_start(e) && betters(false, e.side, e.level, net_for(n, other(e.side)))
}

// Day rests and others are cancelled.
#[tactic(auto, using(base::specs::Pick::tests), unfolding(crate::specs::ComplexOrders::rests_as))]
fn rests(e: Entry) -> Arrival
    ensures { result ≡ rests_as e }
{
    if e.life == 0 {
        Arrival::Rests
    } else {
        Arrival::Cancelled
    }
}

// Where an auction runs, do-not-auction is cancelled and others wait, of which one of the other side answers.
#[tactic(auto, using(base::specs::Pick::tests), unfolding(crate::specs::ComplexOrders::waits_as))]
fn waits(e: Entry, s: Strategy, es: [Entry; State::ROWS]) -> Arrival
    ensures { result ≡ waits_as e s es }
{
    if e.life == 3 {
        return Arrival::Cancelled;
    }
    if answers(es, e.strategy as usize, s.starter, e.side) {
        return Arrival::Answers;
    }
    Arrival::Rests
}

// What an order of strategy s, which has these nets, does among these entries and leg orders.
fn arrives(
    e: Entry,
    s: Strategy,
    opened: u32,
    es: [Entry; State::ROWS],
    os: [LegOrder; State::LEG_ORDERS],
    n: LegNets,
) -> Arrival
    requires { All FitOrder os × All Priced os × FitLegs s × NetsAre n os s e.side }
    ensures { result ≡ arrival_of e s opened es os }
{
    if !none_shut(s, opened) {
        return rests(e);
    }
    if runs(s) {
        return waits(e, s, es);
    }
    if starts(e, n) {
        return Arrival::Starts;
    }
    if idle(Allocation::Shared, e, es, net_for(n, e.side), os, s) {
        return rests(e);
    }
    Arrival::Passes
}

// Day rests and others are cancelled.
fn rest_or_cancel(b: &mut State, i: usize, records: &mut Records)
    requires i_lt_table_rows { i < table_rows }
    requires room { Room records.old (rest_or_cancel i b.old).records }
    ensures { Done records.old records.new b.new (rest_or_cancel i b.old) }
{
    if b.entries[i].life != 0 {
        cancel_entry(b, i, records);
    }
}

// A shared pass of the order at slot i, then it rests or is cancelled.
fn trades(b: &mut State, i: usize, records: &mut Records)
    requires i_lt_table_rows { (i < table_rows) × Fit b.old }
    requires room { Room records.old (trades i b.old).records }
    ensures { Done records.old records.new b.new (trades i b.old) }
{
    pass(Allocation::Shared, true, b, i, records);
    rest_or_cancel(b, i, records);
}

// A complex order, accepted: it enters, and does what it then finds.
pub fn on_order(e: Entry, b: &mut State, records: &mut Records)
    requires b_bound { (free_slot b.old < table_rows) × FitEntry e × (0 < e.units) × (0 < (strategy_at b.old e.strategy).count) × Fit b.old }
    requires room { Room records.old (on_order e b.old).records }
    ensures { Done records.old records.new b.new (on_order e b.old) }
{
    let Inserted { rows, slot: i } = insert(b.entries, e);
    b.entries = rows;
    b.last = e.number;
    let k = e.strategy as usize;
    let s = b.strategies[k];
    match arrives(e, s, b.opened, rows, b.orders, b.nets[k]) {
        Arrival::Rests => {}
        Arrival::Cancelled => cancel_entry(b, i, records),
        Arrival::Answers => {
            b.strategies[k].answered = true;
        }
        Arrival::Starts => begin(b, i, records),
        Arrival::Passes => trades(b, i, records),
    }
}
