// Where a series opens or its leg orders change: the match of the resting orders, and the passes by legs only.
#![tactic(auto)]

ghost use Rattle.std.specs.Prelude.{◌≡◌, ◌+◌, ◌-◌, ◌<◌};
ghost use Rattle.base.specs.All.{All};
ghost use Rattle.base.specs.Chains.{found};
ghost use Rattle.rules.specs.Sizes.{strategy_slots, table_rows};
ghost use Rattle.rules.specs.Moves.{each};
ghost use Rattle.rules.specs.Auctions.{day_order, leg_passes, match_all, match_in};
ghost use Rattle.rules.specs.Valid.{FitEntry, FitOrder, Priced};
ghost use Rattle.records.specs.Space.{Room};
ghost use Rattle.records.specs.Done.{Done};
ghost use Rattle.rules.specs.Nets.{nets_of};
ghost use Rattle.ranges.specs.Fit.{FitLegs, Fit};
ghost use Rattle.matching.specs.Matching.{open_with, passes_legs, goes_ahead, best_entry, may_match_of, matched};
ghost use Rattle.matching.specs.Places.{LiveLegs, acts_on, next_pass};

use fills::whole_fill;
use national::{bounds, may_meet};
use passes::{legs_idle, pass};
use records::Records;
use rules::{Allocation, Bounds, Entry, LegNets, LegOrder, State, Strategy};
use sides::{better, other};
use states::{holds, live_in, none_shut};
use stored_nets::net_for;

// The places of the passes by legs only: slot i of strategy k is place k * 32 + i.
pub const PLACES: usize = State::STRATEGIES * State::ROWS;

// Whether a strategy holds series s and no leg of it is shut.
#[tactic(auto, using(base::specs::Pick::tests), unfolding(crate::specs::Matching::open_with))]
fn open_with(t: Strategy, s: u8, opened: u32) -> bool
    ensures { result ≡ open_with t s opened }
{
    holds(t, s) && none_shut(t, opened)
}

// Whether a strategy holds series s, is all open and has no auction.
#[tactic(auto, using(base::specs::Pick::tests), unfolding(crate::specs::Matching::passes_legs))]
fn passes_legs(t: Strategy, s: u8, opened: u32) -> bool
    ensures { result ≡ passes_legs t s opened }
{
    open_with(t, s, opened) && t.starter == 0
}

#[tactic(auto, using(base::specs::Pick::tests), unfolding(rules::specs::Auctions::day_order))]
fn day_order(k: usize, e: Entry) -> bool
    ensures { result ≡ day_order k e }
{
    live_in(k, e) && e.life == 0
}

// Whether strategy t gets passes by legs only, and the pass of its entry e would do something but for its bounds.
#[tactic(auto, using(base::specs::Pick::tests, crate::specs::Places::levels), unfolding(crate::specs::Places::acts_on))]
fn acts_in(
    e: Entry,
    t: Strategy,
    n: LegNets,
    os: [LegOrder; State::LEG_ORDERS],
    opened: u32,
    s: u8,
) -> bool
    requires { All FitOrder os × All Priced os × FitLegs t }
    ensures { result ≡ acts_on e t n os opened s }
{
    passes_legs(t, s, opened) && !legs_idle(e, net_for(n, e.side), os, t)
}

// The first place, from one on, of a day order whose pass by legs only would do something but for its bounds.
pub fn next_pass(b: &State, s: u8, from: usize) -> Option<usize>
    requires { All FitLegs b.now.strategies × All FitEntry b.now.entries × All FitOrder b.now.orders × All Priced b.now.orders × LiveLegs b.now.strategies b.now.entries × (b.now.nets ≡ nets_of b.now.orders b.now.strategies) }
    ensures { result ≡ found 512 (next_pass b.now.strategies b.now.entries b.now.orders b.now.opened s from) }
{
    let mut best: Option<usize> = None;
    for (i, e) in b.entries.iter().enumerate() {
        let k = e.strategy as usize;
        if day_order(k, *e) {
            let at = k * State::ROWS + i;
            if from <= at && at < best.unwrap_or(PLACES) {
                if acts_in(*e, b.strategies[k], b.nets[k], b.orders, b.opened, s) {
                    best = Some(at);
                }
            }
        }
    }
    best
}

// The passes by legs only of a series, by strategy, then number. The first that may do something is at place `first`.
pub fn leg_passes(b: &mut State, s: u8, first: Option<usize>, records: &mut Records)
    requires fit { Fit b.old × (first ≡ found 512 (next_pass b.old.strategies b.old.entries b.old.orders b.old.opened s 0)) }
    requires room { Room records.old (leg_passes s b.old).records }
    ensures { Done records.old records.new b.new (leg_passes s b.old) }
{
    let mut next = first;
    while let Some(at) = next {
        pass(Allocation::LegsOnly, true, b, at % State::ROWS, records);
        next = next_pass(b, s, at + 1);
    }
}

// The same, from whichever may do something first.
pub fn all_leg_passes(b: &mut State, s: u8, records: &mut Records)
    requires fit { Fit b.old }
    requires room { Room records.old (leg_passes s b.old).records }
    ensures { Done records.old records.new b.new (leg_passes s b.old) }
{
    let first = next_pass(b, s, 0);
    leg_passes(b, s, first, records);
}

// Whether an entry is of that strategy and side, and goes before the best so far, if there is one.
#[tactic(auto, using(base::specs::Pick::tests), unfolding(crate::specs::Matching::goes_ahead))]
fn ahead(k: usize, side: u8, e: Entry, best: Option<Entry>) -> bool
    ensures { result ≡ goes_ahead k side e best }
{
    if live_in(k, e) && e.side == side {
        return match best {
            Some(f) => better(other(side), e.level, f.level),
            None => true,
        };
    }
    false
}

// The slot of the best entry of a side, by price, then number.
fn best_slot(es: [Entry; State::ROWS], k: usize, side: u8) -> Option<usize>
    ensures { result ≡ found table_rows (best_entry es k side) }
{
    let mut slot: Option<usize> = None;
    let mut best: Option<Entry> = None;
    for (i, e) in es.iter().enumerate() {
        if ahead(k, side, *e, best) {
            slot = Some(i);
            best = Some(*e);
        }
    }
    slot
}

// Whether a buy and a sell meet, and both may fill at the lower number's limit.
#[tactic(auto, using(base::specs::Pick::tests), unfolding(crate::specs::Matching::may_match_of))]
fn may_match(w: Bounds, e: Entry, f: Entry) -> bool
    ensures { result ≡ may_match_of w e f }
{
    let level = if e.number < f.number {
        e.level
    } else {
        f.level
    };
    f.level <= e.level && may_meet(w, level)
}

// The buy at slot x with the sell at slot y, at the lower number's limit, its order active.
fn match_once(b: &mut State, x: usize, y: usize, records: &mut Records)
    requires x_lt_table_rows { (x < table_rows) × (y < table_rows) × Fit b.old }
    requires room { Room records.old (matched b.old x y).records }
    ensures { Done records.old records.new b.new (matched b.old x y) }
{
    let e = b.entries[x];
    let f = b.entries[y];
    let q = (e.units as u32).min(f.units as u32);
    if e.number < f.number {
        whole_fill(b, x, y, e.level, q, records);
    } else {
        whole_fill(b, y, x, f.level, q, records);
    }
}

// While the best buy and the best sell meet and may. No match changes what bounds them.
fn match_all(b: &mut State, k: usize, records: &mut Records)
    requires k_lt_strategy_slots { (k < strategy_slots) × Fit b.old }
    requires room { Room records.old (match_all k b.old).records }
    ensures { Done records.old records.new b.new (match_all k b.old) }
{
    let w = bounds(b.national, b.range, b.strategies[k]);
    for _ in 0..State::ROWS {
        let Some(x) = best_slot(b.entries, k, 0) else {
            return;
        };
        let Some(y) = best_slot(b.entries, k, 1) else {
            return;
        };
        if !may_match(w, b.entries[x], b.entries[y]) {
            return;
        }
        match_once(b, x, y, records);
    }
}

// The resting orders of each all-open strategy that holds a series, by strategy.
pub fn match_series(b: &mut State, s: u8, records: &mut Records)
    requires fit { Fit b.old }
    requires room { Room records.old (each (match_in s) strategy_slots b.old).records }
    ensures { Done records.old records.new b.new (each (match_in s) strategy_slots b.old) }
{
    for k in 0..State::STRATEGIES {
        if open_with(b.strategies[k], s, b.opened) {
            match_all(b, k, records);
        }
    }
}
