// Fills of whole against whole, the ways that the holders of one limit are met, and cancels.
#![tactic(auto)]

ghost use Rattle.std.specs.Prelude.{Some, unwrap_or, ◌≡◌, ◌++◌, ◌+◌, ◌*◌, ◌-◌, ◌<◌, ◌≤◌};
ghost use Rattle.base.specs.Walks.{join_n};
ghost use Rattle.rules.specs.Sizes.{table_rows, zero_level};
ghost use Rattle.rules.specs.Fills.{whole_record, leg_record, leg_record_at, party_records, no_prices, cut_entry, whole_fill, cancel_record, cancel_entry};
ghost use Rattle.rules.specs.Passes.{give, give_group, give_shared, give_for_starter};
ghost use Rattle.rules.specs.Quotas.{in_turn, share, share_beside};
ghost use Rattle.quotas.specs.Groups.{group_number};
ghost use Rattle.records.specs.Space.{Appended, Room};
ghost use Rattle.records.specs.Done.{Done, RoomIn, DoneIn};
ghost use Rattle.ranges.specs.Fit.{Fit};
ghost use Rattle.fills.specs.Gives.{HasRows, put_entries};

use quotas::{Group, in_turn, sizes};
use records::Records;
use rules::{Entry, Kind, Leg, Record, State, Strategy, ZERO_LEVEL};
use sides::leg_side;
use specialists::{share_beside, specialist_slot};

fn whole_record(e: Entry, q: u32, level: u32) -> Record
    ensures { result ≡ whole_record e q level }
{
    Record {
        kind: Kind::WholeFill,
        number: e.number,
        place: e.strategy,
        side: e.side,
        quantity: q,
        level: level,
    }
}

fn leg_record(e: Entry, q: u32, price: u32, l: Leg) -> Record
    requires { (l.ratio * q < 2147483648) × (zero_level + price < 2147483648) }
    ensures { result ≡ leg_record e q price l }
{
    let side = leg_side(e.side, l);
    let ratio = l.ratio as u32;
    Record {
        kind: Kind::LegFill,
        number: e.number,
        place: l.series,
        side: side,
        quantity: ratio * q,
        level: ZERO_LEVEL + price,
    }
}

// A complex party's leg fills, by leg.
fn leg_records(records: &mut Records, e: Entry, s: Strategy, q: u32, prices: [u32; 6])
    requires count_bound { s.count ≤ 6 }
    requires room { Room records.old (join_n (leg_record_at e s.legs q prices) s.count) }
    ensures { Appended records.old records.new (join_n (leg_record_at e s.legs q prices) s.count) }
{
    for i in 0..s.count as usize {
        records.push(leg_record(e, q, prices[i], s.legs[i]));
    }
}

// A complex party's records of a fill: its whole fill, then its leg fills.
pub fn party_records(
    records: &mut Records,
    e: Entry,
    s: Strategy,
    q: u32,
    level: u32,
    prices: [u32; 6],
)
    requires count_bound { s.count ≤ 6 }
    requires room { Room records.old (party_records e s q level prices) }
    ensures { Appended records.old records.new (party_records e s q level prices) }
{
    records.push(whole_record(e, q, level));
    leg_records(records, e, s, q, prices);
}

pub fn cut_entry(e: Entry, q: u32) -> Entry
    ensures { result ≡ cut_entry e q }
{
    Entry {
        units: u32::from(e.units).saturating_sub(q) as u16,
        ..e
    }
}

// The records of both parties of a fill of whole against whole.
fn fill_records(records: &mut Records, e: Entry, f: Entry, s: Strategy, q: u32, level: u32)
    requires count_bound { s.count ≤ 6 }
    requires room { Room records.old (party_records e s q level no_prices ++ party_records f s q level no_prices) }
    ensures { Appended records.old records.new (party_records e s q level no_prices ++ party_records f s q level no_prices) }
{
    party_records(records, e, s, q, level, [0; 6]);
    party_records(records, f, s, q, level, [0; 6]);
}

// Entries a (active) and h fill q units of each other at a net.
pub fn whole_fill(b: &mut State, a: usize, h: usize, level: u32, q: u32, records: &mut Records)
    requires a_lt_table_rows { (a < table_rows) × (h < table_rows) × Fit b.old }
    requires room { Room records.old (whole_fill b.old a h level q).records }
    ensures { Done records.old records.new b.new (whole_fill b.old a h level q) }
{
    if q == 0 {
        return;
    }
    let e = b.entries[a];
    let s = b.strategies[e.strategy as usize];
    fill_records(records, e, b.entries[h], s, q, level);
    b.entries[a] = cut_entry(e, q);
    b.entries[h] = cut_entry(b.entries[h], q);
}

// Entry a, of strategy s, meets each slot for its quota.
fn give(
    rows: &mut [Entry; State::ROWS],
    s: Strategy,
    a: usize,
    level: u32,
    qs: [u32; State::ROWS],
    records: &mut Records,
)
    requires a_lt_table_rows { a < table_rows }
    requires room_in { RoomIn (HasRows rows.old s a) (give a level qs) records.old }
    ensures { DoneIn (HasRows rows.old s a) (give a level qs) records.old records.new (put_entries rows.new) }
{
    for (i, q) in qs.iter().enumerate() {
        if *q != 0 {
            fill_records(records, rows[a], rows[i], s, *q, level);
            rows[a] = cut_entry(rows[a], *q);
            rows[i] = cut_entry(rows[i], *q);
        }
    }
}

// The holders of group g, or all, by number.
pub fn give_in_turn(
    rows: &mut [Entry; State::ROWS],
    s: Strategy,
    a: usize,
    level: u32,
    g: Option<Group>,
    records: &mut Records,
)
    requires a_lt_table_rows { a < table_rows }
    requires room_in { RoomIn (HasRows rows.old s a) (give_group in_turn a level (group_number g)) records.old }
    ensures { DoneIn (HasRows rows.old s a) (give_group in_turn a level (group_number g)) records.old records.new (put_entries rows.new) }
{
    let e = rows[a];
    let xs = sizes(*rows, e, level, g);
    let qs = in_turn(e.units as u32, xs);
    give(rows, s, a, level, qs, records);
}

// The holders of group g, shared where they hold more than what remains, the specialist's sweep at slot k, if it has one there.
fn give_group(
    rows: &mut [Entry; State::ROWS],
    s: Strategy,
    a: usize,
    level: u32,
    g: Group,
    k: Option<usize>,
    records: &mut Records,
)
    requires a_lt_table_rows { a < table_rows }
    requires room_in { RoomIn (HasRows rows.old s a) (give_group (share_beside (unwrap_or k table_rows) s.specialist.percentage) a level (group_number (Some g))) records.old }
    ensures { DoneIn (HasRows rows.old s a) (give_group (share_beside (unwrap_or k table_rows) s.specialist.percentage) a level (group_number (Some g))) records.old records.new (put_entries rows.new) }
{
    let e = rows[a];
    let xs = sizes(*rows, e, level, Some(g));
    let qs = share_beside(k, s.specialist.percentage, e.units as u32, xs);
    give(rows, s, a, level, qs, records);
}

// Customers by number; then sweeps and market makers, the specialist's sweep at slot k; then broker-dealers.
fn give_groups(
    rows: &mut [Entry; State::ROWS],
    s: Strategy,
    a: usize,
    level: u32,
    k: Option<usize>,
    records: &mut Records,
)
    requires a_lt_table_rows { a < table_rows }
    requires room_in { RoomIn (HasRows rows.old s a) (give_shared (share_beside (unwrap_or k table_rows) s.specialist.percentage) a level) records.old }
    ensures { DoneIn (HasRows rows.old s a) (give_shared (share_beside (unwrap_or k table_rows) s.specialist.percentage) a level) records.old records.new (put_entries rows.new) }
{
    give_in_turn(rows, s, a, level, Some(Group::Customers), records);
    give_group(rows, s, a, level, Group::MakersAndSweeps, k, records);
    give_group(rows, s, a, level, Group::BrokerDealers, None, records);
}

// The groups in any other shared pass than a starter's, which knows no specialist.
pub fn give_shared(
    rows: &mut [Entry; State::ROWS],
    s: Strategy,
    a: usize,
    level: u32,
    records: &mut Records,
)
    requires a_lt_table_rows { a < table_rows }
    requires room_in { RoomIn (HasRows rows.old s a) (give_shared share a level) records.old }
    ensures { DoneIn (HasRows rows.old s a) (give_shared share a level) records.old records.new (put_entries rows.new) }
{
    give_groups(rows, s, a, level, None, records);
}

// The groups in an auction's starter's pass.
pub fn give_for_starter(
    rows: &mut [Entry; State::ROWS],
    s: Strategy,
    a: usize,
    level: u32,
    records: &mut Records,
)
    requires a_lt_table_rows { a < table_rows }
    requires room_in { RoomIn (HasRows rows.old s a) (give_for_starter a level) records.old }
    ensures { DoneIn (HasRows rows.old s a) (give_for_starter a level) records.old records.new (put_entries rows.new) }
{
    let k = specialist_slot(s.specialist.member, *rows, rows[a], level);
    give_groups(rows, s, a, level, k, records);
}

pub fn cancel_record(e: Entry) -> Record
    ensures { result ≡ cancel_record e }
{
    Record {
        kind: Kind::Cancelled,
        number: e.number,
        place: 0,
        side: e.side,
        quantity: e.units as u32,
        level: ZERO_LEVEL,
    }
}

// All that is live of entry i.
pub fn cancel_entry(b: &mut State, i: usize, records: &mut Records)
    requires i_lt_table_rows { i < table_rows }
    requires room { Room records.old (cancel_entry i b.old).records }
    ensures { Done records.old records.new b.new (cancel_entry i b.old) }
{
    let e = b.entries[i];
    if e.units != 0 {
        records.push(cancel_record(e));
        b.entries[i] = cut_entry(e, e.units as u32);
    }
}
