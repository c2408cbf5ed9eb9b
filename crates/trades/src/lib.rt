// Trades of a leg order with opposite ones, with their records, and the record of its cancel.
#![tactic(auto)]

ghost use Rattle.std.specs.Prelude.{◌≡◌, ◌+◌, ◌<◌};
ghost use Rattle.base.specs.Chains.{found};
ghost use Rattle.rules.specs.Sizes.{table_rows, zero_level};
ghost use Rattle.rules.specs.Fills.{order_record, order_row, cut_order, cancel_leg_record};
ghost use Rattle.rules.specs.Events.{trade_all};
ghost use Rattle.records.specs.Space.{Appended, Room};
ghost use Rattle.records.specs.Done.{RoomIn, DoneIn};
ghost use Rattle.tables.specs.Only.{only_orders};
ghost use Rattle.trades.specs.Trades.{trade_records, next_trade, traded_rows, HasOrders, put_orders};

use legs::best_order;
use records::Records;
use rules::{Kind, LegOrder, Record, State, ZERO_LEVEL};

// A leg order's record of a fill of q contracts.
fn order_record(o: LegOrder, q: u32, price: u32) -> Record
    requires { zero_level + price < 2147483648 }
    ensures { result ≡ order_record o q price }
{
    Record {
        kind: Kind::LegOrderFill,
        number: o.number,
        place: o.series,
        side: o.side,
        quantity: q,
        level: ZERO_LEVEL + price,
    }
}

// The record of a leg order's fill; none of 0 contracts.
pub fn order_row(records: &mut Records, o: LegOrder, q: u32, price: u32)
    requires { Room records.old (order_row o q price) }
    ensures { Appended records.old records.new (order_row o q price) }
{
    if q != 0 {
        records.push(order_record(o, q, price));
    }
}

pub fn cut_order(o: LegOrder, q: u32) -> LegOrder
    ensures { result ≡ cut_order o q }
{
    LegOrder {
        contracts: o.contracts.saturating_sub(q),
        ..o
    }
}

// The two records of a trade at the resting price, the incoming order's first.
fn report(records: &mut Records, o: LegOrder, p: LegOrder, q: u32)
    requires { Room records.old (trade_records o p q) }
    ensures { Appended records.old records.new (trade_records o p q) }
{
    records.push(order_record(o, q, p.price));
    records.push(order_record(p, q, p.price));
}

// One trade of the leg order at slot a with the one at slot h, of q contracts.
fn leg_trade(rows: &mut [LegOrder; State::LEG_ORDERS], a: usize, h: usize, q: u32)
    requires { (a < table_rows) × (h < table_rows) }
    ensures { rows.new ≡ traded_rows rows.old a h q }
{
    rows[a] = cut_order(rows[a], q);
    rows[h] = cut_order(rows[h], q);
}

// The slot that the leg order at slot a trades with next.
pub fn next_trade(os: [LegOrder; State::LEG_ORDERS], a: usize) -> Option<usize>
    ensures { result ≡ found table_rows (next_trade a (only_orders os)) }
{
    if State::LEG_ORDERS <= a {
        return None;
    }
    let o = os[a];
    if o.contracts == 0 {
        return None;
    }
    best_order(os, o)
}

// The trades of the leg order at slot a, until none meets it or nothing of it is left.
pub fn trade_all(rows: &mut [LegOrder; State::LEG_ORDERS], a: usize, records: &mut Records)
    requires { RoomIn (HasOrders rows.old) (trade_all a) records.old }
    ensures { DoneIn (HasOrders rows.old) (trade_all a) records.old records.new (put_orders rows.new) }
{
    for _ in 0..State::LEG_ORDERS {
        let Some(h) = next_trade(*rows, a) else {
            return;
        };
        let o = rows[a];
        let p = rows[h];
        let q = o.contracts.min(p.contracts);
        report(records, o, p, q);
        leg_trade(rows, a, h, q);
    }
}

pub fn cancel_leg_record(o: LegOrder) -> Record
    ensures { result ≡ cancel_leg_record o }
{
    Record {
        kind: Kind::LegOrderCancelled,
        number: o.number,
        place: 0,
        side: o.side,
        quantity: o.contracts,
        level: ZERO_LEVEL,
    }
}
