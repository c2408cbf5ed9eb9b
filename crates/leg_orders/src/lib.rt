// Leg order: it enters and trades, and if any rests the passes by legs only follow.
#![tactic(auto)]

ghost use Rattle.std.specs.Prelude.{◌<◌};
ghost use Rattle.rules.specs.Sizes.{table_rows};
ghost use Rattle.rules.specs.Events.{free_order_slot, trade_all, on_leg_order};
ghost use Rattle.rules.specs.Valid.{FitOrder, Priced};
ghost use Rattle.records.specs.Space.{Room};
ghost use Rattle.records.specs.Done.{Done, RoomIn};
ghost use Rattle.ranges.specs.Fit.{Fit};
ghost use Rattle.leg_orders.specs.Left.{Enters, HasRows, TradesLeft};

use matching::{leg_passes, next_pass};
use nets::price_of;
use records::Records;
use rules::{LegNets, LegOrder, State, Strategy};
use sides::other;
use stored_nets::refreshed;
use tables::{Inserted, insert};
use trades::{next_trade, trade_all};

// The trades of order o, which has entered at slot a behind the leg orders os. The nets are then those of what is left, but for
// the price of the order's own side, which is as it was.
fn trades_of(
    os: [LegOrder; State::LEG_ORDERS],
    rows: &mut [LegOrder; State::LEG_ORDERS],
    a: usize,
    o: LegOrder,
    ss: [Strategy; State::STRATEGIES],
    ns: &mut [LegNets; State::STRATEGIES],
    records: &mut Records,
)
    requires enters { Enters os rows.old a o ss ns.old }
    requires room_in { RoomIn (HasRows rows.old) (trade_all a) records.old }
    ensures { TradesLeft os rows.old a o ss records.old records.new rows.new ns.new }
{
    let Some(_) = next_trade(*rows, a) else {
        return;
    };
    let on = other(o.side);
    let old = price_of(os, o.series, on);
    trade_all(rows, a, records);
    *ns = refreshed(*ns, ss, *rows, o.series, on, old);
}

// A leg order enters and trades; if any rests, the passes by legs only. If none does, its own side's price is as it was, and so the nets
// that its trades leave are true.
pub fn on_leg_order(b: &mut State, o: LegOrder, records: &mut Records)
    requires b_bound { (free_order_slot b.old < table_rows) × FitOrder o × Priced o × Fit b.old }
    requires room { Room records.old (on_leg_order o b.old).records }
    ensures { Done records.old records.new b.new (on_leg_order o b.old) }
{
    let os = b.orders;
    let Inserted { rows, slot: a } = insert(os, o);
    b.orders = rows;
    b.last = o.number;
    trades_of(os, &mut b.orders, a, o, b.strategies, &mut b.nets, records);
    if b.orders[a].contracts == 0 {
        return;
    }
    let before = price_of(os, o.series, o.side);
    let nets = refreshed(b.nets, b.strategies, b.orders, o.series, o.side, before);
    b.nets = nets;
    let first = next_pass(b, o.series, 0);
    leg_passes(b, o.series, first, records);
}
