// Cancel: what is live of a number.
#![tactic(auto)]

ghost use Rattle.std.specs.Prelude.{◌≡◌, position};
ghost use Rattle.rules.specs.Events.{cancel_number};
ghost use Rattle.rules.specs.Valid.{Sound};
ghost use Rattle.records.specs.Space.{Room};
ghost use Rattle.records.specs.Done.{Done};
ghost use Rattle.cancels.specs.Cancels.{has_live, entry_has, order_has};

use fills::cancel_entry;
use nets::price_of;
use records::Records;
use rules::{Entry, LegOrder, State};
use stored_nets::refreshed;
use trades::{cancel_leg_record, cut_order};

// Whether a row of number x has something live, and is the one sought.
#[tactic(auto, using(base::specs::Pick::tests))]
fn has_live(x: u32, quantity: u32, number: u32) -> bool
    ensures { result ≡ has_live x quantity number }
{
    x == number && quantity != 0
}

// The slot of the live entry of a number, if it has one.
fn entry_of(es: [Entry; State::ROWS], number: u32) -> Option<usize>
    ensures { result ≡ position (entry_has number) es }
{
    es.iter()
        .position(|e| has_live(e.number, e.units as u32, number))
}

// The same of the leg orders. Two functions of one line: a trait of both rows for their numbers would be longer.
fn order_of(os: [LegOrder; State::LEG_ORDERS], number: u32) -> Option<usize>
    ensures { result ≡ position (order_has number) os }
{
    os.iter()
        .position(|o| has_live(o.number, o.contracts, number))
}

// The cancel of what is live of a number, in whichever table holds it.
pub fn cancel_number(b: &mut State, number: u32, records: &mut Records)
    requires sound { Sound b.old }
    requires room { Room records.old (cancel_number number b.old).records }
    ensures { Done records.old records.new b.new (cancel_number number b.old) }
{
    if let Some(i) = entry_of(b.entries, number) {
        cancel_entry(b, i, records);
    } else if let Some(j) = order_of(b.orders, number) {
        let o = b.orders[j];
        let p = price_of(b.orders, o.series, o.side);
        records.push(cancel_leg_record(o));
        b.orders[j] = cut_order(o, o.contracts);
        b.nets = refreshed(b.nets, b.strategies, b.orders, o.series, o.side, p);
    }
}
