// The table of leg orders: the slot of the next one, and the best opposite order.
#![tactic(auto)]

ghost use Rattle.std.specs.Prelude.{◌≡◌};
ghost use Rattle.base.specs.Chains.{found};
ghost use Rattle.rules.specs.Sizes.{table_rows};
ghost use Rattle.rules.specs.Events.{free_order_slot, meets_order, best_order};
ghost use Rattle.tables.specs.Only.{only_orders};
ghost use Rattle.legs.specs.Search.{ahead_of};

use nets::stands;
use rules::{LegOrder, State};
use sides::{better, meets, other};
use tables::count;

// The slot that the next leg order takes.
#[tactic(auto, unfolding(rules::specs::Events::free_order_slot))]
pub fn free_order_slot(os: [LegOrder; State::LEG_ORDERS]) -> usize
    ensures { result ≡ free_order_slot (only_orders os) }
{
    count(os)
}

// Whether an order is one that o trades with.
#[tactic(auto, using(base::specs::Pick::tests), unfolding(rules::specs::Events::meets_order))]
fn meets_order(o: LegOrder, p: LegOrder) -> bool
    ensures { result ≡ meets_order o p }
{
    stands(o.series, other(o.side), p) && meets(o.side, o.price, p.price)
}

// Whether p comes before the best order so far, if there is one.
#[tactic(auto, using(base::specs::Pick::tests), unfolding(crate::specs::Search::ahead_of))]
fn ahead_order(o: LegOrder, p: LegOrder, best: Option<LegOrder>) -> bool
    ensures { result ≡ ahead_of o p best }
{
    meets_order(o, p) && best.is_none_or(|q| better(o.side, p.price, q.price))
}

// The slot of the order that o trades with first, if there is one: best price, then number.
pub fn best_order(os: [LegOrder; State::LEG_ORDERS], o: LegOrder) -> Option<usize>
    ensures { result ≡ found table_rows (best_order (only_orders os) o) }
{
    let mut best: Option<usize> = None;
    for (i, p) in os.iter().enumerate() {
        if ahead_order(o, *p, best.map(|k| os[k])) {
            best = Some(i);
        }
    }
    best
}
