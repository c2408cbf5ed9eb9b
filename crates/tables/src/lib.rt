// Rows of the tables: empty ones, the live ones and one more behind them; and the state of a fresh book. Laws of tables
// stand in specs/.
#![tactic(auto)]

ghost use Rattle.std.specs.Prelude.{◌≡◌, Bool, length};
ghost use Rattle.rules.specs.State.{fresh, free_strategy, no_entry, no_order};
ghost use Rattle.rules.specs.Events.{live, live_order, keep, behind};

use rules::{Entry, Leg, LegNets, LegOrder, Quote, Specialist, State, Strategy};

pub const NO_LEG: Leg = Leg {
    series: 0,
    side: 0,
    ratio: 0,
};

pub const NO_ENTRY: Entry = Entry {
    number: 0,
    member: 0,
    strategy: 0,
    side: 0,
    class: 0,
    life: 0,
    units: 0,
    level: 0,
};

pub const NO_ORDER: LegOrder = LegOrder {
    number: 0,
    member: 0,
    series: 0,
    side: 0,
    contracts: 0,
    price: 0,
};

pub const NO_QUOTE: Quote = Quote { bid: 0, offer: 0 };

pub const NO_SPECIALIST: Specialist = Specialist {
    member: 0,
    percentage: 0,
};

// Both nets unknown.
const NO_NETS: LegNets = LegNets { bid: 0, offer: 0 };

// A free row of the table of strategies.
fn free_strategy() -> Strategy
    ensures { result ≡ free_strategy }
{
    Strategy {
        legs: [NO_LEG; 6],
        count: 0,
        series: 0,
        starter: 0,
        begun: 0,
        answered: false,
        specialist: NO_SPECIALIST,
    }
}

// The state of a fresh book.
pub fn fresh(timer: u32) -> State
    ensures { result ≡ fresh timer }
{
    State {
        strategies: [free_strategy(); State::STRATEGIES],
        nets: [NO_NETS; State::STRATEGIES],
        entries: [NO_ENTRY; State::ROWS],
        orders: [NO_ORDER; State::LEG_ORDERS],
        defined: 0,
        opened: 0,
        clock: 0,
        timer: timer,
        last: 0,
        national: [NO_QUOTE; State::SERIES],
        range: 9999,
    }
}

// A row of a table of complex orders and sweeps, or of leg orders: empty, or live.
pub trait Row: Copy {
    ghost test: { Self → Bool };

    ghost none: { Self };

    fn is_live(&self) -> bool
        ensures { result ≡ test self.now };

    fn empty() -> Self
        ensures { result ≡ none };
}

impl Row for Entry {
    ghost test = { live };

    ghost none = { no_entry };

    #[tactic(auto, unfolding(rules::specs::Events::live))]
    fn is_live(&self) -> bool {
        self.units != 0
    }

    fn empty() -> Entry {
        NO_ENTRY
    }
}

impl Row for LegOrder {
    ghost test = { live_order };

    ghost none = { no_order };

    #[tactic(auto, unfolding(rules::specs::Events::live_order))]
    fn is_live(&self) -> bool {
        self.contracts != 0
    }

    fn empty() -> LegOrder {
        NO_ORDER
    }
}

// The number of live rows.
pub fn count<T: Row>(xs: [T; State::ROWS]) -> usize
    ensures { result ≡ length (keep T.test xs) }
{
    xs.iter().filter(|x| x.is_live()).count()
}

// A table with a new row, and the slot of it.
#[derive(Clone, Copy)]
pub struct Inserted<T> {
    pub rows: [T; State::ROWS],
    pub slot: usize,
}

// The live rows in front, in their order, and one more behind them, if a slot is free.
pub fn insert<T: Row>(xs: [T; State::ROWS], x: T) -> Inserted<T>
    ensures { (result.rows ≡ behind T.test T.none x xs) × (result.slot ≡ length (keep T.test xs)) }
{
    let mut rows = [T::empty(); State::ROWS];
    let mut n = 0;
    for y in &xs {
        if y.is_live() {
            rows[n] = *y;
            n += 1;
        }
    }
    if n < State::ROWS {
        rows[n] = x;
    }
    Inserted { rows, slot: n }
}
