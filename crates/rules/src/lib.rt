// The state of the book and its records, of which specs/ gives the rules. The fields are the papers' numbers, and a number that stands for
// nothing is 0, since the rules and their theorems (Totals, stored-nets, nets-each-move, of-today) say so of them; the code answers options.
#![tactic(auto)]

// One leg of a strategy. Its side is 0 where a buyer of the strategy buys the series, 1 where he sells it.
#[derive(Clone, Copy, PartialEq, Eq)]
pub struct Leg {
    pub series: u8,
    pub side: u8,
    pub ratio: u8,
}

// The specialist of a strategy, 0 where none is named, and the percentage of its portion.
#[derive(Clone, Copy)]
pub struct Specialist {
    pub member: u16,
    pub percentage: u16,
}

// A strategy: its legs by rising series, `count` of them; its series as a set of 32 bits; the number of the order that
// started the running auction (0: none runs), the clock at its start, and whether an opposite sweep or waiting order was
// accepted during it; its specialist.
#[derive(Clone, Copy)]
pub struct Strategy {
    pub legs: [Leg; 6],
    pub count: u8,
    pub answered: bool,
    pub series: u32,
    pub starter: u32,
    pub begun: u32,
    pub specialist: Specialist,
}

// A complex order, or a sweep (life 4). An entry of 0 units is empty. Its level is the limit in cents and 10,000,000 more.
#[derive(Clone, Copy)]
pub struct Entry {
    pub number: u32,
    pub level: u32,
    pub strategy: u8,
    pub side: u8,
    pub class: u8,
    pub life: u8,
    pub member: u16,
    pub units: u16,
}

// A leg order. One of 0 contracts is empty.
#[derive(Clone, Copy)]
pub struct LegOrder {
    pub number: u32,
    pub member: u16,
    pub series: u8,
    pub side: u8,
    pub contracts: u32,
    pub price: u32,
}

// The best price of a series and side and the contracts at it, both 0 where no leg order stands there.
#[derive(Clone, Copy)]
pub struct Best {
    pub price: u32,
    pub contracts: u32,
}

// The national bid and offer of a series, 0 where one is missing.
#[derive(Clone, Copy)]
pub struct Quote {
    pub bid: u32,
    pub offer: u32,
}

// The leg nets of a strategy, its bid net and its offer net, as levels; 0 where one is unknown.
#[derive(Clone, Copy)]
pub struct LegNets {
    pub bid: u32,
    pub offer: u32,
}

// What bounds the fills of a strategy: its national nets as levels, 0 where one is missing, and the execution range.
#[derive(Clone, Copy)]
pub struct Bounds {
    pub offer: u32,
    pub bid: u32,
    pub range: u32,
}

// The whole state: the tables, the leg nets of the strategy in each slot, how many strategies are defined, the open series as a set of 32 bits, the last accepted
// clock, the timer of auctions, the last number given, the national prices of each series, and the execution range.
#[derive(Clone, Copy)]
pub struct State {
    pub strategies: [Strategy; State::STRATEGIES],
    pub nets: [LegNets; State::STRATEGIES],
    pub entries: [Entry; State::ROWS],
    pub orders: [LegOrder; State::LEG_ORDERS],
    pub national: [Quote; State::SERIES],
    pub defined: u8,
    pub opened: u32,
    pub clock: u32,
    pub timer: u32,
    pub last: u32,
    pub range: u32,
}

// The sizes of the tables, and the numbers of a record space. Complex orders and sweeps stand in one table; a list of sizes
// or quotas has a number for each row of a table; at most all rows of both tables are live.
impl State {
    pub const STRATEGIES: usize = 16;

    pub const ORDERS: usize = 16;

    pub const SWEEPS: usize = 16;

    pub const LEG_ORDERS: usize = 32;

    pub const ROWS: usize = State::ORDERS + State::SWEEPS;

    pub const SERIES: usize = 32;

    pub const LIVE: usize = State::ROWS + State::LEG_ORDERS;

    pub const RECORD_SPACE: usize = 15360;
}

// The level of a price, limit or net of 0 cents.
pub const ZERO_LEVEL: u32 = 10000000;

// What a record tells. A complex party's leg fill and a leg order's are both written 2, and both cancels 3.
#[derive(Clone, Copy)]
pub enum Kind {
    WholeFill,
    LegFill,
    LegOrderFill,
    Cancelled,
    LegOrderCancelled,
    AuctionBegun,
    AuctionEnded,
}

// The number that a kind is written as.
impl From<Kind> for u32 {
    ghost use Rattle.std.specs.Prelude.{◌≡◌};
    ghost use Rattle.rules.specs.Records.{kind_number};

    ghost from_gives = { λ k n. n ≡ kind_number k };

    #[tactic(auto, unfolding(crate::specs::Records::kind_number))]
    fn from(kind: Kind) -> u32 {
        match kind {
            Kind::WholeFill => 1,
            Kind::LegFill => 2,
            Kind::LegOrderFill => 2,
            Kind::Cancelled => 3,
            Kind::LegOrderCancelled => 3,
            Kind::AuctionBegun => 4,
            Kind::AuctionEnded => 5,
        }
    }
}

#[derive(Clone, Copy)]
pub struct Record {
    pub kind: Kind,
    pub number: u32,
    pub place: u8,
    pub side: u8,
    pub quantity: u32,
    pub level: u32,
}

// How a pass meets the holders of a limit: not at all, shared by groups, so for an auction's starter, or by number alone.
#[derive(Clone, Copy)]
pub enum Allocation {
    LegsOnly,
    Shared,
    ForStarter,
    Numbered,
}

// What an active order does next: nothing more, a fill by the legs, or fills at the best opposite limit, given as a level.
#[derive(Clone, Copy)]
pub enum Turn {
    Stop,
    ByLegs,
    AtLimit(u32),
}

// An entry of a row of leg orders that a caller lends. One of 0 contracts is empty.
#[derive(Clone, Copy)]
pub struct OrderEntry {
    pub series: u32,
    pub side: u32,
    pub contracts: u32,
    pub price: u32,
}

// The shut legs of a strategy: how many, and the lowest series.
#[derive(Clone, Copy)]
pub struct ShutLegs {
    pub count: u32,
    pub lowest: u32,
}

// The leg nets of a strategy, in cents: the bid net and the offer net, none where one is unknown.
#[derive(Clone, Copy)]
pub struct StrategyNets {
    pub bid: Option<i32>,
    pub offer: Option<i32>,
}

// What an accepted event answers: its value and the number of its records.
#[derive(Clone, Copy)]
pub struct Accepted {
    pub value: u32,
    pub records: usize,
}
