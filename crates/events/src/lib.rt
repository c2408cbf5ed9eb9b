// Events, their kinds, and the fields of their frames.
#![tactic(auto)]

pub mod kinds; // the number and the length of each kind
pub mod refusals; // the number of each refusal
pub mod table; // the fields of each kind

// The kinds of frames, and last what the number of no kind stands for.
#[derive(Clone, Copy, PartialEq, Eq)]
pub enum Kind {
    Strategy,
    Order,
    Sweep,
    LegOrder,
    Cancel,
    Series,
    Clock,
    DayEnd,
    National,
    Range,
    Specialist,
    Unknown,
}

#[derive(Clone, Copy)]
pub struct Leg {
    pub series: u32,
    pub side: u32,
    pub ratio: u32,
}

// Six legs as fields: an array is a list of any length to the specs, and read-written (crate frames, Round) would then need that it has six.
#[derive(Clone, Copy)]
pub struct Legs(pub Leg, pub Leg, pub Leg, pub Leg, pub Leg, pub Leg);

// Legs past the count hold zeros.
#[derive(Clone, Copy)]
pub struct Strategy {
    pub count: u32,
    pub legs: Legs,
}

// A complex order. A limit is held as its level: the limit in cents and 10,000,000 more.
#[derive(Clone, Copy)]
pub struct Order {
    pub member: u32,
    pub strategy: u32,
    pub side: u32,
    pub class: u32,
    pub life: u32,
    pub units: u32,
    pub level: u32,
}

#[derive(Clone, Copy)]
pub struct Sweep {
    pub member: u32,
    pub strategy: u32,
    pub side: u32,
    pub units: u32,
    pub level: u32,
}

#[derive(Clone, Copy)]
pub struct LegOrder {
    pub member: u32,
    pub series: u32,
    pub side: u32,
    pub contracts: u32,
    pub price: u32,
}

#[derive(Clone, Copy)]
pub struct Cancel {
    pub member: u32,
    pub number: u32,
}

#[derive(Clone, Copy)]
pub struct Series {
    pub series: u32,
    pub state: u32,
}

#[derive(Clone, Copy)]
pub struct Clock {
    pub time: u32,
}

#[derive(Clone, Copy)]
pub struct DayEnd {
    pub timer: u32,
}

// The national best bid and offer of a series; 0 is a missing one.
#[derive(Clone, Copy)]
pub struct National {
    pub series: u32,
    pub bid: u32,
    pub offer: u32,
}

// The execution range in cents.
#[derive(Clone, Copy)]
pub struct Range {
    pub range: u32,
}

// The specialist of a strategy, and the percentage of its portion.
#[derive(Clone, Copy)]
pub struct Specialist {
    pub member: u32,
    pub strategy: u32,
    pub percentage: u32,
}

#[derive(Clone, Copy)]
pub enum Event {
    Strategy(Strategy),
    Order(Order),
    Sweep(Sweep),
    LegOrder(LegOrder),
    Cancel(Cancel),
    Series(Series),
    Clock(Clock),
    DayEnd(DayEnd),
    National(National),
    Range(Range),
    Specialist(Specialist),
}

// Why a frame, an event or a lookup is refused: one variant for each cause that the papers number, in the order of their numbers.
#[derive(Clone, Copy, PartialEq, Eq)]
pub enum Refusal {
    ShortSpace,
    BadFrame,
    BadField,
    UnknownStrategy,
    BadDefinition,
    SeriesShut,
    UnknownOrder,
    AuctionStarter,
    NoAuction,
    NothingRemoved,
    EarlyClock,
    TableFull,
    NumbersOut,
    BidAboveOffer,
    NothingBettered,
}

// A field of a frame: its width in bytes, its least and its greatest value, and what is added to the number in the frame to give the value.
// Without names, so that each row of the table (table.rt) is a line as in the paper; with names it takes six.
#[derive(Clone, Copy)]
pub struct Field(pub usize, pub u32, pub u32, pub u32);
