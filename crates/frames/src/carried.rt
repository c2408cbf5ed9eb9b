// The event that a frame of a kind carries. A kind of fixed length has each field read at its place, by a function of its own, since events
// differ in the names and places of their fields; a strategy goes by the table.
ghost use Rattle.std.specs.Prelude.{◌≡◌, ◌+◌, ◌≤◌, length};
ghost use Rattle.events.specs.Fields.{width};
ghost use Rattle.frames.specs.Carried.{carried_of, placed_of, Whole, field_at};

use super::bodies::{decode, value};
use event_rows::event_of;
use events::{
    Cancel, Clock, DayEnd, Event, Field, Kind, LegOrder, National, Order, Range, Refusal, Series,
    Specialist, Sweep, table,
};

// The value of a field at a place of the frame, or the refusal 3 where it is outside its range.
#[tactic(auto, using(base::specs::Pick::tests), unfolding(crate::specs::Carried::field_at))]
fn read(frame: &[u8], at: usize, field: Field) -> Result<u32, Refusal>
    requires field_in_bounds { at + width field ≤ length frame.now }
    requires field_bound { width field ≤ 4 }
    ensures { result ≡ field_at field frame.now at }
{
    let v = value(frame, at, field);
    if field.holds(v) {
        Ok(v)
    } else {
        Err(Refusal::BadField)
    }
}

#[tactic(auto, using(crate::specs::Carried::reads))]
fn order_in(frame: &[u8]) -> Result<Event, Refusal>
    requires { 16 ≤ length frame.now }
    ensures { result ≡ placed_of Kind.Order 7 frame.now }
{
    Ok(Event::Order(Order {
        member: read(frame, 4, table::MEMBER)?,
        strategy: read(frame, 6, table::STRATEGY)?,
        side: read(frame, 7, table::SIDE)?,
        class: read(frame, 8, table::CLASS)?,
        life: read(frame, 9, table::LIFE)?,
        units: read(frame, 10, table::UNITS)?,
        level: read(frame, 12, table::LIMIT)?,
    }))
}

#[tactic(auto, using(crate::specs::Carried::reads))]
fn sweep_in(frame: &[u8]) -> Result<Event, Refusal>
    requires { 14 ≤ length frame.now }
    ensures { result ≡ placed_of Kind.Sweep 5 frame.now }
{
    Ok(Event::Sweep(Sweep {
        member: read(frame, 4, table::MEMBER)?,
        strategy: read(frame, 6, table::STRATEGY)?,
        side: read(frame, 7, table::SIDE)?,
        units: read(frame, 8, table::SWEEP_UNITS)?,
        level: read(frame, 10, table::LIMIT)?,
    }))
}

#[tactic(auto, using(crate::specs::Carried::reads))]
fn leg_order_in(frame: &[u8]) -> Result<Event, Refusal>
    requires { 14 ≤ length frame.now }
    ensures { result ≡ placed_of Kind.LegOrder 5 frame.now }
{
    Ok(Event::LegOrder(LegOrder {
        member: read(frame, 4, table::MEMBER)?,
        series: read(frame, 6, table::SERIES)?,
        side: read(frame, 7, table::SIDE)?,
        contracts: read(frame, 8, table::CONTRACTS)?,
        price: read(frame, 10, table::PRICE)?,
    }))
}

#[tactic(auto, using(crate::specs::Carried::reads))]
fn cancel_in(frame: &[u8]) -> Result<Event, Refusal>
    requires { 10 ≤ length frame.now }
    ensures { result ≡ placed_of Kind.Cancel 2 frame.now }
{
    Ok(Event::Cancel(Cancel {
        member: read(frame, 4, table::MEMBER)?,
        number: read(frame, 6, table::NUMBER)?,
    }))
}

#[tactic(auto, using(crate::specs::Carried::reads))]
fn series_in(frame: &[u8]) -> Result<Event, Refusal>
    requires { 6 ≤ length frame.now }
    ensures { result ≡ placed_of Kind.Series 2 frame.now }
{
    Ok(Event::Series(Series {
        series: read(frame, 4, table::SERIES)?,
        state: read(frame, 5, table::STATE)?,
    }))
}

#[tactic(auto, using(crate::specs::Carried::reads))]
fn clock_in(frame: &[u8]) -> Result<Event, Refusal>
    requires { 8 ≤ length frame.now }
    ensures { result ≡ placed_of Kind.Clock 1 frame.now }
{
    Ok(Event::Clock(Clock {
        time: read(frame, 4, table::TIME)?,
    }))
}

#[tactic(auto, using(crate::specs::Carried::reads))]
fn day_end_in(frame: &[u8]) -> Result<Event, Refusal>
    requires { 6 ≤ length frame.now }
    ensures { result ≡ placed_of Kind.DayEnd 1 frame.now }
{
    Ok(Event::DayEnd(DayEnd {
        timer: read(frame, 4, table::TIMER)?,
    }))
}

#[tactic(auto, using(crate::specs::Carried::reads))]
fn national_in(frame: &[u8]) -> Result<Event, Refusal>
    requires { 13 ≤ length frame.now }
    ensures { result ≡ placed_of Kind.National 3 frame.now }
{
    Ok(Event::National(National {
        series: read(frame, 4, table::SERIES)?,
        bid: read(frame, 5, table::NATIONAL_PRICE)?,
        offer: read(frame, 9, table::NATIONAL_PRICE)?,
    }))
}

#[tactic(auto, using(crate::specs::Carried::reads))]
fn range_in(frame: &[u8]) -> Result<Event, Refusal>
    requires { 6 ≤ length frame.now }
    ensures { result ≡ placed_of Kind.Range 1 frame.now }
{
    Ok(Event::Range(Range {
        range: read(frame, 4, table::RANGE)?,
    }))
}

#[tactic(auto, using(crate::specs::Carried::reads))]
fn specialist_in(frame: &[u8]) -> Result<Event, Refusal>
    requires { 8 ≤ length frame.now }
    ensures { result ≡ placed_of Kind.Specialist 3 frame.now }
{
    Ok(Event::Specialist(Specialist {
        member: read(frame, 4, table::MEMBER)?,
        strategy: read(frame, 6, table::STRATEGY)?,
        percentage: read(frame, 7, table::PERCENTAGE)?,
    }))
}

// By the table of fields, which of them are there depending on the frame's length.
fn strategy_in(frame: &[u8]) -> Result<Event, Refusal>
    requires { Whole Kind.Strategy frame.now }
    ensures { result ≡ carried_of Kind.Strategy frame.now }
{
    let m = frame.len() - 4;
    let fields = table::fields_of(Kind::Strategy);
    let row = decode(frame, &fields, m);
    if table::fit_in(&fields, m, &row) {
        event_of(Kind::Strategy, row)
    } else {
        Err(Refusal::BadField)
    }
}

// The event, or the refusal 3 where a field is outside its range. No frame has the length of the unknown kind.
pub(crate) fn carried(kind: Kind, frame: &[u8]) -> Result<Event, Refusal>
    requires { Whole kind frame.now }
    ensures { result ≡ carried_of kind frame.now }
{
    match kind {
        Kind::Strategy => strategy_in(frame),
        Kind::Order => order_in(frame),
        Kind::Sweep => sweep_in(frame),
        Kind::LegOrder => leg_order_in(frame),
        Kind::Cancel => cancel_in(frame),
        Kind::Series => series_in(frame),
        Kind::Clock => clock_in(frame),
        Kind::DayEnd => day_end_in(frame),
        Kind::National => national_in(frame),
        Kind::Range => range_in(frame),
        Kind::Specialist => specialist_in(frame),
        Kind::Unknown => Err(Refusal::BadFrame),
    }
}
