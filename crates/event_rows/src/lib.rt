// Events as rows of 19 numbers: the values of the fields in order, and zeros after them.
#![tactic(auto)]

ghost use Rattle.std.specs.Prelude.{◌≡◌, ◌+◌, ◌<◌};
ghost use Rattle.events.specs.Rows.{row_of, leg_from, event_of, length_in, fitting};

use events::kinds::length_of;
use events::table::{fields_of, filled, fit};
use events::{
    Cancel, Clock, DayEnd, Event, Kind, Leg, LegOrder, Legs, National, Order, Range, Refusal,
    Series, Specialist, Strategy, Sweep,
};

// The event's values in the order of its fields, and zeros up to 19.
pub fn row_of(event: Event) -> [u32; 19]
    ensures { result ≡ row_of event }
{
    match event {
        Event::Strategy(e) => {
            let Legs(a, b, c, d, f, g) = e.legs;
            [
                e.count, a.series, a.side, a.ratio, b.series, b.side, b.ratio, c.series, c.side,
                c.ratio, d.series, d.side, d.ratio, f.series, f.side, f.ratio, g.series, g.side,
                g.ratio,
            ]
        }
        Event::Order(e) => filled(
            [
                e.member, e.strategy, e.side, e.class, e.life, e.units, e.level,
            ],
            0,
        ),
        Event::Sweep(e) => filled([e.member, e.strategy, e.side, e.units, e.level], 0),
        Event::LegOrder(e) => filled([e.member, e.series, e.side, e.contracts, e.price], 0),
        Event::Cancel(e) => filled([e.member, e.number], 0),
        Event::Series(e) => filled([e.series, e.state], 0),
        Event::Clock(e) => filled([e.time], 0),
        Event::DayEnd(e) => filled([e.timer], 0),
        Event::National(e) => filled([e.series, e.bid, e.offer], 0),
        Event::Range(e) => filled([e.range], 0),
        Event::Specialist(e) => filled([e.member, e.strategy, e.percentage], 0),
    }
}

// The event of a kind with these values, or the refusal of the unknown kind.
pub fn event_of(kind: Kind, row: [u32; 19]) -> Result<Event, Refusal>
    ensures { result ≡ event_of kind row }
{
    match kind {
        Kind::Strategy => Ok(Event::Strategy(Strategy {
            count: row[0],
            legs: Legs(
                leg_at(row, 1),
                leg_at(row, 4),
                leg_at(row, 7),
                leg_at(row, 10),
                leg_at(row, 13),
                leg_at(row, 16),
            ),
        })),
        Kind::Order => Ok(Event::Order(Order {
            member: row[0],
            strategy: row[1],
            side: row[2],
            class: row[3],
            life: row[4],
            units: row[5],
            level: row[6],
        })),
        Kind::Sweep => Ok(Event::Sweep(Sweep {
            member: row[0],
            strategy: row[1],
            side: row[2],
            units: row[3],
            level: row[4],
        })),
        Kind::LegOrder => Ok(Event::LegOrder(LegOrder {
            member: row[0],
            series: row[1],
            side: row[2],
            contracts: row[3],
            price: row[4],
        })),
        Kind::Cancel => Ok(Event::Cancel(Cancel {
            member: row[0],
            number: row[1],
        })),
        Kind::Series => Ok(Event::Series(Series {
            series: row[0],
            state: row[1],
        })),
        Kind::Clock => Ok(Event::Clock(Clock { time: row[0] })),
        Kind::DayEnd => Ok(Event::DayEnd(DayEnd { timer: row[0] })),
        Kind::National => Ok(Event::National(National {
            series: row[0],
            bid: row[1],
            offer: row[2],
        })),
        Kind::Range => Ok(Event::Range(Range { range: row[0] })),
        Kind::Specialist => Ok(Event::Specialist(Specialist {
            member: row[0],
            strategy: row[1],
            percentage: row[2],
        })),
        Kind::Unknown => Err(Refusal::BadFrame),
    }
}

// The leg whose numbers begin at place i.
fn leg_at(row: [u32; 19], i: usize) -> Leg
    requires { i + 2 < 19 }
    ensures { result ≡ leg_from row i }
{
    Leg {
        series: row[i],
        side: row[i + 1],
        ratio: row[i + 2],
    }
}

#[tactic(auto, unfolding(events::specs::Rows::length_in))]
pub fn length_in(event: Event) -> usize
    ensures { result ≡ length_in event }
{
    length_of(Kind::from(event), row_of(event)[0])
}

// Whether the event's values are in their ranges.
pub fn fits(event: Event) -> bool
    ensures { result ≡ fitting event }
{
    fit(
        fields_of(Kind::from(event)),
        length_in(event) - 4,
        row_of(event),
    )
}
