// The number and the length of each kind.
ghost use Rattle.std.specs.Prelude.{◌≡◌};
ghost use Rattle.events.specs.Kinds.{kind_of, kind_or_unknown, code_of, length_of};
ghost use Rattle.events.specs.Rows.{kind_in};

use super::{Event, Kind, Refusal};

// The one decision over the number.
impl TryFrom<u32> for Kind {
    type Error = Refusal;

    ghost try_from_gives = { λ n r. r ≡ kind_of n };

    #[tactic(auto, unfolding(crate::specs::Kinds::kind_of, base::specs::Pick::pick))]
    fn try_from(n: u32) -> Result<Kind, Refusal> {
        match n {
            1 => Ok(Kind::Strategy),
            2 => Ok(Kind::Order),
            3 => Ok(Kind::Sweep),
            4 => Ok(Kind::LegOrder),
            5 => Ok(Kind::Cancel),
            6 => Ok(Kind::Series),
            7 => Ok(Kind::Clock),
            8 => Ok(Kind::DayEnd),
            9 => Ok(Kind::National),
            10 => Ok(Kind::Range),
            11 => Ok(Kind::Specialist),
            0 | 12..=u32::MAX => Err(Refusal::BadFrame),
        }
    }
}

// The kind of a number, the unknown one where it is no kind's.
pub fn kind_of(n: u32) -> Kind
    ensures { result ≡ kind_or_unknown n }
{
    Kind::try_from(n).unwrap_or(Kind::Unknown)
}

impl From<Kind> for u32 {
    ghost from_gives = { λ k n. n ≡ code_of k };

    fn from(kind: Kind) -> u32 {
        match kind {
            Kind::Strategy => 1,
            Kind::Order => 2,
            Kind::Sweep => 3,
            Kind::LegOrder => 4,
            Kind::Cancel => 5,
            Kind::Series => 6,
            Kind::Clock => 7,
            Kind::DayEnd => 8,
            Kind::National => 9,
            Kind::Range => 10,
            Kind::Specialist => 11,
            Kind::Unknown => 0,
        }
    }
}

impl From<Event> for Kind {
    ghost from_gives = { λ e k. k ≡ kind_in e };

    fn from(event: Event) -> Kind {
        match event {
            Event::Strategy(_) => Kind::Strategy,
            Event::Order(_) => Kind::Order,
            Event::Sweep(_) => Kind::Sweep,
            Event::LegOrder(_) => Kind::LegOrder,
            Event::Cancel(_) => Kind::Cancel,
            Event::Series(_) => Kind::Series,
            Event::Clock(_) => Kind::Clock,
            Event::DayEnd(_) => Kind::DayEnd,
            Event::National(_) => Kind::National,
            Event::Range(_) => Kind::Range,
            Event::Specialist(_) => Kind::Specialist,
        }
    }
}

// The length of a frame whose first field is count, which only a strategy's depends on.
#[tactic(auto, unfolding(crate::specs::Kinds::length_of, base::specs::Pick::pick))]
pub fn length_of(kind: Kind, count: u32) -> usize
    ensures { result ≡ length_of kind count }
{
    match kind {
        Kind::Strategy => 5 + 3 * count as usize,
        Kind::Order => 16,
        Kind::Sweep => 14,
        Kind::LegOrder => 14,
        Kind::Cancel => 10,
        Kind::Series => 6,
        Kind::Clock => 8,
        Kind::DayEnd => 6,
        Kind::National => 13,
        Kind::Range => 6,
        Kind::Specialist => 8,
        Kind::Unknown => 0, // no frame is so short
    }
}
