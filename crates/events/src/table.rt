// The fields of each kind.
ghost use Rattle.std.specs.Prelude.{◌≡◌, ◌-◌, ◌≤◌, ◌++◌, replicate};
ghost use Rattle.events.specs.Fields.{present_of, layout, holds, fit_n, raw_of};
ghost use Rattle.events.specs.Table.{fields_of};

use super::{Field, Kind};

// No bytes, and the value 0.
const NONE: Field = Field(0, 0, 0, 0);

const COUNT: Field = Field(1, 2, 6, 0);

pub const SERIES: Field = Field(1, 0, 31, 0);

pub const SIDE: Field = Field(1, 0, 1, 0);

const RATIO: Field = Field(1, 1, 12, 0);

pub const MEMBER: Field = Field(2, 1, 65535, 0);

pub const STRATEGY: Field = Field(1, 0, 15, 0);

pub const CLASS: Field = Field(1, 1, 3, 0);

pub const LIFE: Field = Field(1, 0, 3, 0);

pub const UNITS: Field = Field(2, 1, 9999, 0);

pub const SWEEP_UNITS: Field = Field(2, 0, 9999, 0);

pub const LIMIT: Field = Field(4, 1, 19999999, 10000000);

pub const CONTRACTS: Field = Field(2, 1, 9999, 0);

pub const PRICE: Field = Field(4, 1, 99999, 0);

pub const NUMBER: Field = Field(4, 1, 100000, 0);

pub const STATE: Field = Field(1, 0, 1, 0);

pub const TIME: Field = Field(4, 0, 86400000, 0);

pub const TIMER: Field = Field(2, 1, 5000, 0);

// A national bid or offer; 0 is a missing one.
pub const NATIONAL_PRICE: Field = Field(4, 0, 99999, 0);

// The execution range in cents.
pub const RANGE: Field = Field(2, 0, 9999, 0);

// The percentage of a specialist's portion.
pub const PERCENTAGE: Field = Field(1, 0, 100, 0);

// These, and then the other one up to 19.
pub fn filled<T: Copy, const N: usize>(first: [T; N], other: T) -> [T; 19]
    requires { N ≤ 19 }
    ensures { result ≡ first ++ replicate (19 - N) other }
{
    let mut all = [other; 19];
    all[..N].copy_from_slice(&first);
    all
}

// A strategy's fields.
fn strategy_fields() -> [Field; 19]
    ensures { result ≡ fields_of Kind.Strategy }
{
    [
        COUNT, SERIES, SIDE, RATIO, SERIES, SIDE, RATIO, SERIES, SIDE, RATIO, SERIES, SIDE, RATIO,
        SERIES, SIDE, RATIO, SERIES, SIDE, RATIO,
    ]
}

// The fields of a kind, and empty ones up to 19.
pub fn fields_of(kind: Kind) -> [Field; 19]
    ensures { result ≡ fields_of kind }
{
    match kind {
        Kind::Strategy => strategy_fields(),
        Kind::Order => filled([MEMBER, STRATEGY, SIDE, CLASS, LIFE, UNITS, LIMIT], NONE),
        Kind::Sweep => filled([MEMBER, STRATEGY, SIDE, SWEEP_UNITS, LIMIT], NONE),
        Kind::LegOrder => filled([MEMBER, SERIES, SIDE, CONTRACTS, PRICE], NONE),
        Kind::Cancel => filled([MEMBER, NUMBER], NONE),
        Kind::Series => filled([SERIES, STATE], NONE),
        Kind::Clock => filled([TIME], NONE),
        Kind::DayEnd => filled([TIMER], NONE),
        Kind::National => filled([SERIES, NATIONAL_PRICE, NATIONAL_PRICE], NONE),
        Kind::Range => filled([RANGE], NONE),
        Kind::Specialist => filled([MEMBER, STRATEGY, PERCENTAGE], NONE),
        Kind::Unknown => [NONE; 19],
    }
}

// The field at place i of a table of which the first m are there.
#[tactic(auto, using(base::specs::Pick::tests), unfolding(crate::specs::Fields::present_of))]
pub fn present(field: Field, m: usize, i: usize) -> Field
    ensures { result ≡ present_of field m i }
{
    if i < m { field } else { NONE }
}

impl Field {
    // Whether a value is in the field's range.
    #[tactic(auto, using(base::specs::Pick::tests), unfolding(crate::specs::Fields::holds))]
    pub fn holds(self, v: u32) -> bool
        ensures { result ≡ holds self v }
    {
        self.1 <= v && v <= self.2
    }
}

// Whether each value is in its field's range. Both are lent: the copies would be made by a function of the C library, and the library
// for C calls none.
#[tactic(auto, using(base::specs::Pick::tests), unfolding(crate::specs::Fields::fit_n, crate::specs::Fields::layout))]
pub fn fit_in(fields: &[Field; 19], m: usize, row: &[u32; 19]) -> bool
    ensures { result ≡ fit_n (layout fields.now m) row.now 19 }
{
    let mut ok = true;
    for i in 0..19 {
        ok = ok && present(fields[i], m, i).holds(row[i]);
    }
    ok
}

// .. of fields and values of its own.
pub fn fit(fields: [Field; 19], m: usize, row: [u32; 19]) -> bool
    ensures { result ≡ fit_n (layout fields m) row 19 }
{
    fit_in(&fields, m, &row)
}

// The number that stands in a frame for a value.
#[tactic(auto, unfolding(crate::specs::Fields::raw_of))]
pub fn raw(field: Field, v: u32) -> u32
    ensures { result ≡ raw_of field v }
{
    v.wrapping_sub(field.3)
}
