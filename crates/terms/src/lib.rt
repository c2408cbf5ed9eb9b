// The ratios of a definition: lowest terms, and what is refused. The six rows and the count of those in use stay two arguments and
// no slice: the contracts, as that of place_of, hold for a count past six too, where a row is empty.
#![tactic(auto)]

ghost use Rattle.std.specs.Prelude.{◌≡◌, ◌*◌, ◌/◌, ◌%◌, get_or};
ghost use Rattle.base.specs.Chains.{found};
ghost use Rattle.base.specs.Gcd.{gcd};
ghost use Rattle.rules.specs.State.{no_leg};
ghost use Rattle.rules.specs.Strategies.{divisor, lowest_terms, place_of, twice, over_threefold};

use rules::Leg;
use tables::NO_LEG;

// The greatest common divisor by Euclid's step.
fn gcd(a: u8, b: u8) -> u8
    ensures { result ≡ gcd a b }
{
    if b == 0 { a } else { gcd(b, a % b) }
}

// The leg at a place, the empty one past the six.
pub fn leg_at(legs: [Leg; 6], i: usize) -> Leg
    ensures { result ≡ get_or legs i no_leg }
{
    legs.get(i).copied().unwrap_or(NO_LEG)
}

// The greatest common divisor of the ratios.
fn divisor(legs: [Leg; 6], count: usize) -> u8
    ensures { result ≡ divisor legs count }
{
    let mut d: u8 = 0;
    for i in 0..count {
        d = gcd(leg_at(legs, i).ratio, d);
    }
    d
}

// The leg with its ratio divided, 0 where the divisor is 0.
fn divided(l: Leg, d: u8) -> Leg
    ensures { result ≡ record { series = l.series; side = l.side; ratio = l.ratio / d } }
{
    Leg {
        ratio: l.ratio.checked_div(d).unwrap_or(0),
        ..l
    }
}

// The legs with their ratios in lowest terms.
pub fn lowest_terms(legs: [Leg; 6], count: usize) -> [Leg; 6]
    ensures { result ≡ lowest_terms legs count }
{
    let d = divisor(legs, count);
    legs.map(|l| divided(l, d))
}

// The place of the leg in a series.
pub fn place_of(legs: [Leg; 6], count: usize, s: u8) -> Option<usize>
    ensures { result ≡ found count (place_of legs count s) }
{
    (0..count).position(|i| leg_at(legs, i).series == s)
}

// Whether a series stands twice.
pub fn twice(legs: [Leg; 6], count: usize) -> bool
    ensures { result ≡ twice legs count }
{
    (0..count).any(|i| place_of(legs, i, leg_at(legs, i).series).is_some())
}

// Whether the largest ratio is over 3 × the smallest.
pub fn over_threefold(legs: [Leg; 6], count: usize) -> bool
    ensures { result ≡ over_threefold legs count }
{
    let mut largest: u32 = 0;
    let mut smallest: u32 = 12;
    for i in 0..count {
        let ratio = leg_at(legs, i).ratio as u32;
        largest = ratio.max(largest);
        smallest = ratio.min(smallest);
    }
    3 * smallest < largest
}
