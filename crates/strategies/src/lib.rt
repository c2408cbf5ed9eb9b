// Strategies: what a definition gives, and the comparison with those held.
#![tactic(auto)]

ghost use Rattle.std.specs.Prelude.{◌≡◌, ◌<◌};
ghost use Rattle.rules.specs.Strategies.{by_series, padded, series_set, defined, number_of, added};
ghost use Rattle.rules.specs.Valid.{Valid};
ghost use Rattle.ranges.specs.Fit.{FitLegs};
ghost use Rattle.strategies.specs.Order.{add_series};

use nets::leg_nets;
use rules::{Leg, State, Strategy};
use states::has;
use tables::{NO_LEG, NO_SPECIALIST};
use terms::{leg_at, lowest_terms, place_of};

fn add_series(x: u32, s: u8) -> u32
    ensures { result ≡ add_series x s }
{
    if s < 32 && !has(x, s) {
        x + (1u32 << s)
    } else {
        x
    }
}

// The series of the legs, as a set.
fn series_set(legs: [Leg; 6], count: usize) -> u32
    ensures { result ≡ series_set legs count }
{
    let mut x: u32 = 0;
    for i in 0..count {
        x = add_series(x, leg_at(legs, i).series);
    }
    x
}

// The legs of the series in that set, by rising series, empty ones behind them.
fn by_series(legs: [Leg; 6], count: usize, series: u32) -> [Leg; 6]
    requires { series ≡ series_set legs count }
    ensures { result ≡ padded (by_series legs count) }
{
    let mut rows = [NO_LEG; 6];
    let mut used: usize = 0;
    for s in 0..32u8 {
        if has(series, s) {
            if let Some(at) = place_of(legs, count, s) {
                if used < 6 {
                    rows[used] = leg_at(legs, at);
                    used += 1;
                }
            }
        }
    }
    rows
}

// The strategy that a definition gives. Its leg count is the number of ones of its series.
pub fn defined(legs: [Leg; 6], count: usize) -> Strategy
    ensures { result ≡ defined legs count }
{
    let series = series_set(legs, count);
    Strategy {
        legs: by_series(lowest_terms(legs, count), count, series),
        count: u32::count_ones(series) as u8,
        series,
        starter: 0,
        begun: 0,
        answered: false,
        specialist: NO_SPECIALIST,
    }
}

// The number of the held strategy with these legs, else the next one.
// By loops left by label and by break, as document 01 has this place.
pub fn number_of(b: State, s: Strategy) -> usize
    requires { Valid b }
    ensures { result ≡ number_of b s }
{
    let n = b.defined as usize;
    let mut k: usize = 0;
    'held: loop {
        if n <= k {
            break k;
        }
        let theirs = b.strategies[k].legs;
        for i in 0..6 {
            if theirs[i] != s.legs[i] {
                k += 1;
                continue 'held;
            }
        }
        break k;
    }
}

// The state with the strategy behind those held, and its nets, if there is a slot for it.
pub fn add(s: Strategy, b: State) -> State
    requires { Valid b × FitLegs s }
    ensures { result ≡ added s b }
{
    let at = b.defined as usize;
    let mut c = b;
    c.defined += 1;
    if at < State::STRATEGIES {
        c.strategies[at] = s;
        c.nets[at] = leg_nets(c.orders, s);
    }
    c
}
