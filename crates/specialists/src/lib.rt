// The specialist of a strategy: how it is named, its sweep at a limit, and how what remains of an auction's starter is
// divided over the second group beside that sweep.
#![tactic(auto)]

ghost use Rattle.std.specs.Prelude.{◌≡◌, ◌<◌, ◌≤◌, unwrap_or};
ghost use Rattle.base.specs.Chains.{found};
ghost use Rattle.rules.specs.Sizes.{strategy_slots, table_rows};
ghost use Rattle.rules.specs.Specialists.{on_specialist};
ghost use Rattle.rules.specs.Quotas.{specialist_portion, rest_of, beside, share_beside};
ghost use Rattle.rules.specs.Passes.{is_sweep_of, specialist_slot};
ghost use Rattle.ranges.specs.Most.{AtMost};

use quotas::{opposes, portion, share, total};
use rules::{Entry, Specialist, State};

// Strategy k has that specialist.
pub fn set_specialist(b: &mut State, k: u8, p: Specialist)
    requires { k < strategy_slots }
    ensures { b.new ≡ on_specialist k p b.old }
{
    b.strategies[k as usize].specialist = p;
}

// What the sweep of x units gets of r: the greater of its rounded-down share and the rounded-down percentage, never above
// its size.
fn specialist_portion(percentage: u16, r: u32, total: u32, x: u32) -> u32
    requires { (r ≤ 9999) × (x ≤ 9999) × (0 < total) }
    ensures { result ≡ specialist_portion percentage r total x }
{
    x.min(portion(r, total, x).max(percentage as u32 * r / 100))
}

// The sizes without slot k.
fn rest_of(k: usize, xs: [u32; State::ROWS]) -> [u32; State::ROWS]
    requires { k < table_rows }
    ensures { result ≡ rest_of k xs }
{
    let mut ys = xs;
    ys[k] = 0;
    ys
}

// q for slot k, and the rest shared.
fn beside(k: usize, q: u32, r: u32, xs: [u32; State::ROWS]) -> [u32; State::ROWS]
    requires { (k < table_rows) × (q ≤ r) × (r ≤ 9999) × AtMost 9999 xs }
    ensures { result ≡ beside k q r xs }
{
    let mut qs = share(r - q, rest_of(k, xs));
    qs[k] = q;
    qs
}

// The quotas of the second group, the specialist's sweep at slot k, if it has one there.
pub fn share_beside(
    k: Option<usize>,
    percentage: u16,
    r: u32,
    xs: [u32; State::ROWS],
) -> [u32; State::ROWS]
    requires { (r ≤ 9999) × AtMost 9999 xs }
    ensures { result ≡ share_beside (unwrap_or k table_rows) percentage r xs }
{
    match k {
        Some(k) if k < State::ROWS => {
            let t = total(xs);
            if t <= r {
                return share(r, xs);
            }
            let q = r.min(specialist_portion(percentage, r, t, xs[k]));
            beside(k, q, r, xs)
        }
        _ => share(r, xs),
    }
}

// Whether f is a sweep of that member, opposite e at that limit.
#[tactic(auto, using(base::specs::Pick::tests), unfolding(rules::specs::Passes::is_sweep_of))]
fn is_sweep_of(member: u16, e: Entry, level: u32, f: Entry) -> bool
    ensures { result ≡ is_sweep_of member e level f }
{
    opposes(e, f) && f.level == level && f.life == 4 && f.member == member
}

// The slot of the specialist's sweep, if one is named and has one there.
pub fn specialist_slot(member: u16, es: [Entry; State::ROWS], e: Entry, level: u32) -> Option<usize>
    ensures { result ≡ found table_rows (specialist_slot member es e level) }
{
    if member == 0 {
        return None;
    }
    es.iter().position(|f| is_sweep_of(member, e, level, *f))
}
