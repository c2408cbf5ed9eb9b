// Who stands opposite an entry and at what limit, and how a quantity is divided over the holders of one price.
#![tactic(auto)]

ghost use Rattle.std.specs.Prelude.{◌≡◌, ◌+◌, ◌*◌, ◌<◌, ◌≤◌};
ghost use Rattle.base.specs.Walks.{sum_n, slot};
ghost use Rattle.base.specs.Chains.{unless_zero};
ghost use Rattle.rules.specs.Sizes.{table_rows};
ghost use Rattle.rules.specs.Quotas.{in_turn, portion, portion_at, one_of, share};
ghost use Rattle.rules.specs.Passes.{opposes, limit_with, best_opposite, group_of, within, holding, sizes};
ghost use Rattle.ranges.specs.Most.{AtMost};
ghost use Rattle.quotas.specs.Groups.{group_number};

use rules::{Entry, State};
use sides::{best_price, other};

// The groups in which the holders of a limit go, in their order; and one that nobody is in.
#[derive(Clone, Copy, PartialEq, Eq)]
pub enum Group {
    Customers,
    MakersAndSweeps,
    BrokerDealers,
    Nobody,
}

// By number: each slot gets what it holds, or what those before it left of r.
pub fn in_turn(r: u32, xs: [u32; State::ROWS]) -> [u32; State::ROWS]
    ensures { result ≡ in_turn r xs }
{
    let mut qs = [0; State::ROWS];
    let mut left = r;
    for (i, x) in xs.iter().enumerate() {
        let q = left.min(*x);
        qs[i] = q;
        left -= q;
    }
    qs
}

pub fn total(xs: [u32; State::ROWS]) -> u32
    requires { AtMost 9999 xs }
    ensures { result ≡ sum_n (slot xs) table_rows }
{
    xs.iter().sum()
}

// A holder's portion of r, rounded down.
pub fn portion(r: u32, total: u32, x: u32) -> u32
    requires { (r ≤ 9999) × (x ≤ 9999) × (0 < total) }
    ensures { result ≡ portion r total x }
{
    r * x / total
}

// One unit of the n left for a holder.
#[tactic(auto, using(base::specs::Pick::tests), unfolding(rules::specs::Quotas::one_of))]
fn one_of(n: u32, x: u32) -> u32
    ensures { result ≡ one_of n x }
{
    if x == 0 { 0 } else { n.min(1) }
}

fn portions_total(r: u32, total: u32, xs: [u32; State::ROWS]) -> u32
    requires { (r ≤ 9999) × (r < total) × AtMost 9999 xs }
    ensures { result ≡ sum_n (portion_at r total xs) table_rows }
{
    let mut n = 0;
    for x in &xs {
        n += portion(r, total, *x);
    }
    n
}

// The sizes where they are no more than what remains, else the portions and one unit each by number.
pub fn share(r: u32, xs: [u32; State::ROWS]) -> [u32; State::ROWS]
    requires { (r ≤ 9999) × AtMost 9999 xs }
    ensures { result ≡ share r xs }
{
    let t = total(xs);
    if t <= r {
        return xs;
    }
    let mut n = r - portions_total(r, t, xs);
    let mut qs = [0; State::ROWS];
    for (i, x) in xs.iter().enumerate() {
        let u = one_of(n, *x);
        qs[i] = portion(r, t, *x) + u;
        n -= u;
    }
    qs
}

// Whether f stands opposite e: live, of its strategy, of the other side.
#[tactic(auto, using(base::specs::Pick::tests), unfolding(rules::specs::Passes::opposes))]
pub fn opposes(e: Entry, f: Entry) -> bool
    ensures { result ≡ opposes e f }
{
    f.units != 0 && f.strategy == e.strategy && f.side == other(e.side)
}

// The better of a best opposite limit (0: none yet) and that of f, where it stands opposite.
#[tactic(auto, using(base::specs::Pick::tests), unfolding(rules::specs::Passes::limit_with))]
fn limit_with(e: Entry, x: u32, f: Entry) -> u32
    ensures { result ≡ limit_with e x f }
{
    if opposes(e, f) {
        best_price(other(e.side), x, f.level)
    } else {
        x
    }
}

// The best opposite limit, if there is one; the rule's walk, and limit_with by it, has 0 for none.
pub fn best_opposite(es: [Entry; State::ROWS], e: Entry) -> Option<u32>
    ensures { result ≡ unless_zero (best_opposite es e) }
{
    let x = es.iter().fold(0, |x, f| limit_with(e, x, *f));
    if x == 0 { None } else { Some(x) }
}

#[tactic(auto, using(base::specs::Pick::tests), unfolding(rules::specs::Passes::group_of))]
fn group_of(f: Entry) -> Group
    ensures { group_number (Some result) ≡ group_of f }
{
    if f.life == 4 || f.class == 3 {
        Group::MakersAndSweeps
    } else if f.class == 1 {
        Group::Customers
    } else {
        Group::BrokerDealers
    }
}

// Whether f is of that group, or of any where none is given.
#[tactic(auto, using(base::specs::Pick::tests), unfolding(rules::specs::Passes::within))]
fn within(g: Option<Group>, f: Entry) -> bool
    ensures { result ≡ within (group_number g) f }
{
    match g {
        None => true,
        Some(h) => group_of(f) == h,
    }
}

// What f holds against e at a limit, as one of a group.
#[tactic(auto, using(base::specs::Pick::tests), unfolding(rules::specs::Passes::holding))]
fn holding(e: Entry, level: u32, g: Option<Group>, f: Entry) -> u32
    ensures { result ≡ holding e level (group_number g) f }
{
    if opposes(e, f) && f.level == level && within(g, f) {
        f.units as u32
    } else {
        0
    }
}

pub fn sizes(es: [Entry; State::ROWS], e: Entry, level: u32, g: Option<Group>) -> [u32; State::ROWS]
    ensures { result ≡ sizes es e level (group_number g) }
{
    let mut xs = [0; State::ROWS];
    for (i, f) in es.iter().enumerate() {
        xs[i] = holding(e, level, g, *f);
    }
    xs
}
