// The table of complex orders and sweeps: its counts, and the sweep that a new one replaces.
#![tactic(auto)]

ghost use Rattle.std.specs.Prelude.{◌≡◌};
ghost use Rattle.base.specs.Pick.{pick};
ghost use Rattle.base.specs.Walks.{sum_n};
ghost use Rattle.base.specs.Chains.{found};
ghost use Rattle.rules.specs.Sizes.{table_rows};
ghost use Rattle.rules.specs.Events.{same_sweep, old_sweep};
ghost use Rattle.rules.specs.Refusals.{is_order_at, is_sweep_at};
ghost use Rattle.tables.specs.Only.{only_entries};
ghost use Rattle.entries.specs.Counts.{is_counted};

use rules::{Entry, State};
use tables::Row;

// Whether e is a live sweep, or a live complex order.
#[tactic(auto, using(base::specs::Pick::tests), unfolding(crate::specs::Counts::is_counted))]
fn is_counted(e: Entry, sweeps: bool) -> bool
    ensures { result ≡ is_counted sweeps e }
{
    e.is_live() && (e.life == 4) == sweeps
}

// The number of live sweeps, or of live complex orders: a flag, since two functions would be the same but for one test.
pub fn count_of(es: [Entry; State::ROWS], sweeps: bool) -> usize
    ensures { result ≡ pick sweeps (sum_n (is_sweep_at (only_entries es)) table_rows) (sum_n (is_order_at (only_entries es)) table_rows) }
{
    es.iter().filter(|e| is_counted(**e, sweeps)).count()
}

// Whether f is a live sweep that e replaces: of the same member, strategy, side and limit.
#[tactic(auto, using(base::specs::Pick::tests), unfolding(rules::specs::Events::same_sweep))]
fn same_sweep(e: Entry, f: Entry) -> bool
    ensures { result ≡ same_sweep e f }
{
    f.is_live()
        && f.life == 4
        && f.member == e.member
        && f.strategy == e.strategy
        && f.side == e.side
        && f.level == e.level
}

// The slot of the sweep that e replaces, if there is one.
pub fn old_sweep(es: [Entry; State::ROWS], e: Entry) -> Option<usize>
    ensures { result ≡ found table_rows (old_sweep (only_entries es) e) }
{
    es.iter().position(|f| same_sweep(e, *f))
}
