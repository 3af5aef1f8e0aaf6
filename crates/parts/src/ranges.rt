// The rows that a quantifier ranges over: roots, or those whose parent is a bound row.
ghost use Rattle.std.specs.Prelude.{◌≡◌, ℕ, ◌+◌, ◌<◌, ◌≤◌, get_or, IfSome};
ghost use Rattle.base.specs.Search.{found};
ghost use Rattle.tables.specs.Words.{row_at, row_count};
ghost use Rattle.tables.specs.Rules.{nesting_limit};
ghost use Rattle.parts.specs.Ranges.{row_of, OverBound, parent_under, hangs_at, ranged};

use engine::{Bindings, is_named};
use tables::{Over, Row, is_parent, row_at};

// The row of a variable, unless it is elsewhere.
// Kept: the engine's `Bindings::row_of` does the same, but it is private to the engine.
pub(crate) fn row_of(b: Bindings, variable: usize) -> Option<usize>
    requires { variable < nesting_limit }
    ensures { result ≡ row_of b.row variable }
{
    (b.row[variable] as usize).checked_sub(1)
}

// The parent of the rows that a quantifier ranges over: none for roots, and where it is elsewhere.
pub(crate) fn parent_under(b: Bindings, over: Over) -> Option<usize>
    requires { OverBound over }
    ensures { result ≡ parent_under b.row over }
{
    match over {
        Over::Roots => None,
        Over::Under(variable) => row_of(b, variable),
    }
}

// Whether a row hangs under that parent, or is a root where there is none.
fn hangs(table: &[u32], parent: Option<usize>, r: Row) -> bool
    requires { IfSome parent (λ p. p < row_count table.now) }
    ensures { result ≡ hangs_at table.now parent r }
{
    match parent {
        None => r.up == 0,
        Some(row) => is_parent(r, row_at(table, row)),
    }
}

// Whether it ranges over a row.
fn ranged(table: &[u32], parent: Option<usize>, name: u32, row: usize) -> bool
    requires { (IfSome parent (λ p. p < row_count table.now)) × (row < row_count table.now) }
    ensures { result ≡ ranged table.now parent name (row_at table.now row) }
{
    let r = row_at(table, row);
    hangs(table, parent, r) && is_named(name, r)
}

// How many of `rows` rows from `row` on stand before the first that it ranges over, if there is one.
pub(crate) fn next_ranged(
    table: &[u32],
    parent: Option<usize>,
    name: u32,
    row: usize,
    rows: usize,
) -> Option<usize>
    requires { (IfSome parent (λ p. p < row_count table.now)) × (row + rows ≤ row_count table.now) }
    ensures { result ≡ found (λ (j : ℕ). ranged table.now parent name (row_at table.now (row + j))) rows }
{
    (0..rows).find(|&i| ranged(table, parent, name, row + i))
}
