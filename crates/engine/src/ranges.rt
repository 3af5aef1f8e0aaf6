// The rows that a quantifier ranges over, and its name test.
ghost use Rattle.std.specs.Prelude.{◌≡◌, ℕ, ◌+◌, ◌<◌, ◌≤◌};
ghost use Rattle.base.specs.Search.{found};
ghost use Rattle.tables.specs.Words.{row_at, row_count};
ghost use Rattle.logic.specs.Verdict.{named};
ghost use Rattle.engine.specs.Ready.{Placed, NamedParent, ranges_by, is_named_root, is_named_child, Covers};

use super::bindings::Bindings;
use super::pool::{Pool, Run};
use super::words::row_count;
use tables::{ANY_NAME, Over, Quantifier, Row, is_parent, row_at};

// A quantifier, as its entry was read.
#[derive(Clone, Copy)]
pub(crate) struct Quantified {
    pub by: Quantifier,
    pub over: Over,
    pub name: u32,
    pub body: usize,
}

// A quantifier's name test, for collector and switch.
pub fn is_named(name: u32, r: Row) -> bool
    ensures { result ≡ named name r }
{
    (name == ANY_NAME) | (r.name == name)
}

// Whether a quantifier ranges over a row.
pub(crate) fn ranges(pool: &[u32], b: Bindings, q: &Quantified, row: usize) -> bool
    requires placed { Placed pool.now b }
    requires parent { NamedParent q.now.over }
    requires inside { row < row_count pool.now }
    ensures { result ≡ ranges_by pool.now b q.now (row_at pool.now row) }
{
    let r = row_at(pool, row);
    let hangs = match q.over {
        Over::Roots => r.up == 0,
        Over::Under(variable) => match b.row_of(variable) {
            None => false,
            Some(parent) => is_parent(r, row_at(pool, parent)),
        },
    };
    hangs & is_named(q.name, r)
}

// How many rows of a run stand before its first root that passes the name test, if there is one.
fn next_root(pool: &[u32], name: u32, run: Run) -> Option<usize>
    requires { run.start + run.rows ≤ row_count pool.now }
    ensures { result ≡ found (λ (j : ℕ). is_named_root name (row_at pool.now (run.start + j))) run.rows }
{
    (0..run.rows).find(|&j| {
        let r = row_at(pool, run.start + j);
        r.up == 0 && is_named(name, r)
    })
}

// The same of the rows that hang under one. The name is tested first, then the parent's place: most rows of a run fail there.
fn next_child(pool: &[u32], parent: Row, name: u32, run: Run) -> Option<usize>
    requires { run.start + run.rows ≤ row_count pool.now }
    ensures { result ≡ found (λ (j : ℕ). is_named_child parent name (row_at pool.now (run.start + j))) run.rows }
{
    (0..run.rows).find(|&j| {
        let r = row_at(pool, run.start + j);
        is_named(name, r) && parent.at == r.up && is_parent(r, parent)
    })
}

// How many rows of a run stand before the first one that a quantifier ranges over, if it ranges over any. The parent is looked up once,
// not for each row.
pub(crate) fn next_ranged(pool: &[u32], b: Bindings, q: &Quantified, run: Run) -> Option<usize>
    requires placed { Placed pool.now b }
    requires parent { NamedParent q.now.over }
    requires inside { run.start + run.rows ≤ row_count pool.now }
    ensures { result ≡ found (λ (j : ℕ). ranges_by pool.now b q.now (row_at pool.now (run.start + j))) run.rows }
{
    match q.over {
        Over::Roots => next_root(pool, q.name, run),
        Over::Under(variable) => match b.row_of(variable) {
            None => None,
            Some(parent) => next_child(pool, row_at(pool, parent), q.name, run),
        },
    }
}

// A run of rows outside which a quantifier ranges over none: all rows, or that of the bound row's children.
pub(crate) fn run_of(pool: &Pool, b: Bindings, over: Over) -> Run
    requires placed { Placed pool.now.words.now b }
    requires parent { NamedParent over }
    ensures { (q : Quantified) → q.over ≡ over → Covers pool.now.words.now b q result.start result.rows }
{
    match over {
        Over::Roots => Run {
            start: 0,
            rows: row_count(pool.words),
        },
        Over::Under(variable) => match b.row_of(variable) {
            None => Run { start: 0, rows: 0 },
            Some(parent) => pool.children_run(parent),
        },
    }
}
