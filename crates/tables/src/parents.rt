// Checks 11 and 26 in one pass. Rows are linked by device and at, so that a row's parent is found by device and up.
ghost use Rattle.std.specs.Prelude.{◌≡◌, ◌*◌, ◌≤◌, ◌<◌, length};
ghost use Rattle.base.specs.Search.{some};
ghost use Rattle.tables.specs.Words.{row_words, row_at, row_count};
ghost use Rattle.tables.specs.Tables.{row_limit};
ghost use Rattle.tables.specs.Links.{hashes, place_hash, places_at, fits_parent, Chained, parent_fault, check_parents};

use super::Row;
use super::hashes::hash_of;
use super::links::Chains;
use super::refusals::{Fault, Refusal, refuse_at};
use super::rows::{AT, ROW_WORDS, is_deeper, is_parent, row_at};

fn place_hash(device: u32, at: u32) -> usize
    ensures value { result ≡ place_hash device at }
    ensures upper_bound { result < hashes }
{
    hash_of(device, at, 0, 0)
}

// Whether p is the parent of r; where asked, r is to be one deeper, too.
fn fits_parent(deeper: bool, r: Row, p: Row) -> bool
    ensures { result ≡ fits_parent deeper r p }
{
    is_parent(r, p) && (!deeper || is_deeper(r, p))
}

// One of the first i rows, looked at one after the other. The place is tested first: one row of each device has it at most.
fn scan_parents(t: &[u32], i: usize, deeper: bool, r: Row) -> bool
    requires { row_words * i ≤ length t.now }
    ensures { result ≡ some (λ j. fits_parent deeper r (row_at t.now j)) i }
{
    (0..i).any(|j| t[ROW_WORDS * j + AT] == r.up && fits_parent(deeper, r, row_at(t, j)))
}

// Whether one of the rows linked fits r as its parent.
fn has_parent(t: &[u32], chains: &Chains, deeper: bool, r: Row) -> bool
    requires rows_in_bounds { chains.now.rows ≤ row_count t.now }
    requires chained { Chained (places_at t.now) chains.now }
    ensures { result ≡ some (λ j. fits_parent deeper r (row_at t.now j)) chains.now.rows }
{
    chains.any(
        place_hash(r.device, r.up),
        |j| fits_parent(deeper, r, row_at(t, j)),
        |n| scan_parents(t, n, deeper, r),
    )
}

// Whether the next row, which is r, has fault 11 or 26: 11 before 26. A root has no parent, and depth 0. A row without its parent has no
// right depth, so that any parent is looked for only where the one with the depth due is missing.
fn parent_fault(t: &[u32], chains: &Chains, r: Row) -> Option<Fault>
    requires row { (chains.now.rows < row_count t.now) × (r ≡ row_at t.now chains.now.rows) }
    requires chained { Chained (places_at t.now) chains.now }
    ensures { result ≡ parent_fault t.now chains.now.rows }
{
    if r.up == 0 {
        return (r.deep != 0).then_some(Fault::Depth);
    }
    if has_parent(t, chains, true, r) {
        return None;
    }
    if has_parent(t, chains, false, r) {
        return Some(Fault::Depth);
    }
    Some(Fault::Parent)
}

// A wrong depth is noted, and the pass goes on: 11 comes first, wherever it stands.
pub(crate) fn check_parents(t: &[u32], n: usize) -> Result<(), Refusal>
    requires n_in_bounds { n ≤ row_count t.now }
    requires n_le_row_limit { n ≤ row_limit }
    ensures { result ≡ check_parents t.now n }
{
    let mut chains = Chains::new();
    let mut depth = None;
    for i in 0..n {
        let r = row_at(t, i);
        let fault = parent_fault(t, &chains, r);
        chains.link(place_hash(r.device, r.at));
        if let Some(fault) = fault {
            match fault {
                Fault::Parent => return Err(Refusal { fault, place: i }),
                _ => depth = depth.or(Some(i)),
            }
        }
    }
    refuse_at(Fault::Depth, depth)
}
