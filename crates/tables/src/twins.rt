// Check 12. Rows are linked by a hash that equal siblings share; the rows are those of two tables in a row, as joining needs it.
ghost use Rattle.std.specs.Prelude.{◌≡◌, ◌++◌, ◌+◌, ◌*◌, ◌%◌, ◌≤◌, ◌<◌, length};
ghost use Rattle.base.specs.Search.{some, found};
ghost use Rattle.tables.specs.Words.{row_words, row_at};
ghost use Rattle.tables.specs.Tables.{row_limit, is_twin, has_twin};
ghost use Rattle.tables.specs.Links.{twin_hash, is_like, twins_at, Chained};

use super::Row;
use super::hashes::hash_of;
use super::links::Chains;
use super::rows::{ROW_WORDS, UP, is_twin, row_at, row_of};

// For roots the device does not count.
pub fn twin_hash(r: Row) -> usize
    ensures { result ≡ twin_hash r }
{
    let device = if r.up == 0 { 0 } else { r.device };
    hash_of(device, r.up, r.name, r.value)
}

fn is_like(r: Row, b: Row) -> bool
    ensures { result ≡ is_like r b }
{
    (b.name == r.name) & (b.value == r.value)
}

// Whether one of the first n rows has the name and value of r. It never stops early, and so compares several rows at once.
fn has_like(t: &[u32], n: usize, r: Row) -> bool
    requires { row_words * n ≤ length t.now }
    ensures { result ≡ some (λ j. is_like r (row_at t.now j)) n }
{
    let mut found = false;
    for i in 0..n {
        found |= is_like(r, row_at(t, i));
    }
    found
}

// Stops at the first equal sibling. The parent is tested first: some row is known to have the name and value of r.
fn scan_twins(t: &[u32], n: usize, r: Row) -> bool
    requires { row_words * n ≤ length t.now }
    ensures { result ≡ some (λ j. is_twin r (row_at t.now j)) n }
{
    (0..n).any(|j| t[ROW_WORDS * j + UP] == r.up && is_twin(r, row_at(t, j)))
}

// Whether one of the first n rows of t is an equal sibling of r.
fn has_twin_in(t: &[u32], n: usize, r: Row) -> bool
    requires { row_words * n ≤ length t.now }
    ensures { result ≡ some (λ j. is_twin r (row_at t.now j)) n }
{
    if has_like(t, n, r) {
        return scan_twins(t, n, r);
    }
    false
}

// Whether one of the first n rows of s and t is, by looking at all of them: as fast as comparing all pairs of rows.
fn has_twin_before(s: &[u32], t: &[u32], n: usize, r: Row) -> bool
    requires row_words_len { length s.now % row_words ≡ 0 }
    requires n_in_bounds { row_words * n ≤ length s.now + length t.now }
    ensures { result ≡ some (λ j. is_twin r (row_at (s.now ++ t.now) j)) n }
{
    let m = s.len() / ROW_WORDS;
    if n <= m {
        return has_twin_in(s, n, r);
    }
    if has_twin_in(s, m, r) {
        return true;
    }
    has_twin_in(t, n - m, r)
}

// Whether one of the rows linked, which are the first of s and t, is an equal sibling of r, whose hash is h.
fn has_twin(s: &[u32], t: &[u32], chains: &Chains, h: usize, r: Row) -> bool
    requires row_words_len { length s.now % row_words ≡ 0 }
    requires rows_in_bounds { row_words * chains.now.rows ≤ length s.now + length t.now }
    requires chained { Chained (twins_at (s.now ++ t.now)) chains.now }
    requires hash { h ≡ twin_hash r }
    ensures { result ≡ some (λ j. is_twin r (row_at (s.now ++ t.now) j)) chains.now.rows }
{
    chains.any(
        h,
        |j| is_twin(r, row_of(s, t, j)),
        |n| has_twin_before(s, t, n, r),
    )
}

// The first of the n rows of s and t that has fault 12.
pub(crate) fn first_twin(s: &[u32], t: &[u32], n: usize) -> Option<usize>
    requires row_words_len { length s.now % row_words ≡ 0 }
    requires n_in_bounds { row_words * n ≤ length s.now + length t.now }
    requires n_le_row_limit { n ≤ row_limit }
    ensures { result ≡ found (has_twin (s.now ++ t.now)) n }
{
    let mut chains = Chains::new();
    for i in 0..n {
        let r = row_of(s, t, i);
        let h = twin_hash(r);
        if has_twin(s, t, &chains, h, r) {
            return Some(i);
        }
        chains.link(h);
    }
    None
}
