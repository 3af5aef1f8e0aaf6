// The row that a row hangs under.
ghost use Rattle.std.specs.Prelude.{◌≡◌, true, false, ◌<◌};
ghost use Rattle.tables.specs.Words.{row_at, row_count};
ghost use Rattle.tables.specs.Tables.{root, is_parent, accepted_table};
ghost use Rattle.engine.specs.Runs.{before_parent};

use base::partition_point;
use tables::{Row, is_parent, row_at};

// Whether a row stands before the parent of row r.
fn is_before_parent(r: Row, b: Row) -> bool
    ensures { result ≡ before_parent r b }
{
    (b.device < r.device) | ((b.device == r.device) & (b.at < r.up))
}

// The row that a row hangs under, looked for by halves: rows rise by device, then by at.
pub(crate) fn parent_of(pool: &[u32], row: usize) -> usize
    requires pool_value { (accepted_table pool.now ≡ true) × (row < row_count pool.now) }
    requires row_value { root (row_at pool.now row) ≡ false }
    ensures { (result < row) × (is_parent (row_at pool.now row) (row_at pool.now result) ≡ true) }
{
    let child = row_at(pool, row);
    partition_point(0, row - 1, |i| is_before_parent(child, row_at(pool, i)))
}

// The same, where row `guess` may be it.
pub(crate) fn guessed_parent(pool: &[u32], row: usize, guess: usize) -> usize
    requires pool_value { (accepted_table pool.now ≡ true) × (row < row_count pool.now) }
    requires row_value { root (row_at pool.now row) ≡ false }
    ensures { (result < row) × (is_parent (row_at pool.now row) (row_at pool.now result) ≡ true) }
{
    if guess < row {
        if is_parent(row_at(pool, row), row_at(pool, guess)) {
            return guess;
        }
    }
    parent_of(pool, row)
}
