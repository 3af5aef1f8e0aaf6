// The pass over a table's rows: the row that each goes into, and the up that it then has. A row's parent stands before it, so that its
// new up is known; it then goes into the first row with its new up, name and value.
ghost use Rattle.std.specs.Prelude.{◌≡◌, true, false, ℕ, ◌<◌, ◌≤◌, ◌^◌, length, eqb};
ghost use Rattle.tables.specs.Words.{row_at, row_count};
ghost use Rattle.tables.specs.Links.{twin_hash};
ghost use Rattle.tables.specs.Tables.{row_limit, root, is_parent, is_twin};
ghost use Rattle.tables.specs.Links.{last_of, Linked};
ghost use Rattle.folding.specs.Passing.{Foldable, intos, ups, moved_at, hash_at, Passing, Backward, IsMoved, Found};

use base::partition_point;
use tables::{HASHES, ROW_LIMIT, ROW_WORDS, Row, VALUE, is_twin, row_at, twin_hash};

// Where a row goes: the row that it goes into, itself if it is left, and the up that it then has. 16 bits each, where they are enough:
// clearing is most of a small table's cost.
#[derive(Clone, Copy)]
pub(crate) struct Move {
    pub(crate) into: u16,
    pub(crate) up: u16,
}

impl Move {
    // Whether row i is left.
    pub(crate) fn stays(self, i: usize) -> bool
        ensures { result ≡ eqb self.into i }
    {
        usize::from(self.into) == i
    }
}

// Row i with its new up.
pub(crate) fn moved_at(table: &[u32], moves: &[Move], i: usize) -> Row
    requires { (i < row_count table.now) × (i < length moves.now) }
    ensures { result ≡ moved_at table.now (ups moves.now) i }
{
    Row {
        up: u32::from(moves[i].up),
        ..row_at(table, i)
    }
}

// The row that a row hangs under, looked for by halves: rows of one device rise by at.
fn parent_of(table: &[u32], row: usize) -> usize
    requires foldable { Foldable table.now }
    requires row_bound { (row < row_count table.now) × (root (row_at table.now row) ≡ false) }
    ensures { (result < row) × (is_parent (row_at table.now row) (row_at table.now result) ≡ true) }
{
    let up = row_at(table, row).up;
    partition_point(0, row - 1, |i| row_at(table, i).at < up)
}

// Row i with the up that it gets: the at of the row that its parent goes into.
fn moved_row(table: &[u32], moves: &[Move], i: usize) -> Row
    requires foldable { Foldable table.now }
    requires i_bound { (i < row_count table.now) × Backward (intos moves.now) i }
    ensures moved { IsMoved table.now (intos moves.now) i result }
    ensures up_fits { result.up < 2 ^ 16 }
{
    let row = row_at(table, i);
    if row.up == 0 {
        return row;
    }
    let parent = parent_of(table, i);
    let place = usize::from(moves[parent].into);
    Row {
        up: row_at(table, place).at,
        ..row
    }
}

// Whether r is an equal sibling of row j with its new up. The value is tested first: in a long chain it tells most rows apart.
fn is_equal(table: &[u32], moves: &[Move], j: usize, r: Row) -> bool
    requires { (j < row_count table.now) × (j < length moves.now) }
    ensures { result ≡ is_twin r (moved_at table.now (ups moves.now) j) }
{
    table[ROW_WORDS * j + VALUE] == r.value && is_twin(r, moved_at(table, moves, j))
}

// The last of the first i rows that is an equal sibling of r; k is one more than the last of them with its hash, and the chain goes on
// from there.
fn last_equal(
    table: &[u32],
    moves: &[Move],
    next: &[u16],
    i: usize,
    k: usize,
    r: Row,
) -> Option<usize>
    requires i_bound { (i ≤ row_count table.now) × (length moves.now ≡ row_limit) }
    requires linked { Linked (hash_at table.now (ups moves.now)) next.now i }
    requires k_value { k ≡ last_of (λ (m : ℕ). eqb (hash_at table.now (ups moves.now) m) (twin_hash r)) i }
    ensures { Found (λ (j : ℕ). is_twin r (moved_at table.now (ups moves.now) j)) i result }
{
    let mut at = k;
    while 0 < at {
        let j = at - 1;
        if is_equal(table, moves, j, r) {
            return Some(j);
        }
        at = usize::from(next[j]);
    }
    None
}

// Every row is linked, also one that goes: the last equal sibling is then the first in the chain, however many there are.
pub(crate) fn pass(table: &[u32], moves: &mut [Move])
    requires foldable { Foldable table.now }
    requires moves_len { length moves.old ≡ row_limit }
    ensures { Passing table.now (intos moves.new) (ups moves.new) (row_count table.now) }
{
    let mut head = [0u16; HASHES];
    let mut next = [0u16; ROW_LIMIT];
    for i in 0..table.len() / ROW_WORDS {
        let row = moved_row(table, moves, i);
        let hash = twin_hash(row);
        let last = head[hash];
        let into = match last_equal(table, moves, &next, i, usize::from(last), row) {
            Some(equal) => moves[equal].into,
            None => i as u16,
        };
        moves[i] = Move {
            into,
            up: row.up as u16,
        };
        next[i] = last;
        head[hash] = (i + 1) as u16;
    }
}
