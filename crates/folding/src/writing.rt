// The rows left: how many, and their words.
ghost use Rattle.std.specs.Prelude.{◌≡◌, ◌+◌, ◌<◌, ◌≤◌, length};
ghost use Rattle.std.proofs.lemmas.List.Edits.{sets};
ghost use Rattle.base.specs.Search.{sum_below};
ghost use Rattle.tables.specs.Words.{row_count, words_of};
ghost use Rattle.tables.specs.Tables.{row_limit};
ghost use Rattle.folding.specs.Passing.{intos, ups, is_left, left_at, left_of};

use super::passing::{Move, moved_at};
use base::copy_at;
use tables::{ROW_WORDS, columns_of};

// How many of the first n rows are left.
pub(crate) fn count_left(moves: &[Move], n: usize) -> usize
    requires { (n ≤ length moves.now) × (n ≤ row_limit) }
    ensures { (result ≡ sum_below (is_left (intos moves.now)) n) × (result ≤ n) }
{
    let mut left = 0;
    for i in 0..n {
        if moves[i].stays(i) {
            left += 1;
        }
    }
    left
}

// Writes the words of row i, with its new up, at a place of the output, if the row is left; gives the place behind them.
fn put_row(table: &[u32], moves: &[Move], i: usize, out: &mut [u32], at: usize) -> usize
    requires i_bound { (i < row_count table.now) × (i < length moves.now) }
    requires i_in_bounds { at + length (words_of (left_at table.now (intos moves.now) (ups moves.now) i)) ≤ length out.old }
    ensures value { result ≡ at + length (words_of (left_at table.now (intos moves.now) (ups moves.now) i)) }
    ensures out_after { out.new ≡ sets out.old at (words_of (left_at table.now (intos moves.now) (ups moves.now) i)) }
{
    if !moves[i].stays(i) {
        return at;
    }
    copy_at(out, at, &columns_of(moved_at(table, moves, i)));
    at + ROW_WORDS
}

// Writes the words of the rows left at the start of the output.
pub(crate) fn put_left(table: &[u32], moves: &[Move], out: &mut [u32])
    requires table_in_bounds { row_count table.now ≤ length moves.now }
    requires room { length (words_of (left_of table.now (intos moves.now) (ups moves.now) (row_count table.now))) ≤ length out.old }
    ensures { out.new ≡ sets out.old 0
        (words_of (left_of table.now (intos moves.now) (ups moves.now) (row_count table.now))) }
{
    let mut at = 0;
    for i in 0..table.len() / ROW_WORDS {
        at = put_row(table, moves, i, out, at);
    }
}
