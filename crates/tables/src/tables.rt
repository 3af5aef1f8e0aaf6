// The refusals of a table.
ghost use Rattle.std.specs.Prelude.{◌≡◌};
ghost use Rattle.tables.specs.Tables.{check_table, check_order};

use super::parents::check_parents;
use super::refusals::{Answer, Fault, Refusal, refuse_at};
use super::rows::{ROW_WORDS, is_above, out_of_range, row_at};
use super::twins::first_twin;

pub const ROW_LIMIT: usize = 1024;

// A buffer of so many words has room for any table.
pub const TABLE_WORDS: usize = ROW_LIMIT * ROW_WORDS;

// The table checks but that of equal siblings, in their order: the number of rows, or the first refusal.
pub fn check_order(table: &[u32]) -> Answer
    ensures { result ≡ check_order table.now }
{
    let n = table.len() / ROW_WORDS;
    if table.len() % ROW_WORDS != 0 || ROW_LIMIT < n {
        return Err(Refusal::of(Fault::TableLength));
    }
    let range = (0..n).find(|&i| out_of_range(row_at(table, i)));
    refuse_at(Fault::Range, range)?;
    let order = (0..n).find(|&i| 0 < i && !is_above(row_at(table, i), row_at(table, i - 1)));
    refuse_at(Fault::Order, order)?;
    check_parents(table, n)?;
    Ok(n)
}

// The table checks, that of equal siblings last: the number of rows, or the first refusal.
pub fn check_table(table: &[u32]) -> Answer
    ensures { result ≡ check_table table.now }
{
    let n = check_order(table)?;
    refuse_at(Fault::Sibling, first_twin(table, &[], n))?;
    Ok(n)
}
