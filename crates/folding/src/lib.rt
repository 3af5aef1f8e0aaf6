// Folding: equal siblings of one device's table made one, in a pass over its rows.
#![tactic(auto)]

mod passing;
mod writing;

ghost use Rattle.std.specs.Prelude.{◌≡◌, length};
ghost use Rattle.tables.specs.Answers.{Done, and_then, unless_any};
ghost use Rattle.tables.specs.Words.{row_count};
ghost use Rattle.tables.specs.Tables.{check_order, other_device};
ghost use Rattle.tables.specs.declared.refusals.Fault.TheVariants.{OtherDevice};
ghost use Rattle.folding.specs.Folding.{fold_answer, fold_out};

use passing::{Move, pass};
use tables::{Answer, Fault, ROW_LIMIT, ROW_WORDS, Refusal, check_order, first_other};
use writing::{count_left, put_left};

// All refusals but 17, or the number of rows.
fn check_foldable(table: &[u32]) -> Answer
    ensures { result ≡ and_then (check_order table.now)
        (unless_any (other_device table.now) OtherDevice (row_count table.now) (Done (row_count table.now))) }
{
    let rows = check_order(table)?;
    let place = first_other(table);
    if place < rows {
        return Err(Refusal {
            fault: Fault::OtherDevice,
            place,
        });
    }
    Ok(rows)
}

// Folds equal siblings of one device's table until none are left. The answer is the number of rows left; their words go to the start of
// `folded`.
pub fn fold(table: &[u32], folded: &mut [u32]) -> Answer
    ensures answer { result ≡ fold_answer table.now (length folded.old) }
    ensures words { folded.new ≡ fold_out table.now folded.old }
{
    let rows = check_foldable(table)?;
    let mut moves = [Move { into: 0, up: 0 }; ROW_LIMIT];
    pass(table, &mut moves);
    let left = count_left(&moves, rows);
    if folded.len() < ROW_WORDS * left {
        return Err(Refusal::of(Fault::ShortOutput));
    }
    put_left(table, &moves, folded);
    Ok(left)
}
