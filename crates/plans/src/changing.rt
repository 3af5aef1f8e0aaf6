// The table after a step.
ghost use Rattle.std.specs.Prelude.{◌≡◌, ◌≤◌, length};
ghost use Rattle.tables.specs.Answers.{fitting, output};
ghost use Rattle.plans.specs.Plans.{changed, change_out};
ghost use Rattle.plans.specs.Steps.{after_step};
ghost use Rattle.plans.specs.Changing.{spliced, StepPlaced};

use super::steps::{Step, StepKind, place_of, read_step};
use super::{Change, RefusedStep};
use base::copy_at;
use tables::{Answer, Fault, ROW_WORDS, Refusal, Row, columns_of, row_at};

// Writes the first `before` words of a table, those of the middle, and the table's from `behind` on.
fn splice(table: &[u32], before: usize, middle: &[u32], behind: usize, out: &mut [u32]) -> Answer
    requires { (before ≤ length table.now) × (behind ≤ length table.now) }
    ensures value { result ≡ fitting (spliced table.now before middle.now behind) (length out.old) }
    ensures out_after { out.new ≡ output result (spliced table.now before middle.now behind) out.old }
{
    let seam = before + middle.len();
    let words = seam + (table.len() - behind);
    if out.len() < words {
        return Err(Refusal::of(Fault::ShortOutput));
    }
    copy_at(out, 0, &table[..before]);
    copy_at(out, before, middle);
    copy_at(out, seam, &table[behind..]);
    Ok(words)
}

// Writes the table after a step whose row has that place.
fn put_step(table: &[u32], step: Step, place: usize, out: &mut [u32]) -> Answer
    requires { StepPlaced table.now step place }
    ensures value { result ≡ fitting (after_step table.now step place) (length out.old) }
    ensures out_after { out.new ≡ output result (after_step table.now step place) out.old }
{
    let before = ROW_WORDS * place;
    match step.kind {
        StepKind::Set => {
            let set = Row {
                value: step.row.value,
                ..row_at(table, place)
            };
            splice(table, before, &columns_of(set), before + ROW_WORDS, out)
        }
        StepKind::Add => splice(table, before, &columns_of(step.row), before, out),
        StepKind::Remove => splice(table, before, &[], before + ROW_WORDS, out),
    }
}

// What a step does to a table; the words of the table after go to the start of `out`.
pub fn apply(table: &[u32], step: &[u32], out: &mut [u32]) -> Result<Change, RefusedStep>
    ensures change { result ≡ changed table.now step.now (length out.old) }
    ensures words { out.new ≡ change_out table.now step.now out.old }
{
    let Some(step) = read_step(step) else {
        return Err(Refusal::of(Fault::Step).into());
    };
    let row = place_of(table, step)?;
    match put_step(table, step, row, out) {
        Ok(words) => Ok(Change { words, row }),
        Err(refusal) => Err(RefusedStep { refusal, row }),
    }
}
