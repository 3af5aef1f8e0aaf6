// A step's words, where its row stands in a table, and 23 to 25.
ghost use Rattle.std.specs.Prelude.{◌≡◌, false, MatchOption};
ghost use Rattle.tables.specs.Words.{row_count};
ghost use Rattle.plans.specs.Plans.{is_step, step_place, place_for, is_there, has_under};
ghost use Rattle.plans.specs.Steps.{kind_in, IsRead, place_of};

use tables::{Answer, Fault, ROW_WORDS, Refusal, Row, is_above, is_parent, row_at};

// A step is a kind word and the words of a row.
pub const STEP_WORDS: usize = ROW_WORDS + 1;

pub const SET: u32 = 1;

pub const ADD: u32 = 2;

pub const REMOVE: u32 = 3;

// What a step does with its row.
#[derive(Clone, Copy, PartialEq, Eq)]
pub enum StepKind {
    Set,
    Add,
    Remove,
}

#[derive(Clone, Copy)]
pub struct Step {
    pub kind: StepKind,
    pub row: Row,
}

fn kind_in(word: u32) -> Option<StepKind>
    ensures { result ≡ kind_in word }
{
    match word {
        SET => Some(StepKind::Set),
        ADD => Some(StepKind::Add),
        REMOVE => Some(StepKind::Remove),
        _ => None,
    }
}

// The step that words stand for, unless some lack or the kind is unknown: 23.
pub fn read_step(words: &[u32]) -> Option<Step>
    ensures { MatchOption result (is_step words.now ≡ false) (λ step. IsRead words.now step) }
{
    if words.len() < STEP_WORDS {
        return None;
    }
    let kind = kind_in(words[0])?;
    let row = row_at(&words[1..], 0);
    Some(Step { kind, row })
}

// The first row that a row isn't above, or the number of rows.
fn place_for(table: &[u32], row: Row) -> usize
    ensures { result ≡ place_for table.now row }
{
    let n = table.len() / ROW_WORDS;
    (0..n)
        .find(|&i| !is_above(row, row_at(table, i)))
        .unwrap_or(n)
}

// Whether the row at its place is the row itself.
#[tactic(auto, using(base::proofs::Search::first_le))]
fn is_there(table: &[u32], row: Row, place: usize) -> bool
    requires { place ≡ place_for table.now row }
    ensures { result ≡ is_there table.now row }
{
    if place == table.len() / ROW_WORDS {
        return false;
    }
    let there = row_at(table, place);
    there.device == row.device && there.at == row.at
}

// Whether some row is under it.
fn has_under(table: &[u32], row: Row) -> bool
    ensures { result ≡ has_under table.now row }
{
    (0..table.len() / ROW_WORDS).any(|i| is_parent(row_at(table, i), row))
}

// 24, 25, or the place of the step's row.
pub(crate) fn place_of(table: &[u32], step: Step) -> Answer
    ensures { result ≡ place_of table.now step }
{
    let place = place_for(table, step.row);
    if step.kind != StepKind::Add && !is_there(table, step.row, place) {
        return Err(Refusal::of(Fault::Absent));
    }
    if step.kind == StepKind::Remove && has_under(table, step.row) {
        return Err(Refusal::of(Fault::Removal));
    }
    Ok(place)
}

// The place of a step's row, or the refusal of the step.
pub fn step_place(table: &[u32], step: &[u32]) -> Answer
    ensures { result ≡ step_place table.now step.now }
{
    let Some(step) = read_step(step) else {
        return Err(Refusal::of(Fault::Step));
    };
    place_of(table, step)
}
