// Plans: steps that set a row's value, add a row in its place, or remove a row, and what each does to a table.
#![tactic(auto)]

ghost use Rattle.std.specs.Prelude.{◌≡◌};
ghost use Rattle.plans.specs.Plans.{refused_at};

mod changing;
mod steps;

pub use changing::apply;
pub use steps::{ADD, REMOVE, SET, STEP_WORDS, Step, StepKind, read_step, step_place};
use tables::Refusal;

// What a step does to a table: the number of words of the table after, and the place of the step's row.
#[derive(Clone, Copy, PartialEq, Eq)]
pub struct Change {
    pub words: usize,
    pub row: usize,
}

// Why a step isn't done, and the place of its row: 0 where it is refused before that is known to stand.
#[derive(Clone, Copy, PartialEq, Eq)]
pub struct RefusedStep {
    pub refusal: Refusal,
    pub row: usize,
}

impl From<Refusal> for RefusedStep {
    ghost from_gives = { λ refusal refused. refused ≡ refused_at 0 refusal };

    fn from(refusal: Refusal) -> RefusedStep {
        RefusedStep { refusal, row: 0 }
    }
}

// What trying a plan answers: the refusal by number and place, 0 and 0 where there is none, the steps done, and the rows of the working
// table. As C gets it.
#[repr(C)]
#[derive(Clone, Copy)]
pub struct Trial {
    pub number: u32,
    pub place: usize,
    pub steps: usize,
    pub rows: usize,
}
