ghost use Rattle.std.specs.Prelude.{◌≡◌, ◌<◌, get_or};
ghost use Rattle.tables.specs.Rules.{nesting_limit};
ghost use Rattle.engine.specs.Places.{fresh, bind_at, row_of_place};

use tables::{NESTING_LIMIT, ROW_LIMIT};

// Each variable has a row or nothing: 0 is nothing, else 1 + the row's number. The first `depth` are bound.
// Kept: places of 16 bits with their count beside them, as each frame of the evaluator has several of these in 128 KiB of stack.
#[derive(Clone, Copy)]
pub struct Bindings {
    pub row: [u16; Bindings::LIMIT],
    pub depth: u16,
}

impl Bindings {
    // So many quantifiers stand around one another at most.
    pub const LIMIT: usize = NESTING_LIMIT;

    // They start with none bound.
    pub fn none() -> Self
        ensures { result ≡ fresh }
    {
        Bindings {
            row: [0; Bindings::LIMIT],
            depth: 0,
        }
    }

    // Stores the next variable's place and gives back the whole set. A full set stays as it is, and so does one given a place that no
    // table has.
    pub fn bind(mut self, place: usize) -> Self
        ensures { result ≡ bind_at self place }
    {
        let at = self.depth as usize;
        if Bindings::LIMIT <= at {
            return self;
        }
        if ROW_LIMIT < place {
            return self;
        }
        self.row[at] = place as u16;
        self.depth = (at + 1) as u16;
        self
    }

    // The row of a variable.
    pub(crate) fn row_of(self, variable: usize) -> Option<usize>
        requires { variable < nesting_limit }
        ensures { result ≡ row_of_place (get_or self.row variable 0) }
    {
        (self.row[variable] as usize).checked_sub(1)
    }
}
