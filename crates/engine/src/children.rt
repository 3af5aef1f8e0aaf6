// For each row the run of rows in which its children stand.
ghost use Rattle.std.specs.Prelude.{◌≡◌, true, ◌+◌, ◌<◌, length, set};
ghost use Rattle.tables.specs.Words.{row_count};
ghost use Rattle.tables.specs.Tables.{row_limit, accepted_table};
ghost use Rattle.engine.specs.Runs.{no_children, NoneNoted, run_at, with_child, RunsWithin, Runs};

use super::parents::guessed_parent;
use super::words::row_count;
use tables::row_at;

// So many depths are told apart in guessing a parent.
const DEPTHS: usize = 16;

// The first child's number, and one more than the last one's; both are 0 where there is none.
// Kept: 16 bits each, not an Option of a range, which for 1,024 rows would take 24 KiB of the 128 KiB of stack, not 4.
#[derive(Clone, Copy)]
pub(crate) struct Children {
    pub start: u16,
    pub end: u16,
}

impl Children {
    pub const NONE: Children = Children { start: 0, end: 0 };

    // With row i as the last one so far.
    fn with(self, i: usize) -> Self
        requires { i < row_limit }
        ensures { result ≡ with_child self i }
    {
        let start = if self.end == 0 { i as u16 } else { self.start };
        Children {
            start,
            end: (i + 1) as u16,
        }
    }
}

// Notes row i as its parent's child, where it has one. The last row that is one less deep is mostly the parent.
fn note_row(pool: &[u32], i: usize, latest: &[u16], children: &mut [Children])
    requires pool_value { (accepted_table pool.now ≡ true) × (i < row_count pool.now) }
    requires latest_len { length latest.now ≡ 16 }
    requires runs_within { RunsWithin pool.now children.old i }
    ensures { RunsWithin pool.now children.new (i + 1) }
{
    let r = row_at(pool, i);
    if r.up == 0 {
        return;
    }
    let above = (r.deep as usize % DEPTHS + DEPTHS - 1) % DEPTHS;
    let parent = guessed_parent(pool, i, latest[above] as usize);
    children[parent] = children[parent].with(i);
}

// Finds the children of each row, where none are noted.
pub(crate) fn find_children(pool: &[u32], children: &mut [Children])
    requires pool_value { accepted_table pool.now ≡ true }
    requires none_noted { NoneNoted children.old }
    ensures { Runs pool.now children.new }
{
    let mut latest = [0u16; DEPTHS];
    for i in 0..row_count(pool) {
        note_row(pool, i, &latest, children);
        latest[row_at(pool, i).deep as usize % DEPTHS] = i as u16;
    }
}
