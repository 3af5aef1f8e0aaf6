// What a verdict is asked of, and runs of a pool's rows.
ghost use Rattle.std.specs.Prelude.{◌≡◌, ◌-◌, ◌<◌};
ghost use Rattle.tables.specs.Words.{row_count};
ghost use Rattle.engine.specs.Runs.{run_at, Runs};

use super::children::Children;

// A run of rows.
#[derive(Clone, Copy)]
pub(crate) struct Run {
    pub start: usize,
    pub rows: usize,
}

// A pool, and for each row the run in which its children stand.
#[derive(Clone, Copy)]
pub(crate) struct Pool<'a> {
    pub words: &'a [u32],
    pub children: &'a [Children],
    ghost runs: { Runs words.now children.now },
}

impl Pool<'_> {
    // The run of a row's children.
    pub(crate) fn children_run(&self, row: usize) -> Run
        requires { row < row_count self.now.words.now }
        ensures start_value { result.start ≡ (run_at self.now.children.now row).start }
        ensures rows_value { result.rows ≡ (run_at self.now.children.now row).end - (run_at self.now.children.now row).start }
    {
        let children = self.children[row];
        Run {
            start: children.start as usize,
            rows: (children.end - children.start) as usize,
        }
    }
}

// A rule, asked of a pool.
#[derive(Clone, Copy)]
pub(crate) struct Question<'r, 'p> {
    pub rule: &'r [u32],
    pub pool: Pool<'p>,
}
