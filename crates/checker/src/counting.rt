// The counts that the program prints.
ghost use Rattle.std.specs.Prelude.{◌≡◌, true, ◌+◌, ◌*◌, ◌≤◌, ◌<◌, length, count_by, eqb};
ghost use Rattle.tables.specs.Words.{row_words, row_count, rows, row_at};
ghost use Rattle.tables.specs.Rules.{one, accepted_rule};
ghost use Rattle.tables.specs.Tables.{row_limit, accepted_table};
ghost use Rattle.tables.specs.Devices.{from_device};
ghost use Rattle.logic.specs.Formulas.{formula};
ghost use Rattle.logic.specs.Verdict.{verdict};
ghost use Rattle.checker.specs.Report.{begins, part_count, count_at, parts_count, marked_count, counts};
ghost use Rattle.checker.specs.Counting.{words_of};

use engine::marks;
use parts::part_size;
use tables::{ROW_LIMIT, ROW_WORDS, TABLE_WORDS, row_at};

// How many bytes are 1.
fn ones(bytes: &[u8]) -> usize
    ensures { result ≡ count_by (λ b. eqb b 1) bytes.now }
{
    bytes.iter().filter(|byte| **byte == 1).count()
}

// The counts, in the order in which they are printed: the verdict, the pool's rows, those of all branch parts and of all full parts, and
// the marked rows.
#[derive(Clone, Copy)]
pub(crate) struct Counts {
    pub verdict: u32,
    pub rows: u32,
    pub branch: u32,
    pub full: u32,
    pub marks: u32,
}

impl From<Counts> for [u32; 5] {
    ghost from_gives = { λ c words. words ≡ words_of c };

    fn from(c: Counts) -> [u32; 5] {
        [c.verdict, c.rows, c.branch, c.full, c.marks]
    }
}

// An accepted rule and an accepted pool.
#[derive(Clone, Copy)]
pub(crate) struct Judged<'a> {
    pub rule: &'a [u32],
    pub pool: &'a [u32],
    ghost rule_accepted: { accepted_rule rule.now ≡ true },
    ghost pool_accepted: { accepted_table pool.now ≡ true },
}

impl Judged<'_> {
    fn row_count(&self) -> usize
        ensures { (result ≡ row_count self.now.pool.now) × (result ≤ row_limit) }
    {
        self.pool.len() / ROW_WORDS
    }

    fn device(&self, row: usize) -> u32
        requires { row < row_count self.now.pool.now }
        ensures { result ≡ (row_at self.now.pool.now row).device }
    {
        row_at(self.pool, row).device
    }

    // Whether a row is the first of its device.
    fn begins_device(&self, row: usize) -> bool
        requires { row < row_count self.now.pool.now }
        ensures { result ≡ begins self.now.pool.now row }
    {
        row == 0 || self.device(row) != self.device(row - 1)
    }

    // The first row of the device behind that of a row, or the number of rows: the pool's rows rise by device.
    fn device_end(&self, row: usize) -> usize
        requires { row < row_count self.now.pool.now }
        ensures end { result ≡ from_device self.now.pool.now ((row_at self.now.pool.now row).device + 1) }
        ensures within { (row < result) × (row_words * result ≤ length self.now.pool.now) }
    {
        let count = self.row_count();
        let device = self.device(row);
        (row..count)
            .find(|&end| device < self.device(end))
            .unwrap_or(count)
    }

    // The rows of the part of the device that begins at a row: a buffer of 1,024 rows has room for any.
    fn part_count(&self, row: usize, mode: u32) -> usize
        requires { (1 ≤ mode) × (mode ≤ 3) × (row < row_count self.now.pool.now) × (begins self.now.pool.now row ≡ true) }
        ensures { (result ≡ part_count (formula self.now.rule.now) mode self.now.pool.now (row_at self.now.pool.now row).device) × (result ≤ row_limit) }
    {
        let device_rows = &self.pool[ROW_WORDS * row..ROW_WORDS * self.device_end(row)];
        part_size(self.rule, device_rows, mode, TABLE_WORDS).unwrap_or(0)
    }

    // The same at the first row of each device, 0 at the others.
    fn count_at(&self, row: usize, mode: u32) -> usize
        requires { (1 ≤ mode) × (mode ≤ 3) × (row < row_count self.now.pool.now) }
        ensures { (result ≡ count_at (formula self.now.rule.now) mode self.now.pool.now row) × (result ≤ row_limit) }
    {
        if self.begins_device(row) {
            self.part_count(row, mode)
        } else {
            0
        }
    }

    // The rows of the parts of all devices.
    fn parts_count(&self, mode: u32) -> usize
        requires { (1 ≤ mode) × (mode ≤ 3) }
        ensures { (result ≡ parts_count (formula self.now.rule.now) mode self.now.pool.now) × (result ≤ row_limit * row_limit) }
    {
        let mut sum = 0;
        for row in 0..self.row_count() {
            sum += self.count_at(row, mode);
        }
        sum
    }

    pub(crate) fn counts(&self) -> Counts
        ensures { words_of result ≡ counts self.now.rule.now self.now.pool.now }
    {
        let mut bytes = [0u8; ROW_LIMIT];
        let verdict = marks(self.rule, self.pool, &mut bytes).unwrap_or(0);
        let rows = self.row_count();
        Counts {
            verdict: verdict as u32,
            rows: rows as u32,
            branch: self.parts_count(2) as u32,
            full: self.parts_count(3) as u32,
            marks: ones(&bytes[..rows]) as u32,
        }
    }
}
