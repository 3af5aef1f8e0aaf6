// Rows linked by hash: how checks 11, 26 and 12 look for earlier rows.
ghost use Rattle.std.specs.Prelude.{◌≡◌, ℕ, ◌+◌, ◌<◌, ◌≤◌, Bool, true, get_or};
ghost use Rattle.base.specs.Search.{some};
ghost use Rattle.tables.specs.Tables.{row_limit};

use super::hashes::HASHES;
use super::tables::ROW_LIMIT;

// How far a chain is followed. Longer ones only come up where the hashes of many rows are equal, and then each step waits for the
// one before: looking at all rows is quicker.
const MOST_STEPS: usize = 8;

// The first rows of a table, each linked to the last one before it with its hash. 16 bits for a row, and 0 for none: clearing them is
// most of a small table's cost.
#[derive(Drop)]
pub struct Chains {
    // Kept: numbers of 16 bits, since options of them are wider, and the stack is fixed.
    // For each hash one more than the last row with it.
    head: [u16; HASHES],
    // For each row one more than the last row before it with its hash.
    next: [u16; ROW_LIMIT],
    // The rows linked so far.
    rows: usize,
    ghost room: { rows ≤ row_limit },
    ghost heads_within: { (h : ℕ) → get_or head h 0 ≤ rows },
    ghost next_before: { (j : ℕ) → get_or next j 0 ≤ j },
}

impl Chains {
    ghost use Rattle.tables.specs.Links.{hashes, Chained};

    pub fn new() -> Chains
        ensures empty { result.rows ≡ 0 }
        ensures chained { (hash : ℕ → ℕ) → Chained hash result }
    {
        Chains {
            head: [0; HASHES],
            next: [0; ROW_LIMIT],
            rows: 0,
        }
    }

    // Links the next row, whose hash is h.
    pub fn link(&mut self, h: usize)
        requires h_in_bounds { h < hashes }
        requires rows_in_bounds { self.old.rows < row_limit }
        ensures rows { self.new.rows ≡ self.old.rows + 1 }
        ensures chained { (hash : ℕ → ℕ) → h ≡ hash self.old.rows → Chained hash self.old → Chained hash self.new }
    {
        let i = self.rows;
        self.next[i] = self.head[h];
        self.head[h] = (i + 1) as u16;
        self.rows = i + 1;
    }

    // Whether a test holds of a linked row, where such rows have the hash h. `scan` tells whether it holds of one of the first n rows.
    pub fn any<F: Fn(usize) -> bool, G: Fn(usize) -> bool>(
        &self,
        h: usize,
        test: F,
        scan: G,
    ) -> bool
        requires h_in_bounds { h < hashes }
        requires test { (j : ℕ) → j < self.now.rows → F.pre test j }
        requires scan { (n : ℕ) → n ≤ self.now.rows → G.pre scan n }
        ensures { (hash : ℕ → ℕ) (p : ℕ → Bool) → Chained hash self.now → ((j : ℕ) → p j ≡ true → hash j ≡ h)
            → ((j : ℕ) (b : Bool) → F.post test j b → b ≡ p j) → ((n : ℕ) (b : Bool) → G.post scan n b → b ≡ some p n)
            → result ≡ some p self.now.rows }
    {
        let mut at = self.head[h] as usize;
        for _ in 0..MOST_STEPS {
            if at == 0 {
                return false;
            }
            let j = at - 1;
            if test(j) {
                return true;
            }
            at = self.next[j] as usize;
        }
        scan(at)
    }
}
