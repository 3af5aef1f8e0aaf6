// The evaluator: the verdict of an entry, and the walk of a quantifier's rows.
ghost use Rattle.std.specs.Prelude.{◌≡◌};
ghost use Rattle.engine.specs.Ready.{Ready, ReadyRun, verdict_at, verdict_by};

use super::bindings::Bindings;
use super::comparisons::compared;
use super::connectives::{left_decides, settled, undecided};
use super::pool::{Question, Run};
use super::ranges::{Quantified, next_ranged, run_of};
use tables::{Node, entry_at, node_of};

impl Question<'_, '_> {
    // The verdict of an entry.
    #[cycle(holds_walk)]
    pub(crate) fn holds(&self, b: Bindings, entry: usize) -> bool
        requires { Ready self.now.rule.now self.now.pool.words.now b entry }
        ensures { result ≡ verdict_at self.now.rule.now self.now.pool.words.now b entry }
    {
        match node_of(entry_at(self.rule, entry)) {
            Node::Not { body } => !self.holds(b, body),
            Node::Connective { by, left, right } => {
                let first = self.holds(b, left);
                if left_decides(by, first) {
                    return !undecided(by);
                }
                self.holds(b, right)
            }
            Node::Quantifier {
                by,
                over,
                name,
                body,
            } => {
                let q = Quantified {
                    by,
                    over,
                    name,
                    body,
                };
                if self.settled_before(b, &q, false) {
                    return settled(by);
                }
                self.walk(b, &q, run_of(&self.pool, b, over))
            }
            Node::Comparison {
                by,
                variable,
                operand,
            } => compared(self.pool.words, b, by, variable, operand),
        }
    }

    // The verdict of a quantifier over a run of rows: of the first one that it ranges over, then of those behind it, by halves.
    // Kept: by halves, not a loop over the rows: the number that falls at each call has to join entries left and rows left (DECISIONS).
    #[cycle(holds_walk)]
    fn walk(&self, b: Bindings, q: &Quantified, run: Run) -> bool
        requires { ReadyRun self.now.rule.now self.now.pool.words.now b q.now run.start run.rows }
        ensures { result ≡ verdict_by self.now.rule.now self.now.pool.words.now b q.now run.start run.rows }
    {
        let open = settled(q.by);
        let Some(skipped) = next_ranged(self.pool.words, b, q, run) else {
            return open;
        };
        let first = run.start + skipped;
        let verdict = self.holds(b.bind(first + 1), q.body);
        if verdict != open {
            return verdict;
        }
        let left = run.rows - skipped - 1;
        if left == 0 {
            return open;
        }
        let half = left / 2;
        let near_rows = Run {
            start: first + 1,
            rows: half,
        };
        let near = self.walk(b, q, near_rows);
        if near != open {
            return near;
        }
        let far_rows = Run {
            start: first + 1 + half,
            rows: left - half,
        };
        self.walk(b, q, far_rows)
    }
}
