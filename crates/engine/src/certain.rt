// What is certain of an entry while some variables are unknown: their place is nothing. It settles a quantifier before its rows are
// walked, and tells a body whose reason is the same at all of them.
ghost use Rattle.std.specs.Prelude.{◌≡◌, true, ◌<◌};
ghost use Rattle.tables.specs.Words.{row_count};
ghost use Rattle.tables.specs.Rules.{nesting_limit};
ghost use Rattle.engine.specs.Ready.{Placed, NamedOther, NamedParent, Ready, ReadyRun};
ghost use Rattle.engine.specs.Settling.{CertainCompared, KnownParent, Steady, Certain, CertainRun, Settles};

use super::bindings::Bindings;
use super::comparisons::compared;
use super::connectives::{settled, side, undecided};
use super::pool::{Pool, Question, Run};
use super::ranges::{Quantified, next_ranged, run_of};
use tables::{Comparison, Node, Operand, Over, entry_at, node_of};

// Whether a comparison has the wanted verdict whatever rows the unknown variables have.
fn sure_compared(
    pool: &[u32],
    b: Bindings,
    by: Comparison,
    variable: usize,
    operand: Operand,
    want: bool,
) -> bool
    requires placed { Placed pool.now b }
    requires inside { variable < nesting_limit }
    requires named { NamedOther operand }
    ensures { CertainCompared pool.now b by variable operand want result }
{
    if b.row_of(variable).is_none() {
        return false;
    }
    if let Operand::Variable(other) = operand {
        if b.row_of(other).is_none() {
            return false;
        }
    }
    compared(pool, b, by, variable, operand) == want
}

// Whether the children of a row stand within fewer than 64 rows.
fn is_short(pool: &Pool, row: usize) -> bool
    requires { row < row_count pool.now.words.now }
{
    pool.children_run(row).rows < 64
}

// Whether the rows that a quantifier ranges over are known, and few enough to be read ahead.
fn reads_ahead(pool: &Pool, b: Bindings, over: Over, effort: usize) -> bool
    requires placed { Placed pool.now.words.now b }
    requires parent { NamedParent over }
    ensures { result ≡ true → KnownParent b over }
{
    match over {
        Over::Roots => false,
        Over::Under(variable) => match b.row_of(variable) {
            None => false,
            Some(parent) => (0 < effort) & is_short(pool, parent),
        },
    }
}

// If one reason is asked: whether, with the wanted verdict, it is every row that a quantifier ranges over, and these rows are known.
fn is_steady(b: Bindings, q: &Quantified, want: bool, same: bool) -> bool
    requires { NamedParent q.now.over }
    ensures { Steady b q.now want same result }
{
    if !same {
        return true;
    }
    if want != settled(q.by) {
        return false;
    }
    match q.over {
        Over::Roots => true,
        Over::Under(variable) => b.row_of(variable).is_some(),
    }
}

// Whether a quantifier's rows may be many and do not hang on the innermost variable, so that settling it at once may pay.
fn is_wide(pool: &Pool, b: Bindings, over: Over) -> bool
    requires placed { Placed pool.now.words.now b }
    requires parent { NamedParent over }
{
    match over {
        Over::Roots => 0 < b.depth,
        Over::Under(variable) => {
            if variable + 1 == b.depth as usize {
                return false;
            }
            match b.row_of(variable) {
                None => false,
                Some(parent) => !is_short(pool, parent),
            }
        }
    }
}

impl Question<'_, '_> {
    // Whether an entry has the wanted verdict whatever rows the unknown variables have, and, if `same` is asked, one reason. No is always
    // allowed, so `effort` is free: a walk of known rows leaves half of it to each body, and with 1 no walk stands inside another.
    // Kept: `want`, `same` and `effort` apart, as each call changes one of them: a struct of them would be no plainer.
    #[cycle(scan_sure)]
    fn sure(&self, b: Bindings, entry: usize, want: bool, same: bool, effort: usize) -> bool
        requires { Ready self.now.rule.now self.now.pool.words.now b entry }
        ensures { Certain self.now.rule.now self.now.pool.words.now b entry want same result }
    {
        match node_of(entry_at(self.rule, entry)) {
            Node::Not { body } => self.sure(b, body, !want, same, effort),
            Node::Connective { by, left, right } => {
                let decides = side(by, want);
                let first = self.sure(b, left, decides, same, effort);
                let both = want == undecided(by);
                if first != both {
                    return first;
                }
                if same & !first {
                    // The right side has the reason where the left one is sure not to decide.
                    if !self.sure(b, left, !decides, false, effort) {
                        return false;
                    }
                }
                self.sure(b, right, want, same, effort)
            }
            Node::Quantifier {
                by,
                over,
                name,
                body,
            } => {
                let q = Quantified {
                    by,
                    over,
                    name,
                    body,
                };
                if !is_steady(b, &q, want, same) {
                    return false;
                }
                if reads_ahead(&self.pool, b, over, effort) {
                    let run = run_of(&self.pool, b, over);
                    return self.scan(b, &q, want, same, effort, run);
                }
                if want != settled(by) {
                    return false;
                }
                self.sure(b.bind(0), body, want, same, effort)
            }
            Node::Comparison {
                by,
                variable,
                operand,
            } => sure_compared(self.pool.words, b, by, variable, operand, want),
        }
    }

    // The same of a quantifier over a run of rows, by halves. Its parent's row is known.
    // Kept: by halves, as `walk` goes: the number that falls at each call, and its laws, are the same.
    #[cycle(scan_sure)]
    fn scan(
        &self,
        b: Bindings,
        q: &Quantified,
        want: bool,
        same: bool,
        effort: usize,
        run: Run,
    ) -> bool
        requires ready { ReadyRun self.now.rule.now self.now.pool.words.now b q.now run.start run.rows }
        requires parent { KnownParent b q.now.over }
        ensures { CertainRun self.now.rule.now self.now.pool.words.now b q.now want same run.start run.rows result }
    {
        let all = want == settled(q.by);
        let Some(skipped) = next_ranged(self.pool.words, b, q, run) else {
            return all;
        };
        let first = run.start + skipped;
        let left = run.rows - skipped;
        if left == 1 {
            return self.sure(b.bind(first + 1), q.body, want, same, effort / 2);
        }
        let half = left / 2;
        let near = Run {
            start: first,
            rows: half,
        };
        let known = self.scan(b, q, want, same, effort, near);
        if known != all {
            return known;
        }
        let far = Run {
            start: first + half,
            rows: left - half,
        };
        self.scan(b, q, want, same, effort, far)
    }

    // Whether a quantifier is settled before its rows are walked, and, if `same` is asked, its body has one reason at all of them: the one
    // that it has while the row is unknown.
    pub(crate) fn settled_before(&self, b: Bindings, q: &Quantified, same: bool) -> bool
        requires { ReadyRun self.now.rule.now self.now.pool.words.now b q.now 0 0 }
        ensures { Settles self.now.rule.now self.now.pool.words.now b q.now same result }
    {
        if !is_wide(&self.pool, b, q.over) {
            return false;
        }
        self.sure(b.bind(0), q.body, settled(q.by), same, 1)
    }
}
