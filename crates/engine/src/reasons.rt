// Marks the reason of an entry with its verdict.
ghost use Rattle.std.specs.Prelude.{◌≡◌, ℕ, ◌+◌, ◌<◌, ◌≤◌, true, cond, length, get_or, set};
ghost use Rattle.base.specs.Lists.{any, select};
ghost use Rattle.base.specs.Search.{first, some};
ghost use Rattle.tables.specs.Words.{entry_at, entry_count, row_count, rows_from};
ghost use Rattle.tables.specs.Rules.{nesting_limit, accepted_rule};
ghost use Rattle.tables.specs.Tables.{accepted_table};
ghost use Rattle.logic.specs.Verdict.{settled};
ghost use Rattle.engine.specs.Ready.{Placed, NamedOther, NamedParent, ranges_by, Covers, Ready, ReadyRun, verdict_at, verdict_by};
ghost use Rattle.engine.specs.Marked.{Under, mark_in, mark_at, mark_compared, MarkedWhole, reason_at, reason_by, decides_by};

use super::bindings::Bindings;
use super::connectives::{left_decides, settled, side, undecided};
use super::pool::{Question, Run};
use super::ranges::{Quantified, next_ranged, ranges, run_of};
use tables::{Node, Operand, Over, entry_at, node_of};

// Marks the row of a variable, if it has one.
fn mark(b: Bindings, variable: usize, out: &mut [u8])
    requires inside { variable < nesting_limit }
    requires by_index { (v : ℕ) → get_or b.row v 0 ≤ length out.old }
    ensures { out.new ≡ mark_at (get_or b.row variable 0) out.old }
{
    if let Some(row) = b.row_of(variable) {
        out[row] = 1;
    }
}

// Marks the row or rows of a comparison's variables.
fn mark_compared(b: Bindings, variable: usize, operand: Operand, out: &mut [u8])
    requires inside { variable < nesting_limit }
    requires named { NamedOther operand }
    requires by_index { (v : ℕ) → get_or b.row v 0 ≤ length out.old }
    ensures { out.new ≡ mark_compared b variable operand out.old }
{
    mark(b, variable, out);
    if let Operand::Variable(other) = operand {
        mark(b, other, out);
    }
}

// Marks those rows of a run that a quantifier ranges over, and tells whether there are any.
fn mark_ranged(pool: &[u32], b: Bindings, q: &Quantified, run: Run, out: &mut [u8]) -> bool
    requires placed { Placed pool.now b }
    requires parent { NamedParent q.now.over }
    requires accepted { accepted_table pool.now ≡ true }
    requires rows_bound { (run.start + run.rows ≤ row_count pool.now) × (row_count pool.now ≤ length out.old) }
    ensures value { result ≡ any (ranges_by pool.now b q.now) (rows_from pool.now run.start run.rows) }
    ensures out_after { out.new ≡ mark_in pool.now (select (ranges_by pool.now b q.now) (rows_from pool.now run.start run.rows)) out.old }
{
    let mut found = false;
    for i in 0..run.rows {
        if ranges(pool, b, q, run.start + i) {
            out[run.start + i] = 1;
            found = true;
        }
    }
    found
}

// Whether a quantifier ranges over any row, and what is marked whole: a name whose roots are all marked.
#[derive(Clone, Copy)]
pub(crate) struct Whole {
    pub found: bool,
    pub whole: Option<u32>,
}

// Marks what `mark_ranged` does and tells what is then marked whole. Roots of the name that is marked whole aren't looked at again.
fn mark_whole(
    pool: &[u32],
    b: Bindings,
    q: &Quantified,
    run: Run,
    whole: Option<u32>,
    out: &mut [u8],
) -> Whole
    requires placed { Placed pool.now b }
    requires parent { NamedParent q.now.over }
    requires accepted { accepted_table pool.now ≡ true }
    requires pool_in_bounds { row_count pool.now ≤ length out.old }
    requires covers { Covers pool.now b q.now run.start run.rows }
    requires marked_whole { MarkedWhole pool.now whole out.old }
    ensures found_value { result.found ≡ any (ranges_by pool.now b q.now) (rows_from pool.now run.start run.rows) }
    ensures out_after { out.new ≡ mark_in pool.now (select (ranges_by pool.now b q.now) (rows_from pool.now run.start run.rows)) out.old }
    ensures marked_whole_2 { MarkedWhole pool.now result.whole out.new }
{
    match q.over {
        Over::Roots => {
            if whole == Some(q.name) {
                return Whole { found: true, whole };
            }
            let found = mark_ranged(pool, b, q, run, out);
            Whole {
                found,
                whole: if found { Some(q.name) } else { whole },
            }
        }
        Over::Under(_) => {
            let found = mark_ranged(pool, b, q, run, out);
            Whole { found, whole }
        }
    }
}

// An entry, and a verdict of it.
#[derive(Clone, Copy)]
pub(crate) struct Judged {
    pub entry: usize,
    pub verdict: bool,
}

// The entry under the nots that an entry begins with, and its verdict: a chain of them takes no stack.
fn past_nots(rule: &[u32], entry: usize, verdict: bool) -> Judged
    requires { (accepted_rule rule.now ≡ true) × (entry < entry_count rule.now) }
    ensures under { Under rule.now entry verdict result.entry result.verdict }
    ensures bare { (entry_at rule.now result.entry).kind ≡ 1 → ⊥ }
{
    let mut bare = Judged { entry, verdict };
    while let Node::Not { body } = node_of(entry_at(rule, bare.entry)) {
        bare = Judged {
            entry: body,
            verdict: !bare.verdict,
        };
    }
    bare
}

impl Question<'_, '_> {
    // Whether a quantifier ranges over a row and is decided there.
    fn decides(&self, b: Bindings, q: &Quantified, row: usize) -> bool
        requires { ReadyRun self.now.rule.now self.now.pool.words.now b q.now row 1 }
        ensures { result ≡ decides_by self.now.rule.now self.now.pool.words.now b q.now row }
    {
        if !ranges(self.pool.words, b, q, row) {
            return false;
        }
        self.holds(b.bind(row + 1), q.body) != settled(q.by)
    }

    // The first row of a run that decides: one does.
    fn first_deciding(&self, b: Bindings, q: &Quantified, run: Run) -> usize
        requires ready { ReadyRun self.now.rule.now self.now.pool.words.now b q.now run.start run.rows }
        requires decided { some (λ (j : ℕ). decides_by self.now.rule.now self.now.pool.words.now b q.now (run.start + j)) run.rows ≡ true }
        ensures { result ≡ run.start + first (λ (j : ℕ). decides_by self.now.rule.now self.now.pool.words.now b q.now (run.start + j)) run.rows }
    {
        let skipped = (0..run.rows).find(|&j| self.decides(b, q, run.start + j));
        run.start + skipped.unwrap()
    }

    // Marks the reason of an entry with that verdict. What is marked whole goes in and comes back.
    #[cycle(explain_explain_rows)]
    pub(crate) fn explain(
        &self,
        b: Bindings,
        entry: usize,
        verdict: bool,
        whole: Option<u32>,
        out: &mut [u8],
    ) -> Option<u32>
        requires ready { Ready self.now.rule.now self.now.pool.words.now b entry }
        requires verdict_value { (verdict ≡ verdict_at self.now.rule.now self.now.pool.words.now b entry) × (row_count self.now.pool.words.now ≤ length out.old) }
        requires marked_whole { MarkedWhole self.now.pool.words.now whole out.old }
        ensures out_after { out.new ≡ mark_in self.now.pool.words.now (reason_at self.now.rule.now self.now.pool.words.now b entry) out.old }
        ensures marked_whole_2 { MarkedWhole self.now.pool.words.now result out.new }
    {
        let bare = past_nots(self.rule, entry, verdict);
        let verdict = bare.verdict;
        match node_of(entry_at(self.rule, bare.entry)) {
            Node::Not { .. } => unreachable!(),
            Node::Connective { by, left, right } => {
                if verdict == undecided(by) {
                    let whole = self.explain(b, left, side(by, verdict), whole, out);
                    return self.explain(b, right, verdict, whole, out);
                }
                let first = self.holds(b, left);
                if left_decides(by, first) {
                    return self.explain(b, left, first, whole, out);
                }
                self.explain(b, right, verdict, whole, out)
            }
            Node::Quantifier {
                by,
                over,
                name,
                body,
            } => {
                let q = Quantified {
                    by,
                    over,
                    name,
                    body,
                };
                let run = run_of(&self.pool, b, over);
                if verdict != settled(by) {
                    let row = self.first_deciding(b, &q, run);
                    out[row] = 1;
                    return self.explain(b.bind(row + 1), body, verdict, whole, out);
                }
                if !self.settled_before(b, &q, true) {
                    return self.explain_rows(b, &q, run, whole, out);
                }
                let all = mark_whole(self.pool.words, b, &q, run, whole, out);
                if !all.found {
                    return all.whole;
                }
                self.explain(b.bind(0), body, verdict, all.whole, out)
            }
            Node::Comparison {
                variable,
                operand,
                ..
            } => {
                mark_compared(b, variable, operand, out);
                whole
            }
        }
    }

    // Marks each row of a run that a quantifier ranges over, and its body's reason: the first of them, then those behind it, by halves.
    // None of them decides.
    // Kept: by halves, as `walk` goes: the number that falls at each call, and its laws, are the same.
    #[cycle(explain_explain_rows)]
    fn explain_rows(
        &self,
        b: Bindings,
        q: &Quantified,
        run: Run,
        whole: Option<u32>,
        out: &mut [u8],
    ) -> Option<u32>
        requires ready { ReadyRun self.now.rule.now self.now.pool.words.now b q.now run.start run.rows }
        requires verdict_value { (verdict_by self.now.rule.now self.now.pool.words.now b q.now run.start run.rows ≡ settled q.now.by) × (row_count self.now.pool.words.now ≤ length out.old) }
        requires marked_whole { MarkedWhole self.now.pool.words.now whole out.old }
        ensures out_after { out.new ≡ mark_in self.now.pool.words.now (reason_by self.now.rule.now self.now.pool.words.now b q.now run.start run.rows) out.old }
        ensures marked_whole_2 { MarkedWhole self.now.pool.words.now result out.new }
    {
        let Some(skipped) = next_ranged(self.pool.words, b, q, run) else {
            return whole;
        };
        let first = run.start + skipped;
        out[first] = 1;
        let whole = self.explain(b.bind(first + 1), q.body, settled(q.by), whole, out);
        let left = run.rows - skipped - 1;
        if left == 0 {
            return whole;
        }
        let half = left / 2;
        let near = Run {
            start: first + 1,
            rows: half,
        };
        let whole = self.explain_rows(b, q, near, whole, out);
        let far = Run {
            start: first + 1 + half,
            rows: left - half,
        };
        self.explain_rows(b, q, far, whole, out)
    }
}
