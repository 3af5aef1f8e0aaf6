// The calls: the verdict and the marks of a rule on a pool, and the verdicts of a set of rules.
ghost use Rattle.std.specs.Prelude.{◌≡◌, length};
ghost use Rattle.tables.specs.Answers.{and_then};
ghost use Rattle.tables.specs.Tables.{check_table};
ghost use Rattle.logic.specs.Verdict.{verdict_answer, set_verdicts_answer, set_verdicts_out};
ghost use Rattle.logic.specs.Marks.{marks_answer, marks_out};

use super::bindings::Bindings;
use super::children::{Children, find_children};
use super::pool::{Pool, Question};
use super::verdicts::write_verdicts;
use super::words::row_count;
use sets::{RuleSet, check_set};
use tables::{Answer, Fault, ROW_LIMIT, Refusal, check_rule, check_table};

// The answer of a rule's or a set's checks, then that of a table's.
pub(crate) fn then_table(checked: Answer, pool: &[u32]) -> Answer
    ensures { result ≡ and_then checked (check_table pool.now) }
{
    checked?;
    check_table(pool)
}

// The verdict of a rule on a pool: 1 true, 0 false, or the refusal.
pub fn verdict(rule: &[u32], pool: &[u32]) -> Answer
    ensures { result ≡ verdict_answer rule.now pool.now }
{
    then_table(check_rule(rule), pool)?;
    let mut children = [Children::NONE; ROW_LIMIT];
    find_children(pool, &mut children);
    let pool = Pool {
        words: pool,
        children: &children,
    };
    let question = Question { rule, pool };
    Ok(usize::from(question.holds(Bindings::none(), 0)))
}

// The marks of a rule on a pool, a byte per row, and the verdict, or the refusal.
pub fn marks(rule: &[u32], pool: &[u32], out: &mut [u8]) -> Answer
    ensures value { result ≡ marks_answer rule.now pool.now (length out.old) }
    ensures out_after { out.new ≡ marks_out rule.now pool.now out.old }
{
    then_table(check_rule(rule), pool)?;
    let n = row_count(pool);
    if out.len() < n {
        return Err(Refusal::of(Fault::ShortOutput));
    }
    out[..n].fill(0);
    let mut children = [Children::NONE; ROW_LIMIT];
    find_children(pool, &mut children);
    let pool = Pool {
        words: pool,
        children: &children,
    };
    let question = Question { rule, pool };
    let b = Bindings::none();
    let verdict = question.holds(b, 0);
    question.explain(b, 0, verdict, None, out);
    Ok(usize::from(verdict))
}

// The verdicts of a set of rules on a pool, a byte per rule, and the number of rules, or the refusal.
pub fn set_verdicts(rules: &[u32], counts: &[u32], pool: &[u32], out: &mut [u8]) -> Answer
    ensures value { result ≡ set_verdicts_answer rules.now counts.now pool.now (length out.old) }
    ensures out_after { out.new ≡ set_verdicts_out rules.now counts.now pool.now out.old }
{
    then_table(check_set(rules, counts), pool)?;
    if out.len() < counts.len() {
        return Err(Refusal::of(Fault::ShortOutput));
    }
    write_verdicts(&RuleSet { rules, counts }, pool, |_rule: &[u32]| true, out);
    Ok(counts.len())
}
