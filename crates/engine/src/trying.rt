// Trying a plan: the table after each step and the verdicts on it, up to the first refused step.
ghost use Rattle.std.specs.Prelude.{◌≡◌, true, ◌+◌, ◌*◌, ◌<◌, ◌≤◌, length, take, eqb};
ghost use Rattle.std.proofs.lemmas.List.Edits.{sets};
ghost use Rattle.tables.specs.Words.{rows};
ghost use Rattle.plans.specs.Plans.{is_step, step_words};
ghost use Rattle.logic.specs.Formulas.{formulas_of};
ghost use Rattle.logic.specs.Verdict.{verdict_bytes};
ghost use Rattle.logic.specs.Trial.{begin_answer, trial_answer, TableLeft, verdicts_out};
ghost use Rattle.engine.specs.Trying.{with_row, room_answer, Changed, BeforeStep, Taken, StepEnd, Begun, Ran};

use super::calls::then_table;
use super::touching::{reaches, way_up};
use super::verdicts::write_verdicts;
use base::copy_at;
use plans::{STEP_WORDS, StepKind, Trial, apply, read_step};
use sets::{RuleSet, SET_LIMIT, check_set};
use tables::{Answer, Fault, ROW_WORDS, Refusal, TABLE_WORDS, check_table};

// Room for one row more than a table has: the table after a step may be refused with 8.
const NEXT_WORDS: usize = TABLE_WORDS + ROW_WORDS;

// The table in which a step's row stands: the one before the step that removes it, else the one after.
fn table_with_row<'a>(step: &[u32], before: &'a [u32], after: &'a [u32]) -> &'a [u32]
    requires { is_step step.now ≡ true }
    ensures { result.now ≡ with_row step.now before.now after.now }
{
    match read_step(step) {
        Some(read) if read.kind == StepKind::Remove => before,
        _ => after,
    }
}

// Brings the rules' bytes from a table to the table after a step: on the first step all are asked for, then those of the rules with a
// quantifier that reaches the step's row.
fn bring_up(
    set: &RuleSet,
    table: &[u32],
    next: &[u32],
    step: &[u32],
    row: usize,
    first: bool,
    bytes: &mut [u8],
)
    requires { Changed set.now.rules.now set.now.counts.now table.now next.now step.now row first bytes.old }
    ensures { bytes.new ≡ sets bytes.old 0 (verdict_bytes (formulas_of set.now.rules.now set.now.counts.now) (rows next.now)) }
{
    if first {
        write_verdicts(set, next, |_rule: &[u32]| true, bytes);
        return;
    }
    let seen = table_with_row(step, table, next);
    let way = way_up(seen, row);
    write_verdicts(set, next, |rule: &[u32]| reaches(rule, &way), bytes);
}

// 8 to 12 of the table after step k, and 17 for a table buffer of `room` words and a verdict buffer of `space` bytes, n for each step.
fn check_room(next: &[u32], n: usize, k: usize, room: usize, space: usize) -> Answer
    requires { n * k ≤ space }
    ensures { result ≡ room_answer n k room space next.now }
{
    if let Err(Refusal { fault, place: _ }) = check_table(next) {
        return Err(Refusal { fault, place: k });
    }
    if (room < next.len()) | (space - n * k < n) {
        return Err(Refusal {
            fault: Fault::ShortOutput,
            place: k,
        });
    }
    Ok(k)
}

// Takes step k: its verdicts go behind those of the steps before, and the table after it becomes the working table.
fn take_step(
    set: &RuleSet,
    step: &[u32],
    row: usize,
    k: usize,
    next: &[u32],
    table: &mut [u32],
    words: usize,
    bytes: &mut [u8],
    verdicts: &mut [u8],
)
    requires words_in_bounds { words ≤ length table.old }
    requires changed { Changed set.now.rules.now set.now.counts.now (take words table.old) next.now step.now row (eqb k 0) bytes.old }
    requires next_in_bounds { (length next.now ≤ length table.old) × (length set.now.counts.now * k + length set.now.counts.now ≤ length verdicts.old) }
    ensures table_after { table.new ≡ sets table.old 0 next.now }
    ensures bytes_after { bytes.new ≡ sets bytes.old 0 (verdict_bytes (formulas_of set.now.rules.now set.now.counts.now) (rows next.now)) }
    ensures verdicts_after { verdicts.new ≡ sets verdicts.old (length set.now.counts.now * k) (verdict_bytes (formulas_of set.now.rules.now set.now.counts.now) (rows next.now)) }
{
    let n = set.counts.len();
    bring_up(set, &table[..words], next, step, row, k == 0, bytes);
    copy_at(verdicts, n * k, &bytes[..n]);
    copy_at(table, 0, next);
}

// Tries step k on a working table of that many words: how many the table after it has, or the refusal. The bytes are the last step's.
fn try_step(
    set: &RuleSet,
    step: &[u32],
    k: usize,
    table: &mut [u32],
    words: usize,
    bytes: &mut [u8],
    verdicts: &mut [u8],
) -> Answer
    requires { BeforeStep set.now.rules.now set.now.counts.now k words table.old bytes.old verdicts.old }
    ensures { Taken set.now.rules.now set.now.counts.now k words step.now table.old bytes.old verdicts.old result table.new bytes.new verdicts.new }
{
    let mut next = [0u32; NEXT_WORDS];
    match apply(&table[..words], step, &mut next) {
        Err(refused) => Err(Refusal {
            fault: refused.refusal.fault,
            place: k,
        }),
        Ok(change) => {
            let after = change.words;
            let rules = set.counts.len();
            check_room(&next[..after], rules, k, table.len(), verdicts.len())?;
            take_step(
                set,
                step,
                change.row,
                k,
                &next[..after],
                table,
                words,
                bytes,
                verdicts,
            );
            Ok(after)
        }
    }
}

// Where the words of step k end: the last step may lack some.
// Kept: not `chunks(STEP_WORDS).enumerate()`, tried: the loop's proof didn't close, as the library has no lemma of what it yields k-th.
fn step_end(steps: &[u32], k: usize) -> usize
    requires { step_words * k < length steps.now }
    ensures { StepEnd steps.now k result }
{
    let start = STEP_WORDS * k;
    if steps.len() - start < STEP_WORDS {
        return steps.len();
    }
    start + STEP_WORDS
}

// Tries one step after the other on a working table of that many words.
fn run_steps(
    set: &RuleSet,
    steps: &[u32],
    table: &mut [u32],
    held: usize,
    verdicts: &mut [u8],
) -> Trial
    requires { Begun held table.old }
    ensures { Ran set.now.rules.now set.now.counts.now steps.now held table.old verdicts.old result table.new verdicts.new }
{
    let count = (steps.len() + (STEP_WORDS - 1)) / STEP_WORDS;
    let mut bytes = [0u8; SET_LIMIT];
    let mut words = held;
    for k in 0..count {
        let step = &steps[STEP_WORDS * k..step_end(steps, k)];
        match try_step(set, step, k, table, words, &mut bytes, verdicts) {
            Ok(after) => words = after,
            Err(Refusal { fault, place }) => {
                return Trial {
                    number: fault.number(),
                    place,
                    steps: k,
                    rows: words / ROW_WORDS,
                };
            }
        }
    }
    Trial {
        number: 0,
        place: 0,
        steps: count,
        rows: words / ROW_WORDS,
    }
}

// The refusals before step 0, for a table buffer of that many words.
fn begin(rules: &[u32], counts: &[u32], pool: &[u32], room: usize) -> Answer
    ensures { result ≡ begin_answer rules.now counts.now pool.now room }
{
    then_table(check_set(rules, counts), pool)?;
    if room < pool.len() {
        return Err(Refusal::of(Fault::ShortOutput));
    }
    Ok(0)
}

// Tries a plan on a pool: the working table goes to the start of `table`, a byte for each rule and step to `verdicts`. Work stops at the
// first refused step, and leaves what the steps before it left.
pub fn try_plan(
    rules: &[u32],
    counts: &[u32],
    pool: &[u32],
    steps: &[u32],
    table: &mut [u32],
    verdicts: &mut [u8],
) -> Trial
    ensures trial { result ≡ trial_answer rules.now counts.now pool.now steps.now (length table.old) (length verdicts.old) }
    ensures table { TableLeft rules.now counts.now pool.now steps.now (length verdicts.old) table.old table.new }
    ensures verdicts { verdicts.new ≡ verdicts_out rules.now counts.now pool.now steps.now (length table.old) verdicts.old }
{
    if let Err(Refusal { fault, place }) = begin(rules, counts, pool, table.len()) {
        return Trial {
            number: fault.number(),
            place,
            steps: 0,
            rows: 0,
        };
    }
    copy_at(table, 0, pool);
    run_steps(
        &RuleSet { rules, counts },
        steps,
        table,
        pool.len(),
        verdicts,
    )
}
