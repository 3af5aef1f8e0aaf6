// The verdict of a rule file on a pool file.
ghost use Rattle.std.specs.Prelude.{◌≡◌, ◌+◌, ◌≤◌};
ghost use Rattle.tables.specs.Answers.{and_then};
ghost use Rattle.logic.specs.Verdict.{verdict_answer};
ghost use Rattle.checker.specs.Files.{pool_of, pool_file, files_answer, returned};
ghost use Rattle.checker.specs.Loading.{largest_refusal};

use super::loading::{load_pool, load_rule};
use engine::verdict;
use tables::{Answer, RULE_WORDS, TABLE_WORDS};

// The verdict of a rule on the pool of a file, after the file's refusals.
fn check_pool(rule: &[u32], file: &[u8]) -> Answer
    ensures { result ≡ and_then (pool_file file.now) (verdict_answer rule.now (pool_of file.now)) }
{
    let mut words = [0u32; TABLE_WORDS];
    let n = load_pool(file, &mut words)?;
    verdict(rule, &words[..n])
}

// The verdict of the rule of a file on the pool of a file, or the first refusal.
fn check_both(rule: &[u8], pool: &[u8]) -> Answer
    ensures { result ≡ files_answer rule.now pool.now }
{
    let mut words = [0u32; RULE_WORDS];
    let n = load_rule(rule, &mut words)?;
    check_pool(&words[..n], pool)
}

// The number that stands for an answer.
fn returned(answer: Answer) -> u32
    requires { returned answer ≤ 100 + largest_refusal }
    ensures { result ≡ returned answer }
{
    match answer {
        Ok(n) => n as u32,
        Err(refusal) => 100 + refusal.fault.number(),
    }
}

// 0 false, 1 true, or 100 plus the refusal.
pub fn check_files(rule: &[u8], pool: &[u8]) -> u32
    ensures { result ≡ returned (files_answer rule.now pool.now) }
{
    returned(check_both(rule, pool))
}
