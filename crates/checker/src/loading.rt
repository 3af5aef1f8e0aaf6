// A rule or pool file read into a buffer and checked.
ghost use Rattle.std.specs.Prelude.{◌≡◌, ◌*◌, length};
ghost use Rattle.tables.specs.Words.{row_words, entry_words};
ghost use Rattle.tables.specs.Rules.{entry_limit};
ghost use Rattle.tables.specs.Tables.{row_limit};
ghost use Rattle.checker.specs.Files.{rule_of, pool_of, rule_file, pool_file};
ghost use Rattle.checker.specs.Loading.{Loaded, lines_answer};

use tables::{Answer, Fault, Refusal, check_rule, check_table, read_pool, read_rule};

// More words than the buffer has are too many lines.
fn lines_answer(read: Answer, too_many: Fault) -> Answer
    ensures { result ≡ lines_answer too_many read }
{
    match read {
        Err(refusal) if refusal.fault == Fault::ShortOutput => Err(Refusal::of(too_many)),
        other => other,
    }
}

// Loads a rule file: its number of words.
pub(crate) fn load_rule(file: &[u8], out: &mut [u32]) -> Answer
    requires { length out.old ≡ entry_limit * entry_words }
    ensures { Loaded (rule_file file.now) (rule_of file.now) result out.new }
{
    let n = lines_answer(read_rule(file, out), Fault::RuleLength)?;
    check_rule(&out[..n])?;
    Ok(n)
}

// Loads a pool file: its number of words.
pub(crate) fn load_pool(file: &[u8], out: &mut [u32]) -> Answer
    requires { length out.old ≡ row_limit * row_words }
    ensures { Loaded (pool_file file.now) (pool_of file.now) result out.new }
{
    let n = lines_answer(read_pool(file, out), Fault::TableLength)?;
    check_table(&out[..n])?;
    Ok(n)
}
