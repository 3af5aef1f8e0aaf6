// The text that the program prints for a rule file and a pool file.
ghost use Rattle.std.specs.Prelude.{◌≡◌, true, cond, ◌+◌, ◌*◌, ◌≤◌, length, leb, Ok, Err};
ghost use Rattle.tables.specs.Words.{row_words, entry_words};
ghost use Rattle.tables.specs.Refusals.{number_of};
ghost use Rattle.tables.specs.declared.Fault.TheVariants.{RuleLength, TableLength};
ghost use Rattle.tables.specs.Rules.{entry_limit, accepted_rule};
ghost use Rattle.tables.specs.Tables.{row_limit, accepted_table};
ghost use Rattle.checker.specs.Files.{rule_of, pool_of, rule_file, pool_file};
ghost use Rattle.checker.specs.Loading.{Loaded};
ghost use Rattle.checker.specs.Report.{file_limit, sized, counts, counts_text, refusal_text, text_of, printed, printed_out, report_length, report_out};

use super::counting::Judged;
use super::loading::{load_pool, load_rule};
use tables::{Answer, Fault, RULE_WORDS, Refusal, TABLE_WORDS, write_counts, write_refusal};

// The longest file that the program takes, in bytes.
const FILE_LIMIT: usize = 65536;

// Refuses a file that is too long.
fn check_size(file: &[u8], fault: Fault) -> Result<(), Refusal>
    ensures { result ≡ cond (leb (length file.now) file_limit) (Ok tt) (Err (record { fault = fault; place = 0 })) }
{
    if FILE_LIMIT < file.len() {
        return Err(Refusal::of(fault));
    }
    Ok(())
}

// Loads a rule file that is not too long.
fn load_sized_rule(file: &[u8], out: &mut [u32]) -> Answer
    requires { length out.old ≡ entry_limit * entry_words }
    ensures { Loaded (sized RuleLength file.now (rule_file file.now)) (rule_of file.now) result out.new }
{
    check_size(file, Fault::RuleLength)?;
    load_rule(file, out)
}

// Loads a pool file that is not too long.
fn load_sized_pool(file: &[u8], out: &mut [u32]) -> Answer
    requires { length out.old ≡ row_limit * row_words }
    ensures { Loaded (sized TableLength file.now (pool_file file.now)) (pool_of file.now) result out.new }
{
    check_size(file, Fault::TableLength)?;
    load_pool(file, out)
}

// Writes a refusal.
fn put_refusal(refusal: Refusal, out: &mut [u8]) -> usize
    requires { refusal.place ≤ file_limit + row_limit }
    ensures count { result ≡ printed (refusal_text (number_of refusal.fault) refusal.place) (length out.old) }
    ensures bytes { out.new ≡ printed_out (refusal_text (number_of refusal.fault) refusal.place) out.old }
{
    let words = [refusal.fault.number(), refusal.place as u32];
    write_refusal(&words, out).unwrap_or(0)
}

// Writes the counts of an accepted rule on an accepted pool.
fn put_counts(rule: &[u32], pool: &[u32], out: &mut [u8]) -> usize
    requires { (accepted_rule rule.now ≡ true) × (accepted_table pool.now ≡ true) }
    ensures count { result ≡ printed (counts_text (counts rule.now pool.now)) (length out.old) }
    ensures bytes { out.new ≡ printed_out (counts_text (counts rule.now pool.now)) out.old }
{
    let words: [u32; 5] = Judged { rule, pool }.counts().into();
    write_counts(&words, out).unwrap_or(0)
}

// Writes the text of an accepted rule on a pool file.
fn report_pool(rule: &[u32], file: &[u8], out: &mut [u8]) -> usize
    requires { accepted_rule rule.now ≡ true }
    ensures count { result ≡ printed (text_of (sized TableLength file.now (pool_file file.now)) (counts rule.now (pool_of file.now))) (length out.old) }
    ensures bytes { out.new ≡ printed_out (text_of (sized TableLength file.now (pool_file file.now)) (counts rule.now (pool_of file.now))) out.old }
{
    let mut words = [0u32; TABLE_WORDS];
    match load_sized_pool(file, &mut words) {
        Ok(n) => put_counts(rule, &words[..n], out),
        Err(refusal) => put_refusal(refusal, out),
    }
}

// Writes the text: its number of bytes, 0 where it does not fit; nothing is written then.
pub fn report(rule: &[u8], pool: &[u8], out: &mut [u8]) -> usize
    ensures count { result ≡ report_length rule.now pool.now (length out.old) }
    ensures bytes { out.new ≡ report_out rule.now pool.now out.old }
{
    let mut words = [0u32; RULE_WORDS];
    match load_sized_rule(rule, &mut words) {
        Ok(n) => report_pool(&words[..n], pool, out),
        Err(refusal) => put_refusal(refusal, out),
    }
}
