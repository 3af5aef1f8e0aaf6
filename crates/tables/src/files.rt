// Rule and pool files.
ghost use Rattle.std.specs.Prelude.{◌≡◌, length};
ghost use Rattle.tables.specs.Files.{read_rule, read_rule_out, read_pool, read_pool_out, write_rule, write_rule_out, write_pool, write_pool_out, write_counts, write_counts_out, write_refusal, write_refusal_out};

use super::columns::{Format, Signs};
use super::entries::ENTRY_WORDS;
use super::reading::read_file;
use super::refusals::Answer;
use super::rows::ROW_WORDS;
use super::rules::check_rule;
use super::tables::check_table;
use super::writing::write_file;

// The lines of names of a rule file, of a pool file, and of the program's text.
const RULE_NAMES: [u8; 11] = *b"kind a b c\n";

const POOL_NAMES: [u8; 29] = *b"device at up deep name value\n";

const COUNT_NAMES: [u8; 31] = *b"verdict rows branch full marks\n";

const REFUSAL_NAMES: [u8; 14] = *b"refused place\n";

const RULES: Format = Format {
    columns: ENTRY_WORDS,
    signs: Signs::Constants,
};

const POOLS: Format = Format {
    columns: ROW_WORDS,
    signs: Signs::Values,
};

const COUNTS: Format = Format {
    columns: 5,
    signs: Signs::Nowhere,
};

const REFUSALS: Format = Format {
    columns: 2,
    signs: Signs::Nowhere,
};

// Reads a rule file: its number of words.
pub fn read_rule(file: &[u8], out: &mut [u32]) -> Answer
    ensures answer { result ≡ read_rule file.now (length out.old) }
    ensures words { out.new ≡ read_rule_out file.now out.old }
{
    read_file(&RULE_NAMES, RULES, file, out)
}

// Reads a pool file: its number of words.
pub fn read_pool(file: &[u8], out: &mut [u32]) -> Answer
    ensures answer { result ≡ read_pool file.now (length out.old) }
    ensures words { out.new ≡ read_pool_out file.now out.old }
{
    read_file(&POOL_NAMES, POOLS, file, out)
}

// Writes a rule's file: its number of bytes.
pub fn write_rule(rule: &[u32], out: &mut [u8]) -> Answer
    ensures answer { result ≡ write_rule rule.now (length out.old) }
    ensures bytes { out.new ≡ write_rule_out rule.now out.old }
{
    write_file(&RULE_NAMES, RULES, check_rule(rule), rule, out)
}

// Writes a pool's file: its number of bytes.
pub fn write_pool(table: &[u32], out: &mut [u8]) -> Answer
    ensures answer { result ≡ write_pool table.now (length out.old) }
    ensures bytes { out.new ≡ write_pool_out table.now out.old }
{
    write_file(&POOL_NAMES, POOLS, check_table(table), table, out)
}

// Writes the program's counts, five to a line: the number of bytes.
pub fn write_counts(words: &[u32], out: &mut [u8]) -> Answer
    ensures answer { result ≡ write_counts words.now (length out.old) }
    ensures bytes { out.new ≡ write_counts_out words.now out.old }
{
    write_file(&COUNT_NAMES, COUNTS, Ok(0), words, out)
}

// Writes the program's refusal, two words to a line: the number of bytes.
pub fn write_refusal(words: &[u32], out: &mut [u8]) -> Answer
    ensures answer { result ≡ write_refusal words.now (length out.old) }
    ensures bytes { out.new ≡ write_refusal_out words.now out.old }
{
    write_file(&REFUSAL_NAMES, REFUSALS, Ok(0), words, out)
}
