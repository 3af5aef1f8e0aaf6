// The calls: the part that one device sends, for a rule and for a set of rules.
ghost use Rattle.std.specs.Prelude.{◌≡◌, length};
ghost use Rattle.tables.specs.Tables.{row_limit};
ghost use Rattle.tables.specs.Answers.{Done};
ghost use Rattle.logic.specs.Formulas.{formulas_of};
ghost use Rattle.logic.specs.Parts.{send_answer, send_out, part_answer, part_out, set_part_answer, set_part_out};
ghost use Rattle.parts.specs.Sending.{Marks};

use super::keeping::keep_rows;
use super::modes::Mode;
use super::sending::{count_kept, send};
use sets::RuleSet;
use tables::{Answer, Fault, ROW_LIMIT, ROW_WORDS, Refusal, check_rule, check_table, first_other};

// Marks the rows that a device sends into an output of `room` words. The answer is their number.
fn choose(set: &RuleSet<'_>, table: &[u32], mode: u32, room: usize, kept: &mut [bool]) -> Answer
    requires { length kept.old ≡ row_limit }
    ensures answer { result ≡ send_answer (Done 0) (formulas_of set.now.rules.now set.now.counts.now) table.now mode room }
    ensures marks { Marks (formulas_of set.now.rules.now set.now.counts.now) table.now mode room result kept.new }
{
    check_table(table)?;
    let Some(mode) = Mode::of(mode) else {
        return Err(Refusal::of(Fault::Mode));
    };
    let n = table.len() / ROW_WORDS;
    // Kept: the number of rows stands for no such row, as `tables::first_other` promises.
    let place = first_other(table);
    if place < n {
        return Err(Refusal {
            fault: Fault::OtherDevice,
            place,
        });
    }
    keep_rows(set, table, mode, kept);
    let count = count_kept(&kept[..n]);
    if room < ROW_WORDS * count {
        return Err(Refusal::of(Fault::ShortOutput));
    }
    Ok(count)
}

// Marks them and writes their words at the start of `out`.
fn send_chosen(set: &RuleSet<'_>, table: &[u32], mode: u32, out: &mut [u32]) -> Answer
    ensures answer { result ≡ send_answer (Done 0) (formulas_of set.now.rules.now set.now.counts.now) table.now mode (length out.old) }
    ensures words { out.new ≡ send_out (Done 0) (formulas_of set.now.rules.now set.now.counts.now) table.now mode out.old }
{
    let mut kept = [false; ROW_LIMIT];
    let count = choose(set, table, mode, out.len(), &mut kept)?;
    send(table, &kept, out);
    Ok(count)
}

// What `part` answers with that many words of room: nothing is written.
pub fn part_size(rule: &[u32], table: &[u32], mode: u32, room: usize) -> Answer
    ensures { result ≡ part_answer rule.now table.now mode room }
{
    let counts = [check_rule(rule)? as u32];
    let set = RuleSet {
        rules: rule,
        counts: &counts,
    };
    choose(&set, table, mode, room, &mut [false; ROW_LIMIT])
}

// The rows that a device with this table sends for this rule: all (mode 1), its branch part (2), its full part (3). The answer is
// their number; their words go to the start of `out`.
pub fn part(rule: &[u32], table: &[u32], mode: u32, out: &mut [u32]) -> Answer
    ensures answer { result ≡ part_answer rule.now table.now mode (length out.old) }
    ensures words { out.new ≡ part_out rule.now table.now mode out.old }
{
    // A rule is a set of one.
    // Kept: `part_size` makes it too, as a function can't hand out a set of a count that it holds itself.
    let counts = [check_rule(rule)? as u32];
    let set = RuleSet {
        rules: rule,
        counts: &counts,
    };
    send_chosen(&set, table, mode, out)
}

// The same for a set of rules.
pub fn set_part(rules: &[u32], counts: &[u32], table: &[u32], mode: u32, out: &mut [u32]) -> Answer
    ensures answer { result ≡ set_part_answer rules.now counts.now table.now mode (length out.old) }
    ensures words { out.new ≡ set_part_out rules.now counts.now table.now mode out.old }
{
    send_chosen(&RuleSet::check(rules, counts)?, table, mode, out)
}
