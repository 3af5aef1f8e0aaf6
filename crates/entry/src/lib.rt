// The C interface: include/gabzeril.h says each function's promise in plain words.
#![tactic(auto)]

ghost use Rattle.std.specs.Prelude.{◌≡◌, length};
ghost use Rattle.tables.specs.Rules.{check_rule};
ghost use Rattle.tables.specs.Tables.{check_table};
ghost use Rattle.tables.specs.Joining.{join_answer, join_pool};
ghost use Rattle.sets.specs.Sets.{check_set};
ghost use Rattle.templates.specs.Templates.{fill_answer, fill_out};
ghost use Rattle.folding.specs.Folding.{fold_answer, fold_out};
ghost use Rattle.archive.specs.Archive.{to_columns_answer, to_columns_out, from_columns_answer, from_columns_out};
ghost use Rattle.tables.specs.Files.{read_rule, read_rule_out, read_pool, read_pool_out, write_rule, write_rule_out, write_pool, write_pool_out};
ghost use Rattle.logic.specs.Verdict.{verdict_answer, set_verdicts_answer, set_verdicts_out};
ghost use Rattle.logic.specs.Marks.{marks_answer, marks_out};
ghost use Rattle.logic.specs.Parts.{part_answer, part_out, set_part_answer, set_part_out};
ghost use Rattle.logic.specs.Trial.{trial_answer, TableLeft, verdicts_out};
ghost use Rattle.checker.specs.Files.{files_answer, returned};
ghost use Rattle.checker.specs.Report.{report_length, report_out};
ghost use Rattle.entry.specs.Interface.{answered, spanned};

use plans::Trial;
use tables::Answer;

#[repr(C)]
#[derive(Clone, Copy)]
pub struct CAnswer {
    pub number: u32,
    pub place: usize,
    pub value: usize,
}

#[repr(C)]
#[derive(Clone, Copy)]
pub struct CSpan {
    pub start: usize,
    pub length: usize,
}

impl From<Answer> for CAnswer {
    ghost from_gives = { λ answer c. c ≡ answered answer };

    fn from(answer: Answer) -> CAnswer {
        match answer {
            Ok(value) => CAnswer {
                number: 0,
                place: 0,
                value,
            },
            Err(refusal) => CAnswer {
                number: refusal.fault.number(),
                place: refusal.place,
                value: 0,
            },
        }
    }
}

#[unsafe(no_mangle)]
pub extern "C" fn gabzeril_check_rule(rule: &[u32]) -> CAnswer
    ensures { result ≡ answered (check_rule rule.now) }
{
    tables::check_rule(rule).into()
}

#[unsafe(no_mangle)]
pub extern "C" fn gabzeril_fill(template: &[u32], parameters: &[u32], rule: &mut [u32]) -> CAnswer
    ensures answer { result ≡ answered (fill_answer template.now parameters.now (length rule.old)) }
    ensures words { rule.new ≡ fill_out template.now parameters.now rule.old }
{
    templates::fill(template, parameters, rule).into()
}

#[unsafe(no_mangle)]
pub extern "C" fn gabzeril_check_table(table: &[u32]) -> CAnswer
    ensures { result ≡ answered (check_table table.now) }
{
    tables::check_table(table).into()
}

#[unsafe(no_mangle)]
pub extern "C" fn gabzeril_join(pool: &mut [u32], used: usize, second: &[u32]) -> CAnswer
    ensures answer { result ≡ answered (join_answer pool.old used second.now) }
    ensures words { pool.new ≡ join_pool pool.old used second.now }
{
    tables::join(pool, used, second).into()
}

#[unsafe(no_mangle)]
pub extern "C" fn gabzeril_device_rows(table: &[u32], device: u32) -> CSpan
    ensures { result ≡ spanned table.now device }
{
    let s = tables::device_span(table, device);
    CSpan {
        start: s.start,
        length: s.end - s.start,
    }
}

#[unsafe(no_mangle)]
pub extern "C" fn gabzeril_fold(table: &[u32], folded: &mut [u32]) -> CAnswer
    ensures answer { result ≡ answered (fold_answer table.now (length folded.old)) }
    ensures words { folded.new ≡ fold_out table.now folded.old }
{
    folding::fold(table, folded).into()
}

#[unsafe(no_mangle)]
pub extern "C" fn gabzeril_to_columns(table: &[u32], columns: &mut [u32]) -> CAnswer
    ensures answer { result ≡ answered (to_columns_answer table.now (length columns.old)) }
    ensures words { columns.new ≡ to_columns_out table.now columns.old }
{
    archive::to_columns(table, columns).into()
}

#[unsafe(no_mangle)]
pub extern "C" fn gabzeril_from_columns(columns: &[u32], table: &mut [u32]) -> CAnswer
    ensures answer { result ≡ answered (from_columns_answer columns.now (length table.old)) }
    ensures words { table.new ≡ from_columns_out columns.now table.old }
{
    archive::from_columns(columns, table).into()
}

#[unsafe(no_mangle)]
pub extern "C" fn gabzeril_read_rule(file: &[u8], rule: &mut [u32]) -> CAnswer
    ensures answer { result ≡ answered (read_rule file.now (length rule.old)) }
    ensures words { rule.new ≡ read_rule_out file.now rule.old }
{
    tables::read_rule(file, rule).into()
}

#[unsafe(no_mangle)]
pub extern "C" fn gabzeril_read_pool(file: &[u8], table: &mut [u32]) -> CAnswer
    ensures answer { result ≡ answered (read_pool file.now (length table.old)) }
    ensures words { table.new ≡ read_pool_out file.now table.old }
{
    tables::read_pool(file, table).into()
}

#[unsafe(no_mangle)]
pub extern "C" fn gabzeril_write_rule(rule: &[u32], file: &mut [u8]) -> CAnswer
    ensures answer { result ≡ answered (write_rule rule.now (length file.old)) }
    ensures bytes { file.new ≡ write_rule_out rule.now file.old }
{
    tables::write_rule(rule, file).into()
}

#[unsafe(no_mangle)]
pub extern "C" fn gabzeril_write_pool(table: &[u32], file: &mut [u8]) -> CAnswer
    ensures answer { result ≡ answered (write_pool table.now (length file.old)) }
    ensures bytes { file.new ≡ write_pool_out table.now file.old }
{
    tables::write_pool(table, file).into()
}

#[unsafe(no_mangle)]
pub extern "C" fn gabzeril_verdict(rule: &[u32], pool: &[u32]) -> CAnswer
    ensures { result ≡ answered (verdict_answer rule.now pool.now) }
{
    engine::verdict(rule, pool).into()
}

#[unsafe(no_mangle)]
pub extern "C" fn gabzeril_marks(rule: &[u32], pool: &[u32], marks: &mut [u8]) -> CAnswer
    ensures answer { result ≡ answered (marks_answer rule.now pool.now (length marks.old)) }
    ensures bytes { marks.new ≡ marks_out rule.now pool.now marks.old }
{
    engine::marks(rule, pool, marks).into()
}

#[unsafe(no_mangle)]
pub extern "C" fn gabzeril_part(rule: &[u32], table: &[u32], mode: u32, part: &mut [u32]) -> CAnswer
    ensures answer { result ≡ answered (part_answer rule.now table.now mode (length part.old)) }
    ensures words { part.new ≡ part_out rule.now table.now mode part.old }
{
    parts::part(rule, table, mode, part).into()
}

#[unsafe(no_mangle)]
pub extern "C" fn gabzeril_check_set(rules: &[u32], counts: &[u32]) -> CAnswer
    ensures { result ≡ answered (check_set rules.now counts.now) }
{
    sets::check_set(rules, counts).into()
}

#[unsafe(no_mangle)]
pub extern "C" fn gabzeril_set_verdicts(
    rules: &[u32],
    counts: &[u32],
    pool: &[u32],
    verdicts: &mut [u8],
) -> CAnswer
    ensures answer { result ≡ answered (set_verdicts_answer rules.now counts.now pool.now (length verdicts.old)) }
    ensures bytes { verdicts.new ≡ set_verdicts_out rules.now counts.now pool.now verdicts.old }
{
    engine::set_verdicts(rules, counts, pool, verdicts).into()
}

#[unsafe(no_mangle)]
pub extern "C" fn gabzeril_set_part(
    rules: &[u32],
    counts: &[u32],
    table: &[u32],
    mode: u32,
    part: &mut [u32],
) -> CAnswer
    ensures answer { result ≡ answered (set_part_answer rules.now counts.now table.now mode (length part.old)) }
    ensures words { part.new ≡ set_part_out rules.now counts.now table.now mode part.old }
{
    parts::set_part(rules, counts, table, mode, part).into()
}

#[unsafe(no_mangle)]
pub extern "C" fn gabzeril_try(
    rules: &[u32],
    counts: &[u32],
    pool: &[u32],
    steps: &[u32],
    table: &mut [u32],
    verdicts: &mut [u8],
) -> Trial
    ensures trial { result ≡ trial_answer rules.now counts.now pool.now steps.now (length table.old) (length verdicts.old) }
    ensures table { TableLeft rules.now counts.now pool.now steps.now (length verdicts.old) table.old table.new }
    ensures verdicts { verdicts.new ≡ verdicts_out rules.now counts.now pool.now steps.now (length table.old) verdicts.old }
{
    engine::try_plan(rules, counts, pool, steps, table, verdicts)
}

#[unsafe(no_mangle)]
pub extern "C" fn gabzeril_check_files(rule: &[u8], pool: &[u8]) -> u32
    ensures { result ≡ returned (files_answer rule.now pool.now) }
{
    checker::check_files(rule, pool)
}

#[unsafe(no_mangle)]
pub extern "C" fn gabzeril_report(rule: &[u8], pool: &[u8], text: &mut [u8]) -> usize
    ensures count { result ≡ report_length rule.now pool.now (length text.old) }
    ensures bytes { text.new ≡ report_out rule.now pool.now text.old }
{
    checker::report(rule, pool, text)
}
