// Templates: rules with blanks, comparisons to a parameter by its number. Filling one gives an ordinary rule.
#![tactic(auto)]

ghost use Rattle.std.specs.Prelude.{◌≡◌, ◌*◌, ◌≤◌, ◌<◌, true, cond, Some, None, length};
ghost use Rattle.std.proofs.lemmas.List.Edits.{sets};
ghost use Rattle.base.specs.Search.{found};
ghost use Rattle.tables.specs.Words.{entry_words, entry_count};
ghost use Rattle.templates.specs.Templates.{is_blank, lacks_parameter, is_used, parameters_fit, filled_entry, filled, fill_answer, fill_out, EachHasParameter};

use base::copy_at;
use tables::{
    Answer, ENTRY_WORDS, Entry, Fault, Refusal, TO_CONSTANT, TO_PARAMETER, check_template,
    entry_at, refuse_at,
};

// A template is filled with up to so many parameters.
pub const PARAMETER_LIMIT: usize = 16;

// The parameter number of a blank: b of a quantifier or connective is something else.
fn blank_number(e: Entry) -> Option<usize>
    ensures { result ≡ cond (is_blank e) (Some e.c) None }
{
    if matches!(e.kind, 7..=9) && e.b == TO_PARAMETER {
        return Some(e.c as usize);
    }
    None
}

// The first blank whose number has no parameter, where so many are given.
fn first_lacking(template: &[u32], count: usize) -> Option<usize>
    ensures { result ≡ found (lacks_parameter template.now count) (entry_count template.now) }
{
    (0..template.len() / ENTRY_WORDS).find(
        |&i| matches!(blank_number(entry_at(template, i)), Some(number) if count <= number),
    )
}

// Whether parameter p is used.
fn is_used(template: &[u32], p: usize) -> bool
    ensures { result ≡ is_used template.now p }
{
    (0..template.len() / ENTRY_WORDS).any(|i| blank_number(entry_at(template, i)) == Some(p))
}

// Whether there are not too many parameters, and each is used.
fn parameters_fit(template: &[u32], count: usize) -> bool
    ensures { result ≡ parameters_fit template.now count }
{
    count <= PARAMETER_LIMIT && (0..count).all(|p| is_used(template, p))
}

// An entry of the filled rule: the template's, but for b and c of a blank.
fn filled_entry(e: Entry, parameters: &[u32]) -> Entry
    requires { is_blank e ≡ true → e.c < length parameters.now }
    ensures { result ≡ filled_entry parameters.now e }
{
    match blank_number(e) {
        Some(number) => Entry {
            b: TO_CONSTANT,
            c: parameters[number],
            ..e
        },
        None => e,
    }
}

// Writes the filled rule.
fn put_filled(template: &[u32], parameters: &[u32], out: &mut [u32])
    requires each_has_parameter { EachHasParameter template.now (length parameters.now) }
    requires template_len { (length template.now ≡ entry_words * entry_count template.now) × (length template.now ≤ length out.old) }
    ensures { out.new ≡ sets out.old 0 (filled template.now parameters.now) }
{
    for i in 0..template.len() / ENTRY_WORDS {
        let e = filled_entry(entry_at(template, i), parameters);
        copy_at(out, ENTRY_WORDS * i, &[e.kind, e.a, e.b, e.c]);
    }
}

// All refusals, where the output has so much room: the number of the filled rule's words.
fn check_filling(template: &[u32], parameters: &[u32], room: usize) -> Answer
    ensures { result ≡ fill_answer template.now parameters.now room }
{
    check_template(template)?;
    refuse_at(Fault::Blank, first_lacking(template, parameters.len()))?;
    if !parameters_fit(template, parameters.len()) {
        return Err(Refusal::of(Fault::Parameters));
    }
    if room < template.len() {
        return Err(Refusal::of(Fault::ShortOutput));
    }
    Ok(template.len())
}

// Fills a template with parameters: the filled rule's words go to the start of `out`; their number, or the refusal.
pub fn fill(template: &[u32], parameters: &[u32], out: &mut [u32]) -> Answer
    ensures answer { result ≡ fill_answer template.now parameters.now (length out.old) }
    ensures words { out.new ≡ fill_out template.now parameters.now out.old }
{
    let words = check_filling(template, parameters, out.len())?;
    put_filled(template, parameters, out);
    Ok(words)
}
