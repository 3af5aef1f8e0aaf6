// The refusals of a rule and of a template.
ghost use Rattle.std.specs.Prelude.{◌≡◌};
ghost use Rattle.tables.specs.Rules.{check_entries, check_rule, check_template};

use super::entries::{
    ENTRY_WORDS, TO_CONSTANT, TO_PARAMETER, bad_child, bad_word, entry_at, is_quantifier,
    quantifiers_around, times_named, unbound_variable, unknown_kind,
};
use super::refusals::{Answer, Fault, Refusal, refuse_at};

// A rule has 1 to so many entries.
pub const ENTRY_LIMIT: usize = 128;

// A buffer of so many words has room for any rule.
pub const RULE_WORDS: usize = ENTRY_LIMIT * ENTRY_WORDS;

// So many quantifiers stand around one another at most.
pub const NESTING_LIMIT: usize = 6;

// The checks of entries, where b of a comparison is at most `most`: the number of entries, or the first refusal.
fn check_entries(most: u32, rule: &[u32]) -> Answer
    ensures { result ≡ check_entries most rule.now }
{
    let n = rule.len() / ENTRY_WORDS;
    if rule.len() % ENTRY_WORDS != 0 || n < 1 || ENTRY_LIMIT < n {
        return Err(Refusal::of(Fault::RuleLength));
    }
    let kind = (0..n).find(|&i| unknown_kind(entry_at(rule, i)));
    refuse_at(Fault::Kind, kind)?;
    let word = (0..n).find(|&i| bad_word(most, entry_at(rule, i)));
    refuse_at(Fault::Word, word)?;
    let child = (0..n).find(|&i| bad_child(n, i, entry_at(rule, i)));
    refuse_at(Fault::Child, child)?;
    let naming = (0..n).find(|&i| 0 < i && times_named(rule, n, i) != 1);
    refuse_at(Fault::Naming, naming)?;
    let nesting = (0..n).find(|&i| is_quantifier(entry_at(rule, i))
        && NESTING_LIMIT <= quantifiers_around(rule, i));
    refuse_at(Fault::Nesting, nesting)?;
    let unbound = (0..n).find(|&i| unbound_variable(
        quantifiers_around(rule, i),
        entry_at(rule, i),
    ));
    refuse_at(Fault::Unbound, unbound)?;
    Ok(n)
}

// The checks of a rule.
pub fn check_rule(rule: &[u32]) -> Answer
    ensures { result ≡ check_rule rule.now }
{
    check_entries(TO_CONSTANT, rule)
}

// The checks of a template.
pub fn check_template(template: &[u32]) -> Answer
    ensures { result ≡ check_template template.now }
{
    check_entries(TO_PARAMETER, template)
}
