// Sets of rules laid end to end, with a list of their entry counts: the counts are checked, then rule by rule.
#![tactic(auto)]

ghost use Rattle.std.specs.Prelude.{◌≡◌, ◌≤◌, length, sum};
ghost use Rattle.sets.specs.Sets.{set_limit, counts_fit, check_set};

mod rules;

pub use rules::{RuleSet, SetRules};
use tables::{Answer, ENTRY_WORDS, Fault, Refusal, check_rule};

// A set is up to so many rules.
pub const SET_LIMIT: usize = 32;

// The counts added up. In 64 bits: so few counts of 32 bits can't wrap there.
fn total(counts: &[u32]) -> u64
    requires { length counts.now ≤ set_limit }
    ensures { result ≡ sum counts.now }
{
    counts.iter().map(|count| u64::from(*count)).sum()
}

// Whether there are counts, not too many, and they add up to the entries.
#[tactic(auto, using(crate::proofs::EachRule::counted))]
fn counts_fit(rules: &[u32], counts: &[u32]) -> bool
    ensures { result ≡ counts_fit rules.now counts.now }
{
    if counts.is_empty() || SET_LIMIT < counts.len() {
        return false;
    }
    let entries = rules.len() / ENTRY_WORDS;
    (rules.len() % ENTRY_WORDS == 0) & (total(counts) == entries as u64)
}

// The checks of a set: the number of rules, or the first refusal, its place counted from the first entry of the set.
pub fn check_set(rules: &[u32], counts: &[u32]) -> Answer
    ensures { result ≡ check_set rules.now counts.now }
{
    if !counts_fit(rules, counts) {
        return Err(Refusal::of(Fault::Counts));
    }
    let mut before = 0;
    for rule in (SetRules { rules, counts }) {
        match check_rule(rule) {
            Ok(entries) => before += entries,
            Err(Refusal { fault, place }) => {
                return Err(Refusal {
                    fault,
                    place: before + place,
                });
            }
        }
    }
    Ok(counts.len())
}
