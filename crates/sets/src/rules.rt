// The rules of a set, one after the other.
ghost use Rattle.std.specs.Prelude.{◌≡◌, ◌*◌, ◌≤◌, true, length, IfOk, IfErr, Err};
ghost use Rattle.std.specs.Iterator.{YieldsFirstRef, item_count};
ghost use Rattle.tables.specs.Words.{entry_words};
ghost use Rattle.sets.specs.Sets.{set_limit, entries_before, rules_of, check_set, accepted_set};

use super::check_set;
use tables::{ENTRY_WORDS, Refusal};

// The rules of a set that are left: their words, and the number of entries of each.
#[derive(Clone, Copy, Drop)]
pub struct SetRules<'a> {
    pub rules: &'a [u32],
    pub counts: &'a [u32],
    pub ghost there: { entry_words * entries_before counts.now (length counts.now) ≤ length rules.now },
}

impl<'a> Iterator for SetRules<'a> {
    type Item = &'a [u32];

    ghost next_gives = { YieldsFirstRef (λ s. rules_of s.rules.now s.counts.now) };

    ghost remaining = { item_count (λ s. rules_of s.rules.now s.counts.now) };

    #[tactic(auto, using(crate::proofs::EachRule::rules_more, crate::proofs::EachRule::before_more), unfolding(crate::specs::Sets::rules_from))]
    fn next(&mut self) -> Option<&'a [u32]> {
        let (count, counts) = self.counts.split_first()?;
        let (rule, rules) = self.rules.split_at(ENTRY_WORDS * *count as usize);
        *self = SetRules { rules, counts };
        Some(rule)
    }
}

// A set that its checks accept.
#[derive(Clone, Copy, Drop)]
pub struct RuleSet<'a> {
    pub rules: &'a [u32],
    pub counts: &'a [u32],
    pub ghost accepted: { accepted_set rules.now counts.now ≡ true },
}

impl<'a> RuleSet<'a> {
    // The set, if its checks find no fault.
    pub fn check(rules: &'a [u32], counts: &'a [u32]) -> Result<Self, Refusal>
        ensures accepted { IfOk result (λ set. (set.rules.now ≡ rules.now) × (set.counts.now ≡ counts.now)) }
        ensures refused { IfErr result (λ refusal. check_set rules.now counts.now ≡ Err refusal) }
    {
        check_set(rules, counts)?;
        Ok(RuleSet { rules, counts })
    }

    // The number of its rules.
    #[tactic(auto, using(crate::proofs::Sets::accepted_few))]
    pub fn len(&self) -> usize
        ensures { (result ≡ length self.now.counts.now) × (result ≤ set_limit) }
    {
        self.counts.len()
    }

    // Its rules, one after the other.
    #[tactic(auto, using(crate::proofs::Sets::accepted_there))]
    pub fn iter(&self) -> SetRules<'a>
        ensures { (result.rules.now ≡ self.now.rules.now) × (result.counts.now ≡ self.now.counts.now) }
    {
        SetRules {
            rules: self.rules,
            counts: self.counts,
        }
    }
}
