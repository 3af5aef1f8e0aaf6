// The verdicts of a set's rules as bytes.
ghost use Rattle.std.specs.Prelude.{◌≡◌, ℕ, true, false, ◌<◌, ◌≤◌, length, get_or};
ghost use Rattle.std.proofs.lemmas.List.Edits.{sets};
ghost use Rattle.tables.specs.Words.{rows};
ghost use Rattle.tables.specs.Rules.{accepted_rule};
ghost use Rattle.tables.specs.Tables.{accepted_table};
ghost use Rattle.sets.specs.Sets.{rule_at};
ghost use Rattle.logic.specs.Formulas.{formulas_of};
ghost use Rattle.logic.specs.Verdict.{verdict_bytes};
ghost use Rattle.engine.specs.Trying.{byte_at};

use super::bindings::Bindings;
use super::children::{Children, find_children};
use super::pool::{Pool, Question};
use sets::RuleSet;
use tables::ROW_LIMIT;

// Writes a byte for each rule that is asked for; the others are there. Neither the rules nor the pool are checked again.
pub(crate) fn write_verdicts<F: Fn(&[u32]) -> bool>(
    set: &RuleSet,
    pool: &[u32],
    is_asked: F,
    out: &mut [u8],
)
    requires pool_accepted { accepted_table pool.now ≡ true }
    requires counts_in_bounds { length set.now.counts.now ≤ length out.old }
    requires asks { (rule : _) → accepted_rule rule.now ≡ true → F.pre is_asked rule }
    requires rest_there { (i : ℕ) (rule : _) → i < length set.now.counts.now → rule.now ≡ rule_at set.now.rules.now set.now.counts.now i → F.post is_asked rule false → get_or out.old i 0 ≡ byte_at set.now.rules.now set.now.counts.now pool.now i }
    ensures { out.new ≡ sets out.old 0 (verdict_bytes (formulas_of set.now.rules.now set.now.counts.now) (rows pool.now)) }
{
    let mut children = [Children::NONE; ROW_LIMIT];
    find_children(pool, &mut children);
    let pool = Pool {
        words: pool,
        children: &children,
    };
    for (i, rule) in set.iter().enumerate() {
        if is_asked(rule) {
            out[i] = u8::from(Question { rule, pool }.holds(Bindings::none(), 0));
        }
    }
}
