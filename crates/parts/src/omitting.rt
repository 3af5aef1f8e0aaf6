// Whether a row is left out by itself: for the branch part since no quantifier reaches it, for the full part since it is spare; for a
// rule, and for each rule of a set.
ghost use Rattle.std.specs.Prelude.{◌≡◌, ◌<◌};
ghost use Rattle.base.specs.Lists.{all};
ghost use Rattle.tables.specs.Words.{row_at, row_count, rows};
ghost use Rattle.logic.specs.Formulas.{formula_at, formulas_of};
ghost use Rattle.parts.specs.Modes.{word_of};
ghost use Rattle.parts.specs.Reaching.{chain_of};
ghost use Rattle.parts.specs.Omitting.{lets_out, ReadyBody, depth_of, omitted_at, ReadyOmit, omitted};

use super::chains::{Binders, climb};
use super::device::reads;
use super::modes::Mode;
use super::question::{Device, Question};
use engine::Bindings;
use sets::RuleSet;
use tables::{Node, Quantifier, entry_at, node_of};

// Whether a quantifier with that body lets a row be left out, given how it reaches the row.
fn lets_out(
    q: &Question<'_>,
    chain: Option<Bindings>,
    by: Quantifier,
    body: usize,
    mode: Mode,
) -> bool
    requires { ReadyBody q.now.rule.now q.now.device.table.now chain body }
    ensures { result ≡ all (lets_out (word_of mode) by (formula_at q.now.rule.now body) (rows q.now.device.table.now) (depth_of chain)) (chain_of q.now.device.table.now chain) }
{
    let Some(b) = chain else {
        return true;
    };
    if mode == Mode::Branch {
        return false;
    }
    reads(q, b, body, by == Quantifier::Every)
}

// Whether all quantifiers of an entry let a row be left out.
pub(crate) fn omits(q: &Question<'_>, around: Binders, entry: usize, row: usize, mode: Mode) -> bool
    requires { ReadyOmit q.now.rule.now q.now.device.table.now around entry row }
    ensures { result ≡ omitted_at (word_of mode) q.now.rule.now q.now.device.table.now around entry row }
{
    match node_of(entry_at(q.rule, entry)) {
        Node::Not { body } => omits(q, around, body, row, mode),
        Node::Connective { left, right, .. } => {
            omits(q, around, left, row, mode) && omits(q, around, right, row, mode)
        }
        Node::Quantifier { by, body, .. } => {
            let chain = climb(q, around, around.depth as usize, entry, row);
            lets_out(q, chain, by, body, mode) && omits(q, around.with(entry), body, row, mode)
        }
        Node::Comparison { .. } => true,
    }
}

// Whether each rule of a set lets a row be left out: the first that needs it decides.
pub(crate) fn omits_each(set: &RuleSet<'_>, device: &Device<'_>, row: usize, mode: Mode) -> bool
    requires { row < row_count device.now.table.now }
    ensures { result ≡ omitted (word_of mode) (formulas_of set.now.rules.now set.now.counts.now) (rows device.now.table.now) (row_at device.now.table.now row) }
{
    for rule in set.iter() {
        let q = Question {
            rule,
            device: *device,
        };
        let omitted = omits(&q, Binders::none(), 0, row, mode);
        if !omitted {
            return false;
        }
    }
    true
}
