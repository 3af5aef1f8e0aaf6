// The chain by which a quantifier reaches a row.
ghost use Rattle.std.specs.Prelude.{◌≡◌, ◌<◌, get_or};
ghost use Rattle.tables.specs.Rules.{entry_limit, nesting_limit};
ghost use Rattle.tables.specs.Tables.{row_limit};
ghost use Rattle.parts.specs.Reaching.{no_binders, with_binder, bound_from, ReadyClimb, Climbed};

use super::question::Question;
use engine::{Bindings, is_named};
use tables::{Node, Over, entry_at, node_of, row_at};

// The quantifiers around an entry: variable v is bound by the quantifier at entry[v], and the first `depth` variables are bound.
// Kept: an array with its depth, since memory is fixed; no type is shared with `Bindings`: these are entries of a rule, those places of a table.
#[derive(Clone, Copy)]
pub struct Binders {
    pub entry: [u16; Bindings::LIMIT],
    pub depth: u16,
}

impl Binders {
    pub(crate) fn none() -> Self
        ensures { result ≡ no_binders }
    {
        Binders {
            entry: [0; Bindings::LIMIT],
            depth: 0,
        }
    }

    // One more quantifier.
    pub(crate) fn with(mut self, entry: usize) -> Self
        requires { (self.depth < nesting_limit) × (entry < entry_limit) }
        ensures { result ≡ with_binder self entry }
    {
        let at = self.depth as usize;
        self.entry[at] = entry as u16;
        self.depth = (at + 1) as u16;
        self
    }

    // The entry of the quantifier that binds a variable.
    fn of(self, variable: usize) -> usize
        requires { variable < nesting_limit }
        ensures { result ≡ get_or self.entry variable 0 }
    {
        self.entry[variable] as usize
    }
}

// The bindings of a chain with one more variable, bound to a row.
fn bound_from(above: Bindings, variable: usize, row: usize) -> Bindings
    requires { (variable < nesting_limit) × (row < row_limit) }
    ensures { result ≡ bound_from above variable row }
{
    let below = Bindings {
        depth: variable as u16,
        ..above
    };
    below.bind(row + 1)
}

// How the quantifier at an entry, which binds that variable, reaches a row, if it does: as a root, or from the row's parent. The answer
// is the bindings along the chain.
pub(crate) fn climb(
    q: &Question<'_>,
    around: Binders,
    variable: usize,
    entry: usize,
    row: usize,
) -> Option<Bindings>
    requires { ReadyClimb q.now.rule.now q.now.device.table.now around.entry variable entry row }
    ensures { Climbed q.now.rule.now q.now.device.table.now around.entry variable entry row result }
{
    let Node::Quantifier { over, name, .. } = node_of(entry_at(q.rule, entry)) else {
        return None;
    };
    let r = row_at(q.device.table, row);
    if !is_named(name, r) {
        return None;
    }
    match over {
        Over::Roots => {
            if r.up != 0 {
                return None;
            }
            Some(bound_from(Bindings::none(), variable, row))
        }
        Over::Under(above) => {
            let parent = q.device.families[row].parent as usize;
            if parent == row {
                return None;
            }
            let chain = climb(q, around, above, around.of(above), parent)?;
            Some(bound_from(chain, variable, row))
        }
    }
}
