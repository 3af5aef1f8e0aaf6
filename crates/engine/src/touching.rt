// Whether a rule has a quantifier that reaches a row. Where it has none, a change of that row leaves its verdict.
ghost use Rattle.std.specs.Prelude.{◌≡◌, true, false, ◌<◌, length};
ghost use Rattle.tables.specs.Words.{row_at, row_count, rows};
ghost use Rattle.tables.specs.Rules.{nesting_limit, accepted_rule};
ghost use Rattle.tables.specs.Tables.{accepted_table};
ghost use Rattle.logic.specs.Formulas.{formula};
ghost use Rattle.logic.specs.Parts.{reached};
ghost use Rattle.engine.specs.Ready.{Placed, NamedParent, Ready};
ghost use Rattle.engine.specs.Touching.{noted_on_way, WayUp, depth_of, Lands, Misses};

use super::bindings::Bindings;
use super::parents::parent_of;
use super::ranges::is_named;
use tables::{Node, Over, entry_at, node_of, row_at};

// The way from a row of a pool up to its root: the rows on it, by their depth.
#[derive(Clone, Copy)]
pub(crate) struct Way<'p> {
    pub pool: &'p [u32],
    pub row: usize,
    pub rows: [Option<usize>; Bindings::LIMIT],
    ghost up: { WayUp pool.now row rows },
}

// Notes a row on a way. Deeper than quantifiers nest it isn't noted: none reaches it.
fn note_on_way(rows: &mut [Option<usize>], row: usize, deep: usize)
    requires { length rows.old ≡ nesting_limit }
    ensures { rows.new ≡ noted_on_way rows.old row deep }
{
    if deep < Bindings::LIMIT {
        rows[deep] = Some(row);
    }
}

pub(crate) fn way_up(pool: &[u32], row: usize) -> Way<'_>
    requires { (accepted_table pool.now ≡ true) × (row < row_count pool.now) }
    ensures { (result.pool.now ≡ pool.now) × (result.row ≡ row) }
{
    let mut rows = [None; Bindings::LIMIT];
    let mut i = row;
    note_on_way(&mut rows, row, row_at(pool, row).deep as usize);
    while row_at(pool, i).up != 0 {
        i = parent_of(pool, i);
        note_on_way(&mut rows, i, row_at(pool, i).deep as usize);
    }
    Way { pool, row, rows }
}

// The depth of the rows that a quantifier reaches on a way, where its parent's variable has a row.
fn depth_of(pool: &[u32], b: Bindings, over: Over) -> Option<usize>
    requires placed { Placed pool.now b }
    requires parent { NamedParent over }
    ensures { result ≡ depth_of pool.now b.row over }
{
    match over {
        Over::Roots => Some(0),
        Over::Under(variable) => {
            let parent = b.row_of(variable)?;
            Some(row_at(pool, parent).deep as usize + 1)
        }
    }
}

impl Way<'_> {
    // The row on the way that a quantifier reaches, if it reaches any.
    fn reached(&self, b: Bindings, over: Over, name: u32) -> Option<usize>
        requires placed { Placed self.now.pool.now b }
        requires parent { NamedParent over }
        ensures { Lands self.now.pool.now self.now.row b.row over name result }
    {
        let deep = depth_of(self.pool, b, over)?;
        if Bindings::LIMIT <= deep {
            return None;
        }
        let row = self.rows[deep]?;
        if is_named(name, row_at(self.pool, row)) {
            return Some(row);
        }
        None
    }

    // Whether some quantifier of an entry reaches the row from which the way goes up. Each variable is bound to the row on the way that
    // its quantifier reaches, or to nothing.
    fn touches(&self, rule: &[u32], b: Bindings, entry: usize) -> bool
        requires { Ready rule.now self.now.pool.now b entry }
        ensures { result ≡ false → Misses rule.now self.now.pool.now self.now.row b entry }
    {
        match node_of(entry_at(rule, entry)) {
            Node::Not { body } => self.touches(rule, b, body),
            Node::Connective { left, right, .. } => {
                self.touches(rule, b, left) || self.touches(rule, b, right)
            }
            Node::Quantifier {
                over,
                name,
                body,
                ..
            } => {
                let reached = self.reached(b, over, name);
                if reached == Some(self.row) {
                    return true;
                }
                let place = reached.map_or(0, |row| row + 1);
                self.touches(rule, b.bind(place), body)
            }
            Node::Comparison { .. } => false,
        }
    }
}

// Whether some quantifier of a rule reaches the row from which the way goes up.
pub(crate) fn reaches(rule: &[u32], way: &Way) -> bool
    requires { (accepted_rule rule.now ≡ true) × (accepted_table way.now.pool.now ≡ true) }
    ensures { result ≡ false → reached (formula rule.now) (rows way.now.pool.now) (row_at way.now.pool.now way.now.row) ≡ false }
{
    way.touches(rule, Bindings::none(), 0)
}
