// What an entry reads on one device's rows, with each variable bound to one of them or elsewhere. The question is always whether it reads
// a wanted value, true or false: open is neither.
ghost use Rattle.std.specs.Prelude.{◌≡◌, ◌<◌, ◌+◌, ◌≤◌};
ghost use Rattle.tables.specs.Rules.{nesting_limit};
ghost use Rattle.tables.specs.Words.{row_count};
ghost use Rattle.logic.specs.Reading as meaning;
ghost use Rattle.engine.specs.Ready.{Placed, Ready};
ghost use Rattle.parts.specs.Device.{value_at, operand_at, Bound, compared_at, reads_at, sweeps_at, ReadySweep};

use super::question::Question;
use super::ranges::{next_ranged, parent_under, row_of};
use engine::{Bindings, compare};
use tables::{
    Comparison, Connective, Node, Operand, Over, Quantifier, ROW_WORDS, entry_at, node_of, row_at,
};

// The value of a variable's row, unless it is elsewhere.
fn value_at(table: &[u32], b: Bindings, variable: usize) -> Option<u32>
    requires placed { Placed table.now b }
    requires variable { variable < nesting_limit }
    ensures { result ≡ value_at table.now b variable }
{
    let row = row_of(b, variable)?;
    Some(row_at(table, row).value)
}

fn operand_at(table: &[u32], b: Bindings, operand: Operand) -> Option<u32>
    requires placed { Placed table.now b }
    requires bound { Bound operand }
    ensures { result ≡ operand_at table.now b operand }
{
    match operand {
        Operand::Variable(variable) => value_at(table, b, variable),
        Operand::Constant(value) => Some(value),
    }
}

// A comparison that touches an elsewhere variable is open.
fn compared(
    table: &[u32],
    b: Bindings,
    by: Comparison,
    variable: usize,
    operand: Operand,
    wanted: bool,
) -> bool
    requires placed { Placed table.now b }
    requires variable { variable < nesting_limit }
    requires bound { Bound operand }
    ensures { result ≡ meaning.reads wanted (compared_at table.now b by variable operand) }
{
    let Some(left) = value_at(table, b, variable) else {
        return false;
    };
    let Some(right) = operand_at(table, b, operand) else {
        return false;
    };
    compare(by, left, right) == wanted
}

// A quantifier's body that is asked for a value over rows: all of them have to be as wanted, or one.
#[derive(Clone, Copy)]
struct Asked<'a> {
    q: &'a Question<'a>,
    b: Bindings,
    parent: Option<usize>,
    name: u32,
    body: usize,
    wanted: bool,
    all: bool,
}

// Whether an entry reads the wanted value.
#[cycle(reads_sweep)]
pub(crate) fn reads<'a>(q: &'a Question<'a>, b: Bindings, entry: usize, wanted: bool) -> bool
    requires { Ready q.now.rule.now q.now.device.table.now b entry }
    ensures { result ≡ reads_at q.now.rule.now q.now.device.table.now b entry wanted }
{
    match node_of(entry_at(q.rule, entry)) {
        Node::Not { body } => reads(q, b, body, !wanted),
        Node::Connective { by, left, right } => {
            // Both sides have to be as asked, or one; implies asks its left side for the other value.
            let both = wanted == (by == Connective::And);
            let first = reads(q, b, left, wanted == (by != Connective::Implies));
            if first != both {
                return first;
            }
            reads(q, b, right, wanted)
        }
        Node::Comparison {
            by,
            variable,
            operand,
        } => compared(q.device.table, b, by, variable, operand, wanted),
        Node::Quantifier {
            by,
            over,
            name,
            body,
        } => {
            let parent = parent_under(b, over);
            let all = wanted == (by == Quantifier::Every);
            let s = Asked {
                q,
                b,
                parent,
                name,
                body,
                wanted,
                all,
            };
            if let Some(row) = parent {
                let end = q.device.families[row].end as usize;
                return sweep(&s, row + 1, end - (row + 1));
            }
            // Its rows may be elsewhere: only its body with the variable elsewhere settles it, and only an own root decides it.
            if all {
                return reads(q, b.bind(0), body, wanted);
            }
            if let Over::Under(_) = over {
                return false;
            }
            // What settles it elsewhere does so for each own root: then none is looked at.
            if reads(q, b.bind(0), body, !wanted) {
                return false;
            }
            sweep(&s, 0, q.device.table.len() / ROW_WORDS)
        }
    }
}

// Whether those of `rows` rows from `row` on that a quantifier ranges over are as wanted, by halves of those from the first one on.
#[cycle(reads_sweep)]
fn sweep(s: &Asked<'_>, row: usize, rows: usize) -> bool
    requires { ReadySweep s.now.q.now.rule.now s.now.q.now.device.table.now s.now.b s.now.parent s.now.body row rows }
    ensures { result ≡ sweeps_at s.now.q.now.rule.now s.now.q.now.device.table.now s.now.b s.now.parent s.now.name s.now.body s.now.wanted s.now.all row rows }
{
    let q = s.q;
    let Some(before) = next_ranged(q.device.table, s.parent, s.name, row, rows) else {
        return s.all;
    };
    let first = row + before;
    let left = rows - before;
    if left == 1 {
        return reads(q, s.b.bind(first + 1), s.body, s.wanted);
    }
    let half = left / 2;
    let near = sweep(s, first, half);
    if near != s.all {
        return near;
    }
    sweep(s, first + half, left - half)
}
