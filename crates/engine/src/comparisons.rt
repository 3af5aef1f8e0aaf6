// Comparisons of values.
ghost use Rattle.std.specs.Prelude.{◌≡◌, ◌<◌};
ghost use Rattle.tables.specs.Rules.{nesting_limit};
ghost use Rattle.tables.specs.Nodes.{comparison_kind};
ghost use Rattle.tables.specs.Values.{is_less};
ghost use Rattle.logic.specs.Verdict.{compare, value_at, value_of};
ghost use Rattle.engine.specs.Ready.{Placed, meant, NamedOther, compared_by};

use super::bindings::Bindings;
use tables::{Comparison, Operand, VALUE_LIMIT, comparison_kind, row_at};

// The signed order.
fn is_less(x: u32, y: u32) -> bool
    ensures { result ≡ is_less x y }
{
    if VALUE_LIMIT < x {
        return !(VALUE_LIMIT < y) | (x < y);
    }
    !(VALUE_LIMIT < y) & (x < y)
}

// A comparison of two values, for collector and switch.
pub fn compare(by: Comparison, x: u32, y: u32) -> bool
    ensures { result ≡ compare by x y }
{
    match by {
        Comparison::Equal => x == y,
        Comparison::Less => is_less(x, y),
        Comparison::AtMost => !is_less(y, x),
    }
}

// The same by a comparison's kind, 7, 8 or 9; any other kind compares as 9 does.
pub fn compare_values(kind: u32, x: u32, y: u32) -> bool
    ensures { result ≡ compare (comparison_kind kind) x y }
{
    compare(comparison_kind(kind), x, y)
}

// The value of a variable, 0 where it has no row.
fn value(pool: &[u32], b: Bindings, variable: usize) -> u32
    requires placed { Placed pool.now b }
    requires inside { variable < nesting_limit }
    ensures { result ≡ value_at (meant pool.now b variable) }
{
    match b.row_of(variable) {
        None => 0,
        Some(row) => row_at(pool, row).value,
    }
}

// Whether a comparison holds.
pub(crate) fn compared(
    pool: &[u32],
    b: Bindings,
    by: Comparison,
    variable: usize,
    operand: Operand,
) -> bool
    requires placed { Placed pool.now b }
    requires inside { variable < nesting_limit }
    requires named { NamedOther operand }
    ensures { result ≡ compared_by pool.now b by variable operand }
{
    let right = match operand {
        Operand::Variable(other) => value(pool, b, other),
        Operand::Constant(constant) => constant,
    };
    compare(by, value(pool, b, variable), right)
}
