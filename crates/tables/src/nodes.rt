// What an entry is by its kind, as the engine and the parts read a rule.
ghost use Rattle.std.specs.Prelude.{◌≡◌};
ghost use Rattle.tables.specs.Nodes.{connective_kind, quantifier_kind, comparison_kind, operand_at, over_at, node_of, Parts};

use super::Entry;

#[derive(Clone, Copy, PartialEq, Eq)]
pub enum Connective {
    And,
    Or,
    Implies,
}

#[derive(Clone, Copy, PartialEq, Eq)]
pub enum Quantifier {
    Every,
    Exists,
}

#[derive(Clone, Copy, PartialEq, Eq)]
pub enum Comparison {
    Equal,
    Less,
    AtMost,
}

// What a variable is compared with.
#[derive(Clone, Copy, PartialEq, Eq)]
pub enum Operand {
    Variable(usize),
    Constant(u32),
}

// What a quantifier ranges over: roots, or the rows whose parent is a variable's row.
#[derive(Clone, Copy, PartialEq, Eq)]
pub enum Over {
    Roots,
    Under(usize),
}

// The parts of an entry.
#[derive(Clone, Copy, PartialEq, Eq)]
pub enum Node {
    Not {
        body: usize,
    },
    Connective {
        by: Connective,
        left: usize,
        right: usize,
    },
    Quantifier {
        by: Quantifier,
        over: Over,
        name: u32,
        body: usize,
    },
    Comparison {
        by: Comparison,
        variable: usize,
        operand: Operand,
    },
}

fn connective_kind(kind: u32) -> Connective
    ensures { result ≡ connective_kind kind }
{
    match kind {
        2 => Connective::And,
        3 => Connective::Or,
        _ => Connective::Implies,
    }
}

fn quantifier_kind(kind: u32) -> Quantifier
    ensures { result ≡ quantifier_kind kind }
{
    match kind {
        5 => Quantifier::Every,
        _ => Quantifier::Exists,
    }
}

// Kind 7, 8 or 9; any other counts as 9 does.
pub fn comparison_kind(kind: u32) -> Comparison
    ensures { result ≡ comparison_kind kind }
{
    match kind {
        7 => Comparison::Equal,
        8 => Comparison::Less,
        _ => Comparison::AtMost,
    }
}

// b and c of a comparison.
fn operand_at(e: Entry) -> Operand
    ensures { result ≡ operand_at e }
{
    match e.b {
        0 => Operand::Variable(e.c as usize),
        _ => Operand::Constant(e.c),
    }
}

// b of a quantifier.
fn over_at(e: Entry) -> Over
    ensures { result ≡ over_at e }
{
    match e.b {
        0 => Over::Roots,
        under => Over::Under(under as usize - 1),
    }
}

// An entry of unknown kind, which no accepted rule has, counts as a comparison.
pub fn node_of(e: Entry) -> Node
    ensures value { result ≡ node_of e }
    ensures parts { Parts e result }
{
    match e.kind {
        1 => Node::Not { body: e.a as usize },
        2..=4 => Node::Connective {
            by: connective_kind(e.kind),
            left: e.a as usize,
            right: e.b as usize,
        },
        5..=6 => Node::Quantifier {
            by: quantifier_kind(e.kind),
            over: over_at(e),
            name: e.c,
            body: e.a as usize,
        },
        _ => Node::Comparison {
            by: comparison_kind(e.kind),
            variable: e.a as usize,
            operand: operand_at(e),
        },
    }
}
