// Rules and tables as lent runs of words: when they are accepted, joining, one device's rows, files.
#![tactic(auto)]

mod columns;
mod devices;
mod entries;
mod files;
mod hashes;
mod joining;
mod links;
mod nodes;
mod parents;
mod reading;
mod refusals;
mod rows;
mod rules;
mod tables;
mod twins;
mod writing;

pub use devices::{Span, device_rows, device_span, first_other};
pub use entries::{A, ANY_NAME, B, C, ENTRY_WORDS, KIND, TO_CONSTANT, TO_PARAMETER, entry_at};
pub use files::{read_pool, read_rule, write_counts, write_pool, write_refusal, write_rule};
pub use hashes::HASHES;
pub use joining::join;
pub use links::Chains;
pub use nodes::{
    Comparison, Connective, Node, Operand, Over, Quantifier, comparison_kind, node_of,
};
pub use refusals::{Answer, Fault, Refusal, refuse_at, value_of};
pub use rows::{
    AT, DEEP, DEVICE, NAME, ROW_WORDS, UP, VALUE, VALUE_LIMIT, columns_of, is_above, is_parent,
    is_twin, row_at,
};
pub use rules::{ENTRY_LIMIT, NESTING_LIMIT, RULE_WORDS, check_rule, check_template};
pub use tables::{ROW_LIMIT, TABLE_WORDS, check_order, check_table};
pub use twins::twin_hash;

// A row of a table.
#[derive(Clone, Copy)]
pub struct Row {
    pub device: u32,
    pub at: u32,
    pub up: u32,
    pub deep: u32,
    pub name: u32,
    pub value: u32,
}

// An entry of a rule.
#[derive(Clone, Copy)]
pub struct Entry {
    pub kind: u32,
    pub a: u32,
    pub b: u32,
    pub c: u32,
}
