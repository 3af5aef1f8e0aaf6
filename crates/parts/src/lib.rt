// The part of its rows that a device sends, by the rule or the set of rules and the mode.
#![tactic(auto)]

mod calls;
mod chains;
mod device;
mod families;
mod keeping;
mod modes;
mod omitting;
mod question;
mod ranges;
mod sending;

pub use calls::{part, part_size, set_part};
