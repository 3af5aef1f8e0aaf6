// Verdict and marks of a rule on a pool, the verdicts of a set, and trying a plan.
#![tactic(auto)]

mod bindings;
mod calls;
mod certain;
mod children;
mod comparisons;
mod connectives;
mod evaluator;
mod parents;
mod pool;
mod ranges;
mod reasons;
mod touching;
mod trying;
mod verdicts;
mod words;

pub use bindings::Bindings;
pub use calls::{marks, set_verdicts, verdict};
pub use comparisons::{compare, compare_values};
pub use ranges::is_named;
pub use trying::try_plan;
