//! The evaluator of expressions and statements.
#![tactic(auto)]

mod bindings;
mod calculation;
mod calls;
mod effects;
mod evaluating;
mod evaluation;
mod execution;
mod laws;
mod lists;
mod metering;
mod numbers;
mod operators;
mod programs;
mod records;
mod slot_table;
mod texts;
mod traversal;
mod types;
mod variables;

pub use bindings::evaluate_bindings;
pub use effects::{Effects, Lines, Switches};
pub use evaluating::{Evaluated, eval};
pub use evaluation::{Context, Standpoint, evaluate, evaluate_each, evaluate_list, evaluate_test};
pub use execution::{Executed, exec};
pub use laws::{limits_can_be_wider, quotient_is_rounded_down, read_values_alone_matter};
pub use metering::{Limits, MAX_DEPTH, Meter, OWN_BUDGET, OWN_LIMITS, Stop};
pub use programs::Program;
pub use slot_table::Slots;
pub use types::Types;
pub use variables::{Env, Scope};
