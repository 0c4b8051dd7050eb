//! The expressions of an application text, with their exact refusals.
#![tactic(auto)]

mod bindings;
mod expressions;
mod notes;
mod readers;
mod records;
mod scopes;

pub use bindings::{Bindings, is_binding_list, parse_binding, parse_bindings};
pub use expressions::{parse_each, parse_expression, parse_slot, parse_variable};
pub use notes::Notes;
pub use readers::Reader;
pub use records::get_of;
pub use scopes::Scope;
