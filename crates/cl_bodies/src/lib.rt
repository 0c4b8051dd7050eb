//! The display forms and the statements of an application text, with their exact refusals.
#![tactic(auto)]

mod bodies;
mod display_forms;
mod languages;
mod own;
mod paths;
mod plain_forms;
mod presentations;
mod specifiers;
mod statements;
mod type_arguments;
mod type_options;
mod type_rows;
mod updates;

pub use display_forms::{parse_shape, parse_shapes};
pub use specifiers::parse_type;
pub use statements::{parse_act, parse_acts};
pub use type_options::text_behind;
