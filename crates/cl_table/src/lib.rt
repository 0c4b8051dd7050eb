//! Names in a row, and tables of what is declared by name.
#![tactic(auto)]

mod asked;
mod names;
mod tables;

pub use names::Names;
pub use tables::{Declared, Table};
