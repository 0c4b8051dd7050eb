//! The command-line parser: what the tokens of a line are read as, for the arguments of a command. The order of its answers is our own
//! profile of the CLIM II specification's chapter on command processing.
#![tactic(auto)]

mod defaults;
mod laws;
mod one;
mod parsing;

pub use defaults::{closed_value, default_value};
pub use laws::arguments_are_members;
pub use one::One;
pub use parsing::{Parsed, Parser};
