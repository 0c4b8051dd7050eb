//! The words of the program, and the invocation that they are.
#![tactic(auto)]

mod commands;
mod invocation;
mod kinds;
mod numbers;

pub use invocation::{Invocation, read_words};
