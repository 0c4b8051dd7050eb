//! A run of an application in a terminal as one call, over a place, a source of keys and an output that its caller names.
#![tactic(auto)]

mod ends;
mod running;
mod saying;
mod statuses;
#[cfg(test)]
mod tests;
mod words;

pub use statuses::{Ended, live_main};
