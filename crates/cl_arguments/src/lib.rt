//! Arguments of specifiers, and where they come to stand through what user types inherit from.
#![tactic(auto)]

mod found;
mod kinds;
mod misfits;
mod parts;
mod probes;

pub use misfits::first_misfit;
