//! One part for each crate that is called, and what reads the texts of some.
mod display;
mod evaluation;
mod execution;
mod phases;
mod reading;
mod saying;
