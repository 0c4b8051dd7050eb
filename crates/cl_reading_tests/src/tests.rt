//! One part for each crate that is called.
mod forms;
mod gesture;
mod playing;
mod saying;
