//! Questions on the texts of values and on what texts read as, with their answers, read from texts.
#![tactic(auto)]

mod answering;
mod bodies;
mod questions;
mod subjects;

pub use answering::answer_of;
pub use questions::{Question, question_in};
pub use subjects::{Subject, subject_in};

#[cfg(test)]
mod tests;
