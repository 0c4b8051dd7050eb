//! Questions on types with their answers, read from texts.
#![tactic(auto)]

mod answering;
mod declarations;
mod predicates;
mod questions;
mod specifiers;
mod texts;
mod values;

pub use answering::{answer_of, types_of};
pub use declarations::Declarations;
pub use predicates::NamedPredicates;
pub use questions::{Question, question_in};
pub use specifiers::{names_in, specifier_in};
pub use texts::data_in_text;
pub use values::value_in;

#[cfg(test)]
mod tests;
