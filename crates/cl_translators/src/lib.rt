//! The translators that a frame's command table sees, by gesture and from-type, in the order in which they are tried.
#![tactic(auto)]

mod declarations;
mod groups;
mod order;
mod slots;
#[cfg(test)]
mod tests;
mod translators;

pub use declarations::{GestureName, TranslatorPlace};
pub use translators::Translators;
