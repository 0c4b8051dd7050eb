//! Command lines: their elements, the tokens that these make, and the place that is being typed. How a line is cut is our own
//! profile of the CLIM II specification's chapter on command processing.
#![tactic(auto)]

mod elements;
mod laws;
mod lines;
mod places;
mod texts;
mod tokens;

pub use elements::Element;
pub use laws::{quoted_texts_read_back, tokens_lie};
pub use lines::{Line, MAX_ELEMENTS, Pushed};
pub use places::{LineSlot, Named};
pub use texts::Characters;
pub use tokens::{Token, TokenKind};

#[cfg(test)]
mod tests;
