//! What the reader of types, declarations and texts does, said by a grammar: which form is to blame, and which name is not
//! declared. The laws stand in `laws`.
#![tactic(auto)]

mod laws;

pub use laws::{
    blamed_text_is_refused, first_blame_of_a_text_is_told, first_unnamed_of_a_text_is_noted,
};
