//! What the display forms of dialogs keep to. The laws stand in `laws`.
#![tactic(auto)]

mod laws;

pub use laws::forms_of_dialogs_are_covered;
