//! Which fault of a text is told: the first one in the order of the text, which stands in its form; and what a text has that loads.
//! The laws stand in `laws`.
#![tactic(auto)]

mod laws;

pub use laws::{
    data_stand_in_order, faults_stand_in_their_form, first_blame_of_a_text_is_its_refusal,
    first_fault_has_least_offset, first_fault_of_a_text_has_least_offset,
    first_unnamed_of_a_text_is_its_refusal, what_loads_is_declared,
};
