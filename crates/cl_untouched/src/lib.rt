//! What a display leaves as it was: the laws on places that it does not touch.
#![tactic(auto)]

mod laws;

pub use laws::{
    marks_tell_what_is_touched, untouched_places_of_a_pane_show_the_same,
    untouched_places_show_the_same, what_is_kept_agrees_with_the_old_history,
};
