//! Why the records of an update may be kept: the laws of reuse.
#![tactic(auto)]

mod laws;

pub use laws::{
    a_body_moved_is_the_body_drawn_anew, a_kept_update_ends_as_recorded, displays_are_faithful,
    faithfulness_is_told_by_the_marks, histories_name_updates_once, moved_records_stay_faithful,
    read_values_alone_matter_to_displays, reports_add_up,
    what_is_kept_costs_no_more_than_the_display, what_is_kept_is_told_by_the_marks,
};
