//! Evaluation of a display to the history of its pane.
#![tactic(auto)]

mod displays;
mod drawings;
mod extents;
mod figures;
mod forms;
mod histories;
mod laws;
mod parts;
mod places;
mod presentations;
mod settings;
mod siblings;
mod update_forms;
mod updates;

pub use displays::{Shown, display, trapped};
pub use drawings::{Drawing, MAX_WEIGHT};
pub use extents::{Extent, Lowest};
pub use histories::History;
pub use laws::{
    displays_add_up, extents_hold_what_is_drawn, figures_have_the_area_of_their_parts,
    figures_refuse_other_values, ids_are_taken_once_noted, limits_can_be_wider,
    margin_and_origin_are_used_by_few_forms, rooms_end_below_their_items,
    what_is_presented_is_a_member,
};
pub use parts::Part;
pub use places::Place;
pub use presentations::{check_member, present};
pub use settings::Outer;
pub use siblings::Siblings;
pub use updates::{Key, evaluate_cache, evaluate_id};
