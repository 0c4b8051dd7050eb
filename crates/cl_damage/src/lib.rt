//! What has to be painted again when new records take the place of old ones: the definition, the laws on it, and the program.
#![tactic(auto)]

mod agreeing;
mod comparing;
mod giving;
mod items;
mod keeps;
mod laws;
mod lents;
mod parts;
mod places;
mod touching;

pub use items::Recognizable;
pub use keeps::Keeps;
pub use laws::{
    children_hold_what_records_draw, equal_children_touch_nothing,
    places_that_are_not_touched_show_the_same,
};
pub use touching::touched;
