//! What the reader of display forms, statements and declarations does, said by a grammar. The laws stand in `laws`.
#![tactic(auto)]

mod laws;

pub use laws::{
    blamed_act_is_refused, blamed_shape_is_refused, declared_displays_have_names,
    first_blame_of_a_shape_is_told, first_blame_of_an_act_is_told,
    first_unnamed_of_a_shape_is_noted, first_unnamed_of_an_act_is_noted, read_act_is_written,
    read_acts_are_written, read_declarations_are_written, read_shape_is_written,
    read_shapes_are_written,
};
