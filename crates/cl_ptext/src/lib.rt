//! The texts of values by their types, and the reading of texts, after the CLIM II specification's `present` and `accept`.
#![tactic(auto)]

mod accepting;
mod books;
mod host_types;
mod hosts;
mod laws;
mod methods;
mod parts;
mod pieces;
mod presenting;
mod putting;
mod reading;
mod specifiers;
mod words;
mod writing;

pub use accepting::Accepted;
pub use books::TypeBook;
pub use host_types::HostTypes;
pub use hosts::Hosts;
pub use laws::{
    cutting_loses_nothing, objects_are_members, subtypes_are_derived, text_limits_can_be_wider,
    texts_keep_to_their_limits, texts_see_what_methods_name,
};
