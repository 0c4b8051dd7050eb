//! Values as texts: the printed form, with a text in quotes and a record behind `#`, and the plain form, as people read it.
#![tactic(auto)]

mod plain;
mod printing;

pub use plain::put_plain;
pub use printing::{put_quoted, put_value};
