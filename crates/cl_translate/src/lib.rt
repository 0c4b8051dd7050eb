//! Which translator applies to a presentation in an input context, and which is chosen at a place, after the CLIM II specification's
//! chapter on presentation translators. The order in which they are tried is our own profile.
#![tactic(auto)]

mod applying;
mod candidates;
mod choosers;
mod choosing;
mod evaluating;
mod heads;
mod highs;
mod running;

pub use choosers::{Chooser, Point};
pub use choosing::Choice;
