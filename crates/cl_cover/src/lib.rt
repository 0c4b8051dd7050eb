//! What expressions and display forms read, as paths: variables and slots with the fields that are taken of them.
#![tactic(auto)]

mod callees;
mod coverage;
mod expression_steps;
mod form_steps;
mod laws;
mod listed;
mod paths;
mod pending;
mod sights;
mod spec_steps;
mod spelling;
mod steps;
mod update_steps;
mod updates;
mod walk;

pub use coverage::{expression_reads, first_uncovered, reads};
pub use laws::{covered_paths_are_begun, first_uncovered_update_is_told, lists_have_what_is_read};
pub use listed::listed_paths;
pub use spelling::path_text;
pub use steps::Step;
pub use updates::{Uncovered, first_uncovered_update};
