//! What every loaded application keeps to. The contracts are the laws.
#![tactic(auto)]

mod reuse;
mod sites;
mod texts;

pub use reuse::loaded_applications_can_be_reused;
pub use sites::updates_of_loaded_applications_are_apart;
pub use texts::loaded_types_see_what_they_read;
