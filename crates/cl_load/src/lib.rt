//! The loader of application texts.
#![tactic(auto)]

mod application;
mod faults;
mod laws;
mod loading;
mod refusals;
mod rings;
mod settling;
mod types;

pub use application::Loaded;
pub use laws::one_outcome;
pub use loading::load;
pub use refusals::LoadRefusal;
