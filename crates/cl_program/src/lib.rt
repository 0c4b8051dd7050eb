//! The program as one call, over a place, a source of gestures and an output that its caller names.
#![tactic(auto)]

mod benching;
mod commands;
mod measuring;
mod running;
mod saying;
mod statuses;
mod sure_source;
mod texts;

pub use running::limits_of;
pub use saying::{say_refusal, say_uncovered};
pub use statuses::{Status, clim_main};
pub use texts::{TextRead, read_text};
