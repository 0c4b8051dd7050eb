//! The panes of an application's frame on one screen.
#![tactic(auto)]

mod frames;
mod panes;
mod reports;
mod settling;
mod states;

pub use frames::Frame;
pub use panes::{Pane, area_of};
pub use reports::{PaneReport, Report};
pub use settling::Which;
pub use states::{Filling, State};
