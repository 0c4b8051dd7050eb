//! A session: an application's frame between gestures, and the step by one gesture.
#![tactic(auto)]

mod accessible;
mod answers;
mod dialogs;
mod handling;
mod laws;
mod naming;
mod pointing;
mod running;
mod serving;
mod sessions;
mod speaking;
mod telling;
mod totals;
mod translators;
mod writing;

pub use accessible::{Accessible, accessible_of};
pub use answers::Replies;
pub use handling::Desk;
pub use naming::enabled_of;
pub use serving::End;
pub use sessions::Session;
pub use speaking::say_replies;
pub use totals::Totals;
