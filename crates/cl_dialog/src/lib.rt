//! Dialogs: the arguments of a command as a form with values that are set one at a time.
#![tactic(auto)]

mod dialogs;
mod exits;
mod openings;
mod variables;

pub use dialogs::Dialog;
pub use exits::Exit;
