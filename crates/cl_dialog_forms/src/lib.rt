//! The display forms of dialogs: each query of a dialog with its value, and the choices to exit and to abort.
#![tactic(auto)]

mod caches;
mod copies;
mod dialog_forms;
mod displays;
mod lines;
mod names;
mod places;

pub use dialog_forms::argument_of;
pub use displays::with_dialog_displays;
pub use names::{form_name, set_name};
pub use places::declared;
