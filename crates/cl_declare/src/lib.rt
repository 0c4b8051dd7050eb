//! What the declarations of an application text say: types and their methods, functions, displays, command
//! tables, commands, translators, dialogs and frames, with their exact refusals. Begin with `specs/Declarations.antt`.
#![tactic(auto)]

mod callees;
mod command_shapes;
mod command_tables;
mod commands;
mod declarations;
mod dialog_shapes;
mod dialogs;
mod frames;
mod in_order;
mod methods;
mod names;
mod pane_forms;
mod sections;
mod translator_forms;
mod translator_shapes;
mod translators;
mod type_shapes;
mod types;

pub use declarations::{Declarations, parse_declarations};
pub use frames::FrameForm;
pub use in_order::{FrameForms, InOrder};
pub use pane_forms::{PaneForm, PaneForms};
