//! What an application text declares: types with their methods, functions, displays, command tables, commands, translators, dialogs and a frame.
#![tactic(auto)]

mod applications;
mod declarations;

pub use applications::App;
pub use declarations::{
    ArgumentDecl, ArgumentDecls, CommandDecl, Commands, ConditionDecl, DefaultDecl, DialogDecl,
    DialogDecls, DisplayDecl, Displays, FrameDecl, FunctionDecl, Functions, HostDecl, HostDecls,
    MethodDecl, Methods, PaneDecl, PaneDecls, QueryDecl, QueryDecls, SlotDecl, SlotDecls,
    TableDecls, TranslatorDecl, TranslatorDecls,
};
