//! The words of the application language, and what the outermost forms of a text declare under its
//! names.
#![tactic(auto)]

mod arguments;
mod gathering;
mod heads;
mod operators;
mod signatures;
mod type_names;

pub use arguments::first_symbols;
pub use gathering::signatures_of;
pub use heads::{
    Change, Control, Head, Planned, Setting, Special, Writing, figure_count, head_named,
    is_operator,
};
pub use operators::count_of;
pub use signatures::{
    Callee, CalleeKind, CommandHead, DialogHead, PaneHead, Signatures, SlotHead, TableHead,
    TypeHead, TypeKind, is_global_table,
};
pub use type_names::is_standard_type;
