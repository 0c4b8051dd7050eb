//! What a frame's command table sees: the tables it inherits from, and the names, keystrokes and commands in them.
#![tactic(auto)]

mod clearing;
mod declarations;
mod enabled;
mod groups;
mod indexes;
mod inheritance;
mod laws;
mod rings;
mod tables;
#[cfg(test)]
mod tests;
mod walk;

pub use declarations::{CommandPlace, MAX_LINE_NAME, TableDecl, names_are_short};
pub use enabled::Enabled;
pub use laws::{
    accessible_commands_stand_in_inherited_tables, inherited_tables_are_reached,
    last_switches_count, line_commands_are_longest, preorder_follows_parents,
};
pub use rings::first_on_a_ring;
pub use tables::Tables;
