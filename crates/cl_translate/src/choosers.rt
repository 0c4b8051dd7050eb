//! What a choice is made by.
use cl_application::App;
use cl_eval::Slots;
use cl_tables::{Enabled, Tables};
use cl_translators::Translators;
use cl_value::Text;
use std::alloc::Global;

/// What a choice is made by: an application with its types, the slots, what the frame's command table sees, which commands are
/// enabled, and the translators.
#[derive(Drop)]
pub struct Chooser<'a, T> {
    pub alloc: Global,
    pub app: &'a App,
    pub types: &'a T,
    pub slots: &'a Slots,
    pub tables: &'a Tables,
    pub enabled: &'a Enabled,
    pub translators: &'a Translators,
}

/// A place of a pane: a column and a row.
#[derive(Drop)]
pub struct Point<'a> {
    pub pane: &'a Text,
    pub x: i64,
    pub y: i64,
}
