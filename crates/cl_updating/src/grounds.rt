//! What display forms are drawn over.
use crate::levels::Level;
use cl_display::Place;
use cl_eval::Types;

/// A place, and the old records of the level there.
#[derive(Drop)]
pub struct Ground<'a, 'o, 'h, T: Types> {
    pub place: Place<'a, T>,
    pub old: &'o Level<'h>,
}
