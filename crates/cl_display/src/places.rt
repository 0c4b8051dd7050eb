//! Where display forms are drawn.
use cl_eval::{Standpoint, Types};

/// The standpoint of the expressions there, the types by which objects are presented, and the most that all marks together may
/// weigh.
#[derive(Drop)]
pub struct Place<'a, T: Types> {
    pub here: Standpoint<'a>,
    pub types: &'a T,
    pub max_weight: u64,
}
