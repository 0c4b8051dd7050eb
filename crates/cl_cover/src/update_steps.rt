//! The steps of what tells an update from others.
ghost use Rattle.std.specs.Prelude.{◌≡◌, ◌++◌, OnOk};
ghost use Rattle.cl_cover.specs.Steps.{steps_cache, steps_id};

use crate::expression_steps::{add_among, add_steps};
use crate::sights::Sight;
use crate::steps::Step;
use cl_syntax::Update;
use cl_table::Names;
use std::alloc::{AllocError, Global};

/// Adds the steps of the expression of an update's id, if it is there.
pub(crate) fn add_id(
    alloc: Global,
    update: &Update,
    sight: &mut Sight,
    out: &mut Vec<Step>,
) -> Result<(), AllocError>
    ensures steps { OnOk result (out.new.items ≡ out.old.items ++ steps_id sight.old update.now.id) }
    ensures sight { OnOk result (sight.new ≡ sight.old) }
{
    match update.id() {
        Some(id) => add_steps(alloc, id, &Names::new(alloc), sight, out),
        None => Ok(()),
    }
}

/// Adds the steps of the paths of an update's cache, if it is there.
pub(crate) fn add_cache(
    alloc: Global,
    update: &Update,
    sight: &mut Sight,
    out: &mut Vec<Step>,
) -> Result<(), AllocError>
    ensures steps { OnOk result (out.new.items ≡ out.old.items ++ steps_cache sight.old update.now.cache) }
    ensures sight { OnOk result (sight.new ≡ sight.old) }
{
    match update.cache() {
        Some(paths) => add_among(alloc, paths, &Names::new(alloc), sight, out),
        None => Ok(()),
    }
}
