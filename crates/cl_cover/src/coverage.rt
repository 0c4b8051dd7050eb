//! What expressions and display forms read, and whether listed paths cover it.
ghost use Rattle.std.specs.Prelude.{◌≡◌, IfOk};
ghost use Rattle.cl_syntax.specs.ShapeTree.{shape_trees_of};
ghost use Rattle.cl_syntax.specs.Paths.{first_uncovered};
ghost use Rattle.cl_cover.specs.Walk.{expression_reads, reads_of};

use crate::expression_steps::add_steps;
use crate::form_steps::add_forms;
use crate::paths::has_prefix;
use crate::sights::Sight;
use crate::walk::paths_along;
use cl_application::App;
use cl_syntax::{Expr, Path, Shape};
use cl_table::Names;
use std::alloc::{AllocError, Global};

/// The paths that an expression reads, in the order of the text: those of what it calls stand directly behind the first call of it.
pub fn expression_reads(alloc: Global, app: &App, expr: &Expr) -> Result<Vec<Path>, AllocError>
    ensures { IfOk result (λ paths. paths.items ≡ expression_reads app.now expr.now) }
{
    let whole = Names::new(alloc);
    let mut sight = Sight::everything(alloc);
    let mut steps = Vec::new(alloc);
    add_steps(alloc, expr, &whole, &mut sight, &mut steps)?;
    paths_along(alloc, app, steps)
}

/// The paths that display forms read, in the order of the text: those of what they call stand directly behind the first call of it.
pub fn reads(alloc: Global, app: &App, forms: &[Shape]) -> Result<Vec<Path>, AllocError>
    ensures { IfOk result (λ paths. paths.items ≡ reads_of app.now (shape_trees_of forms.now)) }
{
    let mut sight = Sight::everything(alloc);
    let mut steps = Vec::new(alloc);
    add_forms(alloc, forms, &mut sight, &mut steps)?;
    paths_along(alloc, app, steps)
}

/// The first path that display forms read of which none of the listed is the path itself or a beginning of it; `None` where each has one.
pub fn first_uncovered(
    alloc: Global,
    app: &App,
    listed: &[Path],
    forms: &[Shape],
) -> Result<Option<Path>, AllocError>
    ensures { IfOk result (λ path. path ≡ first_uncovered listed.now (reads_of app.now (shape_trees_of forms.now))) }
{
    let paths = reads(alloc, app, forms)?;
    first_without(alloc, listed, paths.as_slice())
}

/// The first of the paths of which none of the listed is the path itself or a beginning of it.
fn first_without(alloc: Global, listed: &[Path], paths: &[Path]) -> Result<Option<Path>, AllocError>
    ensures { IfOk result (λ path. path ≡ first_uncovered listed.now paths.now) }
{
    for path in paths {
        if !has_prefix(listed, path) {
            return Ok(Some(path.copy(alloc)?));
        }
    }
    Ok(None)
}
