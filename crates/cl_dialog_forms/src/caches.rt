//! The paths that forms read as the expressions of a cache.
ghost use Rattle.std.specs.Prelude.{◌≡◌, [], IfOk, map};
ghost use Rattle.cl_syntax.specs.ExprTree.{expr_trees_of};
ghost use Rattle.cl_syntax.specs.ShapeTree.{shape_trees_of};
ghost use Rattle.cl_dialog_forms.specs.Caches.{cache_of, field_taken, is_among, is_same, once_behind, path_expression, root_expression};

use cl_application::App;
use cl_cover::reads;
use cl_syntax::{Expr, Operator, Path, RecordOperator, Root, Shape};
use cl_value::Text;
use std::alloc::{AllocError, Global};

/// The expressions of the paths that forms read, each at its first place alone.
pub(crate) fn cache_of(alloc: Global, app: &App, body: &[Shape]) -> Result<Vec<Expr>, AllocError>
    ensures { IfOk result (λ cache. expr_trees_of cache.items ≡ cache_of app.now (shape_trees_of body.now)) }
{
    let paths = reads(alloc, app, body)?;
    let once = each_once(alloc, paths.as_slice())?;
    path_expressions(alloc, once.as_slice())
}

/// The paths, each at its first place alone.
fn each_once(alloc: Global, paths: &[Path]) -> Result<Vec<Path>, AllocError>
    ensures { IfOk result (λ once. once.items ≡ once_behind [] paths.now) }
{
    let mut once = Vec::new(alloc);
    for path in paths {
        if !is_among(path, once.as_slice()) {
            once.push(path.copy(alloc)?)?;
        }
    }
    Ok(once)
}

/// Whether one of the paths is this one.
fn is_among(path: &Path, paths: &[Path]) -> bool
    ensures { result ≡ is_among path.now paths.now }
{
    paths.iter().any(|other| is_same(other, path))
}

/// Whether two paths are the same.
fn is_same(path: &Path, other: &Path) -> bool
    ensures { result ≡ is_same path.now other.now }
{
    path.is_prefix(other) && other.is_prefix(path)
}

fn path_expressions(alloc: Global, paths: &[Path]) -> Result<Vec<Expr>, AllocError>
    ensures { IfOk result (λ expressions. expressions.items ≡ map path_expression paths.now) }
{
    let mut expressions = Vec::new(alloc);
    for path in paths {
        expressions.push(path_expression(alloc, path)?)?;
    }
    Ok(expressions)
}

/// A variable or a slot, with `(get E FIELD)` for each field.
fn path_expression(alloc: Global, path: &Path) -> Result<Expr, AllocError>
    ensures { IfOk result (λ expression. expression ≡ path_expression path.now) }
{
    let mut expression = root_expression(&path.root)?;
    for field in path.fields.as_slice() {
        expression = field_taken(alloc, expression, field)?;
    }
    Ok(expression)
}

fn root_expression(root: &Root) -> Result<Expr, AllocError>
    ensures { IfOk result (λ expression. expression ≡ root_expression root.now) }
{
    match root {
        Root::Variable(name) => Ok(Expr::variable(name.copy()?)),
        Root::Slot(name) => Ok(Expr::slot(name.copy()?)),
    }
}

/// `(get E FIELD)`
fn field_taken(alloc: Global, expression: Expr, field: &Text) -> Result<Expr, AllocError>
    ensures { IfOk result (λ taken. taken ≡ field_taken expression field.now) }
{
    let mut parts = Vec::new(alloc);
    parts.push(expression)?;
    let field = RecordOperator::Get(field.copy()?);
    Ok(Expr::operation(Operator::Record(field), parts))
}
