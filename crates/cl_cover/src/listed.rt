//! The paths that expressions are.
ghost use Rattle.std.specs.Prelude.{◌≡◌, IfOk, Some};
ghost use Rattle.cl_syntax.specs.ExprTree.{expr_trees_of};
ghost use Rattle.cl_syntax.specs.ExprTree as expr;
ghost use Rattle.cl_syntax.specs.declared.operators.Operator.TheVariants as operator;
ghost use Rattle.cl_syntax.specs.declared.operators.RecordOperator.TheVariants as record_operator;
ghost use Rattle.cl_cover.specs.Listed.{path_along, paths_of};

use crate::paths::names_behind;
use cl_syntax::{Expr, ExprKind, Operator, Path, RecordOperator, Root, copy_names};
use cl_table::Names;
use cl_value::Text;
use std::alloc::{AllocError, Global};

/// The paths among expressions, in their order: a variable, `(slot NAME)` and `(get PATH FIELD)` are paths.
#[tactic(auto, using(crate::proofs::ListedLemmas::none_more))]
pub fn listed_paths(alloc: Global, exprs: &[Expr]) -> Result<Vec<Path>, AllocError>
    ensures { IfOk result (λ paths. paths.items ≡ paths_of (expr_trees_of exprs.now)) }
{
    let mut paths = Vec::new(alloc);
    for expr in exprs {
        if let Some(path) = path_along(alloc, expr, &Names::new(alloc))? {
            paths.push(path)?;
        }
    }
    Ok(paths)
}

/// The path that an expression is of which these fields are taken; `None` where it is none.
#[cycle(path_along)]
fn path_along(alloc: Global, expr: &Expr, along: &Names) -> Result<Option<Path>, AllocError>
    ensures { IfOk result (λ path. path ≡ path_along along.now expr.now) }
{
    match &expr.kind {
        ExprKind::Variable(name) => path_at(alloc, Root::Variable(name.copy()?), along),
        ExprKind::Slot(name) => path_at(alloc, Root::Slot(name.copy()?), along),
        ExprKind::Operation(Operator::Record(RecordOperator::Get(field)), parts) => {
            path_taken(alloc, field, parts, along)
        }
        _ => Ok(None),
    }
}

/// The path that `(get E FIELD)` is, by its parts.
#[cycle(path_along)]
fn path_taken(
    alloc: Global,
    field: &Text,
    parts: &[Expr],
    along: &Names,
) -> Result<Option<Path>, AllocError>
    ensures { IfOk result (λ path. path ≡ path_along along.now
        (expr.Operation (operator.Record (record_operator.Get field.now)) (expr_trees_of parts.now))) }
{
    match parts {
        [] => Ok(None),
        [part] => {
            let along = names_behind(alloc, field, along)?;
            path_along(alloc, part, &along)
        }
        [_, _, ..] => Ok(None),
    }
}

/// The path of a root and fields.
fn path_at(alloc: Global, root: Root, along: &Names) -> Result<Option<Path>, AllocError>
    ensures { IfOk result (λ path. path ≡ Some (record { root = root; fields = along.now })) }
{
    let fields = copy_names(alloc, along)?;
    Ok(Some(Path { root, fields }))
}
