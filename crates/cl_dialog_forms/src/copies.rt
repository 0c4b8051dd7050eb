//! Copies of expressions.
ghost use Rattle.std.specs.Prelude.{◌≡◌, IfOk};

use cl_syntax::{Binding, Expr, ExprKind, Operator, RecordOperator};
use std::alloc::{AllocError, Global};

/// The same expression.
#[cycle(copied)]
pub(crate) fn copied(alloc: Global, expr: &Expr) -> Result<Expr, AllocError>
    ensures { IfOk result (λ copy. copy ≡ expr.now) }
{
    match &expr.kind {
        ExprKind::Constant(value) => Ok(Expr::constant(value.copy()?)),
        ExprKind::Variable(name) => Ok(Expr::variable(name.copy()?)),
        ExprKind::Slot(name) => Ok(Expr::slot(name.copy()?)),
        ExprKind::If(choice) => {
            let test = copied(alloc, &choice.test)?;
            let then = copied(alloc, &choice.then)?;
            Expr::choice(alloc, test, then, copied(alloc, &choice.other)?)
        }
        ExprKind::Let(bindings, body) => {
            let bindings = copied_bindings(alloc, bindings)?;
            Expr::bind(alloc, bindings, copied(alloc, body)?)
        }
        ExprKind::And(parts) => Ok(Expr::every(copied_parts(alloc, parts)?)),
        ExprKind::Or(parts) => Ok(Expr::some(copied_parts(alloc, parts)?)),
        ExprKind::Map(each) => {
            let list = copied(alloc, &each.list)?;
            let body = copied(alloc, &each.body)?;
            Expr::map(alloc, each.name.copy()?, list, body)
        }
        ExprKind::Filter(each) => {
            let list = copied(alloc, &each.list)?;
            let body = copied(alloc, &each.body)?;
            Expr::filter(alloc, each.name.copy()?, list, body)
        }
        ExprKind::Fold(fold) => {
            let list = copied(alloc, &fold.list)?;
            let opening = copied(alloc, &fold.opening)?;
            let body = copied(alloc, &fold.body)?;
            let accumulator = fold.accumulator.copy()?;
            Expr::fold(alloc, fold.name.copy()?, list, accumulator, opening, body)
        }
        ExprKind::Operation(operator, parts) => {
            let parts = copied_parts(alloc, parts)?;
            Ok(Expr::operation(copied_operator(operator)?, parts))
        }
        ExprKind::Call(name, parts) => {
            let parts = copied_parts(alloc, parts)?;
            Ok(Expr::call(name.copy()?, parts))
        }
    }
}

/// The same parts.
#[cycle(copied)]
#[tactic(auto, using(crate::proofs::CopyLemmas::part_nodes))]
fn copied_parts(alloc: Global, parts: &[Expr]) -> Result<Vec<Expr>, AllocError>
    ensures { IfOk result (λ copies. copies.items ≡ parts.now) }
{
    let mut copies = Vec::new(alloc);
    for part in parts {
        copies.push(copied(alloc, part)?)?;
    }
    Ok(copies)
}

/// The same bindings.
#[cycle(copied)]
#[tactic(auto, using(crate::proofs::CopyLemmas::binding_nodes))]
fn copied_bindings(alloc: Global, bindings: &[Binding]) -> Result<Vec<Binding>, AllocError>
    ensures { IfOk result (λ copies. copies.items ≡ bindings.now) }
{
    let mut copies = Vec::new(alloc);
    for binding in bindings {
        copies.push(Binding {
            name: binding.name.copy()?,
            value: copied(alloc, &binding.value)?,
        })?;
    }
    Ok(copies)
}

/// The same operator.
fn copied_operator(operator: &Operator) -> Result<Operator, AllocError>
    ensures { IfOk result (λ copy. copy ≡ operator.now) }
{
    Ok(match operator {
        Operator::Arithmetic(arithmetic) => Operator::Arithmetic(*arithmetic),
        Operator::Comparison(comparison) => Operator::Comparison(*comparison),
        Operator::List(list) => Operator::List(*list),
        Operator::Text(text) => Operator::Text(*text),
        Operator::Record(record) => Operator::Record(match record {
            RecordOperator::Make(name) => RecordOperator::Make(name.copy()?),
            RecordOperator::Get(field) => RecordOperator::Get(field.copy()?),
            RecordOperator::With(field) => RecordOperator::With(field.copy()?),
        }),
        Operator::Not => Operator::Not,
        Operator::Equal => Operator::Equal,
        Operator::Length => Operator::Length,
        Operator::IsNull => Operator::IsNull,
    })
}
