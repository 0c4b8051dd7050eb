//! The slots and the calls that stand in an expression.
ghost use Rattle.std.specs.Prelude.{◌≡◌, ◌++◌, OnOk};
ghost use Rattle.cl_syntax.specs.ExprTree.{expr_trees_of};
ghost use Rattle.cl_syntax.specs.Expr.{bindings_of};
ghost use Rattle.cl_phases.specs.SlotSearch.{calls, calls_among, calls_bound, names_slot, names_slot_among, names_slot_bound};

use cl_syntax::{Binding, Expr, ExprKind};
use cl_table::Names;
use std::alloc::AllocError;

/// Whether a slot stands in the expression.
#[cycle(names_slot)]
pub fn names_slot(expr: &Expr) -> bool
    ensures { result ≡ names_slot expr.now }
{
    match &expr.kind {
        ExprKind::Constant(_) => false,
        ExprKind::Variable(_) => false,
        ExprKind::Slot(_) => true,
        ExprKind::If(choice) => {
            names_slot(&choice.test) || names_slot(&choice.then) || names_slot(&choice.other)
        }
        ExprKind::Let(bindings, body) => names_slot_bound(bindings) || names_slot(body),
        ExprKind::And(parts) => names_slot_among(parts),
        ExprKind::Or(parts) => names_slot_among(parts),
        ExprKind::Map(each) => names_slot(&each.list) || names_slot(&each.body),
        ExprKind::Filter(each) => names_slot(&each.list) || names_slot(&each.body),
        ExprKind::Fold(fold) => {
            names_slot(&fold.list) || names_slot(&fold.opening) || names_slot(&fold.body)
        }
        ExprKind::Operation(_, parts) => names_slot_among(parts),
        ExprKind::Call(_, parts) => names_slot_among(parts),
    }
}

#[cycle(names_slot)]
#[tactic(auto, using(crate::proofs::Parts::part_nodes))]
fn names_slot_among(parts: &[Expr]) -> bool
    ensures { result ≡ names_slot_among (expr_trees_of parts.now) }
{
    for part in parts {
        if names_slot(part) {
            return true;
        }
    }
    false
}

#[cycle(names_slot)]
#[tactic(auto, using(crate::proofs::Parts::binding_nodes))]
fn names_slot_bound(bindings: &[Binding]) -> bool
    ensures { result ≡ names_slot_bound (bindings_of bindings.now) }
{
    for binding in bindings {
        if names_slot(&binding.value) {
            return true;
        }
    }
    false
}

/// Adds the names of the functions that an expression calls.
#[cycle(add_calls)]
pub fn add_calls(expr: &Expr, names: &mut Names) -> Result<(), AllocError>
    ensures { OnOk result (names.new ≡ names.old ++ calls expr.now) }
{
    match &expr.kind {
        ExprKind::Constant(_) => Ok(()),
        ExprKind::Variable(_) => Ok(()),
        ExprKind::Slot(_) => Ok(()),
        ExprKind::If(choice) => {
            add_calls(&choice.test, names)?;
            add_calls(&choice.then, names)?;
            add_calls(&choice.other, names)
        }
        ExprKind::Let(bindings, body) => {
            add_calls_bound(bindings, names)?;
            add_calls(body, names)
        }
        ExprKind::And(parts) => add_calls_among(parts, names),
        ExprKind::Or(parts) => add_calls_among(parts, names),
        ExprKind::Map(each) => {
            add_calls(&each.list, names)?;
            add_calls(&each.body, names)
        }
        ExprKind::Filter(each) => {
            add_calls(&each.list, names)?;
            add_calls(&each.body, names)
        }
        ExprKind::Fold(fold) => {
            add_calls(&fold.list, names)?;
            add_calls(&fold.opening, names)?;
            add_calls(&fold.body, names)
        }
        ExprKind::Operation(_, parts) => add_calls_among(parts, names),
        ExprKind::Call(name, parts) => {
            names.push(name.copy()?)?;
            add_calls_among(parts, names)
        }
    }
}

#[cycle(add_calls)]
#[tactic(auto, using(crate::proofs::Parts::part_nodes))]
fn add_calls_among(parts: &[Expr], names: &mut Names) -> Result<(), AllocError>
    ensures { OnOk result (names.new ≡ names.old ++ calls_among (expr_trees_of parts.now)) }
{
    for part in parts {
        add_calls(part, names)?;
    }
    Ok(())
}

#[cycle(add_calls)]
#[tactic(auto, using(crate::proofs::Parts::binding_nodes))]
fn add_calls_bound(bindings: &[Binding], names: &mut Names) -> Result<(), AllocError>
    ensures { OnOk result (names.new ≡ names.old ++ calls_bound (bindings_of bindings.now)) }
{
    for binding in bindings {
        add_calls(&binding.value, names)?;
    }
    Ok(())
}
