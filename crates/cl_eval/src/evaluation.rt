//! Evaluation of expressions, form by form.
ghost use Rattle.std.specs.Prelude.{◌≡◌, ◌+◌, ◌<◌, ◌^◌, []};
ghost use Rattle.cl_value.specs.Value.{data_of};
ghost use Rattle.cl_syntax.specs.ExprTree.{expr_trees_of};
ghost use Rattle.cl_eval.specs.Meaning.{each, every, parts_of_list, parts, some, truth_of};
ghost use Rattle.cl_eval.specs.Calculation.{truth_of_parts};
ghost use Rattle.cl_eval.specs.Standpoint.{lower, seen_from};
ghost use Rattle.cl_eval.specs.Agrees.{Agrees, itself, items_are};

use crate::bindings::evaluate_let;
use crate::calculation::evaluate_comparison;
use crate::calls::{evaluate_call, evaluate_operation};
use crate::metering::{Meter, Stop};
use crate::operators::{elements, find_value, truth};
use crate::slot_table::Slots;
use crate::traversal::{evaluate_filter, evaluate_fold, evaluate_map};
use crate::variables::Scope;
use cl_application::App;
use cl_outside::{Ledger, Steps};
use cl_syntax::{Expr, ExprKind, Operator};
use cl_value::{Value, Values};
use std::alloc::Global;

/// What an expression is evaluated in: the application, the slots, and how many forms may be entered in all.
#[derive(Drop)]
pub struct Context<'a> {
    pub alloc: Global,
    pub app: &'a App,
    pub slots: &'a Slots,
    pub budget: u64,
}

/// Where an expression is evaluated: in some context, with the variables in sight, below `level` entered forms, where `left`
/// more levels may be entered.
#[derive(Drop)]
pub struct Standpoint<'a> {
    pub context: &'a Context<'a>,
    pub scope: &'a Scope<'a>,
    pub left: u32,
    pub level: u32,
}

impl<'a> Standpoint<'a> {
    /// One level further down.
    #[inline(always)]
    pub fn below(&self) -> Standpoint<'a>
        requires left { 0 < self.now.left }
        requires level { self.now.level + self.now.left < 2 ^ 32 }
        ensures { result ≡ lower self.now }
    {
        Standpoint {
            left: self.left - 1,
            level: self.level + 1,
            ..*self
        }
    }
}

/// The value of an expression.
#[cycle(evaluate)]
pub fn evaluate<L: Ledger>(
    here: &Standpoint<'_>,
    expr: &Expr,
    meter: &mut Meter,
    steps: &mut Steps<L>,
) -> Result<Value, Stop>
    requires { here.now.level + here.now.left < 2 ^ 32 }
    ensures meaning { Agrees data_of result meter.new
        (seen_from here.now itself expr.now meter.old.cost meter.old.deepest) }
    ensures ledger { steps.new + meter.old.cost ≡ steps.old + meter.new.cost }
{
    meter.enter(here.left, here.context.budget, here.level, steps)?;
    let inner = here.below();
    evaluate_parts(&inner, expr, meter, steps)
}

/// The value of a form that was entered.
#[cycle(evaluate)]
#[inline(never)]
pub fn evaluate_parts<L: Ledger>(
    here: &Standpoint<'_>,
    expr: &Expr,
    meter: &mut Meter,
    steps: &mut Steps<L>,
) -> Result<Value, Stop>
    requires { here.now.level + here.now.left < 2 ^ 32 }
    ensures meaning { Agrees data_of result meter.new
        (seen_from here.now (parts here.now.context.now.app.now here.now.context.now.slots.now)
        expr.now meter.old.cost meter.old.deepest) }
    ensures ledger { steps.new + meter.old.cost ≡ steps.old + meter.new.cost }
{
    match &expr.kind {
        ExprKind::Constant(value) => Ok(value.copy()?),
        ExprKind::Variable(name) => find_value(here.scope.get(name.as_slice())),
        ExprKind::Slot(name) => find_value(here.context.slots.get(name.as_slice())),
        ExprKind::If(choice) => {
            if evaluate_test(here, &choice.test, meter, steps)? {
                evaluate(here, &choice.then, meter, steps)
            } else {
                evaluate(here, &choice.other, meter, steps)
            }
        }
        ExprKind::Let(bindings, body) => evaluate_let(here, bindings, body, meter, steps),
        ExprKind::And(parts) => evaluate_every(here, parts, meter, steps),
        ExprKind::Or(parts) => evaluate_some(here, parts, meter, steps),
        ExprKind::Map(each) => evaluate_map(here, each, meter, steps),
        ExprKind::Filter(each) => evaluate_filter(here, each, meter, steps),
        ExprKind::Fold(fold) => evaluate_fold(here, fold, meter, steps),
        ExprKind::Operation(operator, parts) => {
            evaluate_operation(here, operator, parts, meter, steps)
        }
        ExprKind::Call(name, parts) => evaluate_call(here, name, parts, meter, steps),
    }
}

/// Whether an expression is true.
#[cycle(evaluate)]
pub fn evaluate_test<L: Ledger>(
    here: &Standpoint<'_>,
    expr: &Expr,
    meter: &mut Meter,
    steps: &mut Steps<L>,
) -> Result<bool, Stop>
    requires { here.now.level + here.now.left < 2 ^ 32 }
    ensures meaning { Agrees itself result meter.new
        (seen_from here.now truth_of expr.now meter.old.cost meter.old.deepest) }
    ensures ledger { steps.new + meter.old.cost ≡ steps.old + meter.new.cost }
{
    meter.enter(here.left, here.context.budget, here.level, steps)?;
    let inner = here.below();
    evaluate_test_parts(&inner, expr, meter, steps)
}

// Whether a form that was entered is true. A comparison makes no value.
#[cycle(evaluate)]
fn evaluate_test_parts<L: Ledger>(
    here: &Standpoint<'_>,
    expr: &Expr,
    meter: &mut Meter,
    steps: &mut Steps<L>,
) -> Result<bool, Stop>
    requires { here.now.level + here.now.left < 2 ^ 32 }
    ensures meaning { Agrees itself result meter.new
        (seen_from here.now (truth_of_parts here.now.context.now.app.now here.now.context.now.slots.now)
        expr.now meter.old.cost meter.old.deepest) }
    ensures ledger { steps.new + meter.old.cost ≡ steps.old + meter.new.cost }
{
    match &expr.kind {
        ExprKind::Operation(Operator::Comparison(operator), parts) => {
            evaluate_comparison(here, *operator, parts, meter, steps)
        }
        _ => {
            let value = evaluate_parts(here, expr, meter, steps)?;
            truth(&value)
        }
    }
}

/// The list that an expression gives.
#[cycle(evaluate)]
pub fn evaluate_list<L: Ledger>(
    here: &Standpoint<'_>,
    expr: &Expr,
    meter: &mut Meter,
    steps: &mut Steps<L>,
) -> Result<Values, Stop>
    requires { here.now.level + here.now.left < 2 ^ 32 }
    ensures meaning { Agrees itself result meter.new
        (seen_from here.now parts_of_list expr.now meter.old.cost meter.old.deepest) }
    ensures ledger { steps.new + meter.old.cost ≡ steps.old + meter.new.cost }
{
    let value = evaluate(here, expr, meter, steps)?;
    elements(value)
}

/// The values of parts, in order.
#[cycle(evaluate)]
pub fn evaluate_each<L: Ledger>(
    here: &Standpoint<'_>,
    parts: &[Expr],
    meter: &mut Meter,
    steps: &mut Steps<L>,
) -> Result<Vec<Value>, Stop>
    requires { here.now.level + here.now.left < 2 ^ 32 }
    ensures meaning { Agrees items_are result meter.new
        (seen_from here.now each (expr_trees_of parts.now) [] meter.old.cost meter.old.deepest) }
    ensures ledger { steps.new + meter.old.cost ≡ steps.old + meter.new.cost }
{
    let mut values = Vec::new(here.context.alloc);
    for part in parts {
        let value = evaluate(here, part, meter, steps)?;
        values.push(value)?;
    }
    Ok(values)
}

// True where each part is, up to the first that is not.
#[cycle(evaluate)]
#[inline(never)]
fn evaluate_every<L: Ledger>(
    here: &Standpoint<'_>,
    parts: &[Expr],
    meter: &mut Meter,
    steps: &mut Steps<L>,
) -> Result<Value, Stop>
    requires { here.now.level + here.now.left < 2 ^ 32 }
    ensures meaning { Agrees data_of result meter.new
        (seen_from here.now every (expr_trees_of parts.now) meter.old.cost meter.old.deepest) }
    ensures ledger { steps.new + meter.old.cost ≡ steps.old + meter.new.cost }
{
    for part in parts {
        let truth = evaluate_test(here, part, meter, steps)?;
        if !truth {
            return Ok(Value::Bool(false));
        }
    }
    Ok(Value::Bool(true))
}

// False where each part is, up to the first that is not.
#[cycle(evaluate)]
#[inline(never)]
fn evaluate_some<L: Ledger>(
    here: &Standpoint<'_>,
    parts: &[Expr],
    meter: &mut Meter,
    steps: &mut Steps<L>,
) -> Result<Value, Stop>
    requires { here.now.level + here.now.left < 2 ^ 32 }
    ensures meaning { Agrees data_of result meter.new
        (seen_from here.now some (expr_trees_of parts.now) meter.old.cost meter.old.deepest) }
    ensures ledger { steps.new + meter.old.cost ≡ steps.old + meter.new.cost }
{
    for part in parts {
        let truth = evaluate_test(here, part, meter, steps)?;
        if truth {
            return Ok(Value::Bool(true));
        }
    }
    Ok(Value::Bool(false))
}
