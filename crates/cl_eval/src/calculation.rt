//! Arithmetic and comparisons of expressions, whose numbers are made into values only where a value is asked for.
ghost use Rattle.std.specs.Prelude.{◌≡◌, ◌+◌, ◌<◌, ◌^◌};
ghost use Rattle.cl_value.specs.Data.{bool, int};
ghost use Rattle.cl_syntax.specs.ExprTree.{expr_trees_of};
ghost use Rattle.cl_syntax.specs.declared.operators.Operator.TheVariants as row;
ghost use Rattle.cl_eval.specs.Meaning.{operation_on};
ghost use Rattle.cl_eval.specs.Calculation.{both, number_parts, give_number, give_pair};
ghost use Rattle.cl_eval.specs.Standpoint.{seen_from};
ghost use Rattle.cl_eval.specs.Agrees.{Agrees, itself};

use crate::evaluation::{Standpoint, evaluate_each, evaluate_parts};
use crate::metering::{Meter, Stop};
use crate::numbers::{calculate_pair, compare_pair, number_in, pair_in};
use crate::operators::find_number;
use cl_outside::{Ledger, Steps};
use cl_syntax::{Arithmetic, Comparison, Expr, ExprKind, Operator};

/// The arithmetic of the numbers that parts give.
#[cycle(evaluate)]
pub fn evaluate_arithmetic<L: Ledger>(
    here: &Standpoint<'_>,
    operator: Arithmetic,
    parts: &[Expr],
    meter: &mut Meter,
    steps: &mut Steps<L>,
) -> Result<i64, Stop>
    requires { here.now.level + here.now.left < 2 ^ 32 }
    ensures meaning { Agrees int result meter.new
        (seen_from here.now (operation_on here.now.context.now.app.now) (row.Arithmetic operator)
        (expr_trees_of parts.now) meter.old.cost meter.old.deepest) }
    ensures ledger { steps.new + meter.old.cost ≡ steps.old + meter.new.cost }
{
    let pair = evaluate_pair(here, parts, meter, steps)?;
    calculate_pair(operator, pair)
}

/// The comparison of the numbers that parts give.
#[cycle(evaluate)]
pub fn evaluate_comparison<L: Ledger>(
    here: &Standpoint<'_>,
    operator: Comparison,
    parts: &[Expr],
    meter: &mut Meter,
    steps: &mut Steps<L>,
) -> Result<bool, Stop>
    requires { here.now.level + here.now.left < 2 ^ 32 }
    ensures meaning { Agrees bool result meter.new
        (seen_from here.now (operation_on here.now.context.now.app.now) (row.Comparison operator)
        (expr_trees_of parts.now) meter.old.cost meter.old.deepest) }
    ensures ledger { steps.new + meter.old.cost ≡ steps.old + meter.new.cost }
{
    let pair = evaluate_pair(here, parts, meter, steps)?;
    compare_pair(operator, pair)
}

// The two numbers that parts give, where they are two and each gives one.
#[cycle(evaluate)]
#[inline(always)]
fn evaluate_pair<L: Ledger>(
    here: &Standpoint<'_>,
    parts: &[Expr],
    meter: &mut Meter,
    steps: &mut Steps<L>,
) -> Result<Option<(i64, i64)>, Stop>
    requires { here.now.level + here.now.left < 2 ^ 32 }
    ensures meaning { Agrees itself result meter.new
        (seen_from here.now give_pair (expr_trees_of parts.now) meter.old.cost meter.old.deepest) }
    ensures ledger { steps.new + meter.old.cost ≡ steps.old + meter.new.cost }
{
    match parts {
        [first, second] => {
            let first = evaluate_number(here, first, meter, steps)?;
            let second = evaluate_number(here, second, meter, steps)?;
            Ok(both(first, second))
        }
        _ => {
            let values = evaluate_each(here, parts, meter, steps)?;
            Ok(pair_in(values.as_slice()))
        }
    }
}

// The number that an expression gives, where it gives one.
#[cycle(evaluate)]
fn evaluate_number<L: Ledger>(
    here: &Standpoint<'_>,
    expr: &Expr,
    meter: &mut Meter,
    steps: &mut Steps<L>,
) -> Result<Option<i64>, Stop>
    requires { here.now.level + here.now.left < 2 ^ 32 }
    ensures meaning { Agrees itself result meter.new
        (seen_from here.now give_number expr.now meter.old.cost meter.old.deepest) }
    ensures ledger { steps.new + meter.old.cost ≡ steps.old + meter.new.cost }
{
    meter.enter(here.left, here.context.budget, here.level, steps)?;
    let inner = here.below();
    evaluate_number_parts(&inner, expr, meter, steps)
}

// The number that a form gives that was entered, where it gives one. No value is copied for it.
#[cycle(evaluate)]
#[inline(always)]
fn evaluate_number_parts<L: Ledger>(
    here: &Standpoint<'_>,
    expr: &Expr,
    meter: &mut Meter,
    steps: &mut Steps<L>,
) -> Result<Option<i64>, Stop>
    requires { here.now.level + here.now.left < 2 ^ 32 }
    ensures meaning { Agrees itself result meter.new
        (seen_from here.now (number_parts here.now.context.now.app.now here.now.context.now.slots.now)
        expr.now meter.old.cost meter.old.deepest) }
    ensures ledger { steps.new + meter.old.cost ≡ steps.old + meter.new.cost }
{
    match &expr.kind {
        ExprKind::Constant(value) => Ok(number_in(value)),
        ExprKind::Variable(name) => find_number(here.scope.get(name.as_slice())),
        ExprKind::Slot(name) => find_number(here.context.slots.get(name.as_slice())),
        ExprKind::Operation(Operator::Arithmetic(operator), parts) => {
            let number = evaluate_arithmetic(here, *operator, parts, meter, steps)?;
            Ok(Some(number))
        }
        _ => {
            let value = evaluate_parts(here, expr, meter, steps)?;
            Ok(number_in(&value))
        }
    }
}

// Both of them, where each is there.
fn both(first: Option<i64>, second: Option<i64>) -> Option<(i64, i64)>
    ensures { result ≡ both first second }
{
    match (first, second) {
        (Some(first), Some(second)) => Some((first, second)),
        _ => None,
    }
}
