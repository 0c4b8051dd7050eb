//! Operators over the values of their parts, and the bodies of functions.
ghost use Rattle.std.specs.Prelude.{◌≡◌, ◌+◌, ◌<◌, ◌^◌, map};
ghost use Rattle.cl_value.specs.Value.{data_of};
ghost use Rattle.cl_application.specs.App.{function_named};
ghost use Rattle.cl_syntax.specs.ExprTree as expr;
ghost use Rattle.cl_syntax.specs.ExprTree.{expr_trees_of};
ghost use Rattle.cl_eval.specs.Meaning.{call_function, operation_on, parts};
ghost use Rattle.cl_eval.specs.Standpoint.{meaning_at, seen_from};
ghost use Rattle.cl_eval.specs.Agrees.{Agrees};

use crate::calculation::{evaluate_arithmetic, evaluate_comparison};
use crate::evaluation::{Standpoint, evaluate, evaluate_each};
use crate::metering::{Meter, Stop};
use crate::operators::operate;
use crate::variables::Scope;
use cl_outside::{Ledger, Steps};
use cl_syntax::{Expr, Operator};
use cl_value::{Text, Value};

/// An operator over the values of its parts. Of one part or two, as most operators have, the values take no memory.
/// The numbers of arithmetic and of comparisons are not even made into values.
#[cycle(evaluate)]
pub fn evaluate_operation<L: Ledger>(
    here: &Standpoint<'_>,
    operator: &Operator,
    parts: &[Expr],
    meter: &mut Meter,
    steps: &mut Steps<L>,
) -> Result<Value, Stop>
    requires { here.now.level + here.now.left < 2 ^ 32 }
    ensures meaning { Agrees data_of result meter.new
        (seen_from here.now (operation_on here.now.context.now.app.now) operator.now
        (expr_trees_of parts.now) meter.old.cost meter.old.deepest) }
    ensures ledger { steps.new + meter.old.cost ≡ steps.old + meter.new.cost }
{
    match operator {
        Operator::Arithmetic(operator) => {
            let number = evaluate_arithmetic(here, *operator, parts, meter, steps)?;
            Ok(Value::Int(number))
        }
        Operator::Comparison(operator) => {
            let truth = evaluate_comparison(here, *operator, parts, meter, steps)?;
            Ok(Value::Bool(truth))
        }
        _ => evaluate_operands(here, operator, parts, meter, steps),
    }
}

// An operator over the values of its parts, each of which is made.
#[cycle(evaluate)]
#[inline(never)]
fn evaluate_operands<L: Ledger>(
    here: &Standpoint<'_>,
    operator: &Operator,
    parts: &[Expr],
    meter: &mut Meter,
    steps: &mut Steps<L>,
) -> Result<Value, Stop>
    requires { here.now.level + here.now.left < 2 ^ 32 }
    ensures meaning { Agrees data_of result meter.new
        (seen_from here.now (operation_on here.now.context.now.app.now) operator.now
        (expr_trees_of parts.now) meter.old.cost meter.old.deepest) }
    ensures ledger { steps.new + meter.old.cost ≡ steps.old + meter.new.cost }
{
    match parts {
        [only] => {
            let only = evaluate(here, only, meter, steps)?;
            operate(here.context.alloc, here.context.app, operator, &[only])
        }
        [first, second] => {
            let first = evaluate(here, first, meter, steps)?;
            let second = evaluate(here, second, meter, steps)?;
            operate(
                here.context.alloc,
                here.context.app,
                operator,
                &[first, second],
            )
        }
        _ => {
            let values = evaluate_each(here, parts, meter, steps)?;
            operate(
                here.context.alloc,
                here.context.app,
                operator,
                values.as_slice(),
            )
        }
    }
}

/// A function's body, over the values of its arguments.
#[cycle(evaluate)]
#[inline(never)]
pub fn evaluate_call<L: Ledger>(
    here: &Standpoint<'_>,
    name: &Text,
    arguments: &[Expr],
    meter: &mut Meter,
    steps: &mut Steps<L>,
) -> Result<Value, Stop>
    requires { here.now.level + here.now.left < 2 ^ 32 }
    ensures meaning { Agrees data_of result meter.new
        (seen_from here.now (parts here.now.context.now.app.now here.now.context.now.slots.now)
        (expr.Call name.now (expr_trees_of arguments.now)) meter.old.cost meter.old.deepest) }
    ensures ledger { steps.new + meter.old.cost ≡ steps.old + meter.new.cost }
{
    let values = evaluate_each(here, arguments, meter, steps)?;
    call(here, name, values.as_slice(), meter, steps)
}

// A function's body, where its parameters are all that it sees.
#[cycle(evaluate)]
fn call<L: Ledger>(
    here: &Standpoint<'_>,
    name: &Text,
    values: &[Value],
    meter: &mut Meter,
    steps: &mut Steps<L>,
) -> Result<Value, Stop>
    requires { here.now.level + here.now.left < 2 ^ 32 }
    ensures meaning { Agrees data_of result meter.new
        (call_function (meaning_at here.now) here.now.level
        (function_named name.now here.now.context.now.app.now) (map data_of values.now)
        meter.old.cost meter.old.deepest) }
    ensures ledger { steps.new + meter.old.cost ≡ steps.old + meter.new.cost }
{
    match here.context.app.function(name.as_slice()) {
        Some(function) if function.parameters.len() == values.len() => {
            let scope = Scope::Parameters(&function.parameters, &*values);
            let inner = Standpoint {
                scope: &scope,
                ..*here
            };
            evaluate(&inner, &function.body, meter, steps)
        }
        _ => Err(Stop::Trap(1)),
    }
}
