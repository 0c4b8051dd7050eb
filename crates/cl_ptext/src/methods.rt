//! Bodies of predicates and of methods, which the evaluator runs.
ghost use Rattle.std.specs.Prelude.{◌≡◌, ◌∷◌, [], ℕ, Result, Some, IfOk, map};
ghost use Rattle.cl_application.specs.App.{function_named};
ghost use Rattle.cl_eval.specs.Agrees.{Comes};
ghost use Rattle.cl_eval.specs.Meaning.{call_function};
ghost use Rattle.cl_eval.specs.Scope.{variables_of};
ghost use Rattle.cl_value.specs.Data.{Data};
ghost use Rattle.cl_value.specs.Value.{data_of, parts_of};
ghost use Rattle.cl_ptext.specs.Answers.{ReadsAs};
ghost use Rattle.cl_ptext.specs.Methods.{accepted, ending, object_alone, object_in, object_of, own_meaning};

use cl_application::{App, FunctionDecl, MethodDecl};
use cl_eval::{
    Context, Env, MAX_DEPTH, Meter, OWN_BUDGET, Scope, Slots, Standpoint, Stop, evaluate,
};
use cl_outside::own_steps;
use cl_syntax::Expr;
use cl_value::{Text, Value, Values};
use std::alloc::{AllocError, Global};

// The value of an expression on a counter of its own.
#[tactic(auto, unfolding(crate::specs::Methods::own_meaning))]
fn evaluate_alone(
    alloc: Global,
    app: &App,
    slots: &Slots,
    scope: &Scope<'_>,
    body: &Expr,
) -> Result<Value, Stop>
    ensures { Comes data_of result (ending (own_meaning app.now slots.now 0 (variables_of scope.now) body.now 0 0)) }
{
    let context = Context {
        alloc,
        app,
        slots,
        budget: OWN_BUDGET,
    };
    let here = Standpoint {
        context: &context,
        scope,
        left: MAX_DEPTH,
        level: 0,
    };
    evaluate(&here, body, &mut Meter::new(), &mut own_steps())
}

// A value, and others behind it.
fn in_front(alloc: Global, value: &Value, others: &[Value]) -> Result<Vec<Value>, AllocError>
    ensures { IfOk result (λ vs. map data_of vs.items ≡ data_of value.now ∷ map data_of others.now) }
{
    let mut values = Vec::new(alloc);
    values.push(value.copy()?)?;
    for other in others {
        values.push(other.copy()?)?;
    }
    Ok(values)
}

// The value of a function's body, over the values of its arguments; it sees no slot.
fn call_alone(
    alloc: Global,
    app: &App,
    function: &FunctionDecl,
    values: &[Value],
) -> Result<Value, Stop>
    ensures { Comes data_of result (ending (call_function (own_meaning app.now []) 0 (Some function.now) (map data_of values.now) 0 0)) }
{
    if function.parameters.len() != values.len() {
        return Err(Stop::Trap(1));
    }
    let slots = Slots::new(alloc);
    let scope = Scope::Parameters(&function.parameters, &*values);
    evaluate_alone(alloc, app, &slots, &scope, &function.body)
}

/// The value of a predicate's function, given a value and the arguments of its type.
pub(crate) fn predicate_value(
    alloc: Global,
    app: &App,
    function: &[u8],
    value: &Value,
    params: &Values,
) -> Result<Value, Stop>
    ensures { Comes data_of result (ending (call_function (own_meaning app.now []) 0
        (function_named function.now app.now) (data_of value.now ∷ params.now) 0 0)) }
{
    let values = in_front(alloc, value, params.as_slice())?;
    match app.function(function) {
        Some(function) => call_alone(alloc, app, function, values.as_slice()),
        None => Err(Stop::Trap(1)),
    }
}

// The one part of a list.
fn object_alone(parts: &[Value]) -> Result<Option<Value>, Stop>
    ensures { ReadsAs result (object_alone (parts_of parts.now)) }
{
    match parts.split_first() {
        Some((object, more)) => match more.split_first() {
            Some(_) => Err(Stop::Trap(1)),
            None => Ok(Some(object.copy()?)),
        },
        None => Err(Stop::Trap(1)),
    }
}

// Null is nothing, a list of one object is that object.
fn object_in(value: Value) -> Result<Option<Value>, Stop>
    ensures { ReadsAs result (object_in (data_of value)) }
{
    match value {
        Value::Null => Ok(None),
        Value::List(parts) => object_alone(parts.as_slice()),
        _ => Err(Stop::Trap(1)),
    }
}

// What a run of an accept method answers.
fn object_of(given: Result<Value, Stop>) -> Result<Option<Value>, Stop>
    ensures { (r : Result Data ℕ) → Comes data_of given r → ReadsAs result (object_of r) }
{
    match given {
        Ok(value) => object_in(value),
        Err(stop) => Err(stop),
    }
}

// The value of a body that sees one variable.
fn evaluate_with(
    alloc: Global,
    app: &App,
    slots: &Slots,
    method: &MethodDecl,
    value: &Value,
) -> Result<Value, Stop>
    ensures { Comes data_of result (ending (own_meaning app.now slots.now 0 ((method.now.parameter, data_of value.now) ∷ []) method.now.body 0 0)) }
{
    let nothing = Env::new(alloc);
    let outer = Scope::Given(&nothing);
    let scope = Scope::Bound(&method.parameter, &*value, &outer);
    evaluate_alone(alloc, app, slots, &scope, &method.body)
}

/// What an accept method reads a text as.
pub(crate) fn accepted(
    alloc: Global,
    app: &App,
    slots: &Slots,
    method: &MethodDecl,
    text: &[u8],
) -> Result<Option<Value>, Stop>
    ensures { ReadsAs result (accepted app.now slots.now method.now text.now) }
{
    let text = Value::Text(Text::from_slice(alloc, text)?);
    object_of(evaluate_with(alloc, app, slots, method, &text))
}
