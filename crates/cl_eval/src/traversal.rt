//! A body that is evaluated for each element of a list.
ghost use Rattle.std.specs.Prelude.{◌≡◌, ◌+◌, ◌<◌, ◌^◌, [], map};
ghost use Rattle.cl_value.specs.Value.{data_of};
ghost use Rattle.cl_syntax.specs.ExprTree as expr;
ghost use Rattle.cl_eval.specs.Meaning.{filter_each, fold_each, parts};
ghost use Rattle.cl_eval.specs.Mapping.{map_in, past_limit};
ghost use Rattle.cl_eval.specs.Standpoint.{seen_from};
ghost use Rattle.cl_eval.specs.Agrees.{Agrees, itself};

use crate::evaluation::{Standpoint, evaluate, evaluate_list, evaluate_test};
use crate::lists::{add_if, add_part};
use crate::metering::{Meter, Stop};
use crate::operators::{MAX_VALUE_SIZE, elements, limit};
use crate::variables::Scope;
use cl_outside::{Ledger, Steps};
use cl_syntax::{Expr, Folding, Iteration};
use cl_value::{Text, Value, Values};

/// The list of the values of a body for each element of a list.
#[cycle(evaluate)]
#[inline(never)]
pub fn evaluate_map<L: Ledger>(
    here: &Standpoint<'_>,
    each: &Iteration,
    meter: &mut Meter,
    steps: &mut Steps<L>,
) -> Result<Value, Stop>
    requires { here.now.level + here.now.left < 2 ^ 32 }
    ensures meaning { Agrees data_of result meter.new
        (seen_from here.now (parts here.now.context.now.app.now here.now.context.now.slots.now)
        (expr.Map each.now.name each.now.list each.now.body) meter.old.cost meter.old.deepest) }
    ensures ledger { steps.new + meter.old.cost ≡ steps.old + meter.new.cost }
{
    let list = evaluate_list(here, &each.list, meter, steps)?;
    map_over(here, &each.name, list.as_slice(), &each.body, meter, steps)
}

/// The list of those elements of a list for which a body is true.
#[cycle(evaluate)]
#[inline(never)]
pub fn evaluate_filter<L: Ledger>(
    here: &Standpoint<'_>,
    each: &Iteration,
    meter: &mut Meter,
    steps: &mut Steps<L>,
) -> Result<Value, Stop>
    requires { here.now.level + here.now.left < 2 ^ 32 }
    ensures meaning { Agrees data_of result meter.new
        (seen_from here.now (parts here.now.context.now.app.now here.now.context.now.slots.now)
        (expr.Filter each.now.name each.now.list each.now.body) meter.old.cost meter.old.deepest) }
    ensures ledger { steps.new + meter.old.cost ≡ steps.old + meter.new.cost }
{
    let list = evaluate_list(here, &each.list, meter, steps)?;
    let values = filter_over(here, &each.name, list.as_slice(), &each.body, meter, steps)?;
    limit(Value::List(values))
}

/// The last value of a body that is given each element of a list with the value before.
#[cycle(evaluate)]
#[inline(never)]
pub fn evaluate_fold<L: Ledger>(
    here: &Standpoint<'_>,
    fold: &Folding,
    meter: &mut Meter,
    steps: &mut Steps<L>,
) -> Result<Value, Stop>
    requires { here.now.level + here.now.left < 2 ^ 32 }
    ensures meaning { Agrees data_of result meter.new
        (seen_from here.now (parts here.now.context.now.app.now here.now.context.now.slots.now)
        (expr.Fold fold.now.name fold.now.list fold.now.accumulator fold.now.opening
        fold.now.body) meter.old.cost meter.old.deepest) }
    ensures ledger { steps.new + meter.old.cost ≡ steps.old + meter.new.cost }
{
    let list = evaluate(here, &fold.list, meter, steps)?;
    let opening = evaluate(here, &fold.opening, meter, steps)?;
    let list = elements(list)?;
    fold_over(here, fold, list.as_slice(), opening, meter, steps)
}

// The list of the values of a body for each of these. Once their size is past the limit, no value is kept.
#[cycle(evaluate)]
fn map_over<L: Ledger>(
    here: &Standpoint<'_>,
    name: &Text,
    list: &[Value],
    body: &Expr,
    meter: &mut Meter,
    steps: &mut Steps<L>,
) -> Result<Value, Stop>
    requires { here.now.level + here.now.left < 2 ^ 32 }
    ensures meaning { Agrees data_of result meter.new
        (seen_from here.now map_in name.now body.now (map data_of list.now) meter.old.cost meter.old.deepest) }
    ensures ledger { steps.new + meter.old.cost ≡ steps.old + meter.new.cost }
{
    let mut values = Vec::new(here.context.alloc);
    let mut size: u64 = 0;
    for place in 0..list.len() {
        let scope = Scope::Bound(&*name, &list[place], &*here.scope);
        let inner = Standpoint {
            scope: &scope,
            ..*here
        };
        let value = evaluate(&inner, body, meter, steps)?;
        size = size.saturating_add(value.size());
        if size >= MAX_VALUE_SIZE {
            return pass_limit(here, name, &list[place + 1..], body, meter, steps);
        }
        add_part(&mut values, value)?;
    }
    limit(Value::List(Values::from_vec(here.context.alloc, values)?))
}

// A body for each of these, behind values whose list is past the limit of size: trap 7 in the end.
#[cycle(evaluate)]
#[inline(never)]
fn pass_limit<L: Ledger>(
    here: &Standpoint<'_>,
    name: &Text,
    list: &[Value],
    body: &Expr,
    meter: &mut Meter,
    steps: &mut Steps<L>,
) -> Result<Value, Stop>
    requires { here.now.level + here.now.left < 2 ^ 32 }
    ensures meaning { Agrees data_of result meter.new
        (seen_from here.now past_limit name.now body.now (map data_of list.now) meter.old.cost meter.old.deepest) }
    ensures ledger { steps.new + meter.old.cost ≡ steps.old + meter.new.cost }
{
    for item in list {
        let scope = Scope::Bound(&*name, item, &*here.scope);
        let inner = Standpoint {
            scope: &scope,
            ..*here
        };
        let _unkept = evaluate(&inner, body, meter, steps)?;
    }
    Err(Stop::Trap(7))
}

// Those of these for which a body is true.
#[cycle(evaluate)]
fn filter_over<L: Ledger>(
    here: &Standpoint<'_>,
    name: &Text,
    list: &[Value],
    body: &Expr,
    meter: &mut Meter,
    steps: &mut Steps<L>,
) -> Result<Values, Stop>
    requires { here.now.level + here.now.left < 2 ^ 32 }
    ensures meaning { Agrees itself result meter.new
        (seen_from here.now filter_each name.now body.now (map data_of list.now) [] meter.old.cost
        meter.old.deepest) }
    ensures ledger { steps.new + meter.old.cost ≡ steps.old + meter.new.cost }
{
    let mut values = Vec::new(here.context.alloc);
    for item in list {
        let scope = Scope::Bound(&*name, item, &*here.scope);
        let inner = Standpoint {
            scope: &scope,
            ..*here
        };
        let kept = evaluate_test(&inner, body, meter, steps)?;
        add_if(kept, &mut values, item)?;
    }
    Ok(Values::from_vec(here.context.alloc, values)?)
}

// The last value of a body that is given each of these with the value before.
#[cycle(evaluate)]
fn fold_over<L: Ledger>(
    here: &Standpoint<'_>,
    fold: &Folding,
    list: &[Value],
    opening: Value,
    meter: &mut Meter,
    steps: &mut Steps<L>,
) -> Result<Value, Stop>
    requires { here.now.level + here.now.left < 2 ^ 32 }
    ensures meaning { Agrees data_of result meter.new
        (seen_from here.now fold_each fold.now.name fold.now.accumulator fold.now.body
        (map data_of list.now) (data_of opening) meter.old.cost meter.old.deepest) }
    ensures ledger { steps.new + meter.old.cost ≡ steps.old + meter.new.cost }
{
    let mut value = opening;
    for item in list {
        let element = Scope::Bound(&fold.name, item, &*here.scope);
        let scope = Scope::Bound(&fold.accumulator, &value, &element);
        let inner = Standpoint {
            scope: &scope,
            ..*here
        };
        let next = evaluate(&inner, &fold.body, meter, steps)?;
        value = next;
    }
    Ok(value)
}
