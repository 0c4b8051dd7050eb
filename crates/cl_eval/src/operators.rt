//! The operators, over the values of their parts.
ghost use Rattle.std.specs.Prelude.{◌≡◌, Ok, pos, map, option_map};
ghost use Rattle.cl_value.specs.Value.{data_of};
ghost use Rattle.cl_eval.specs.Operators.{elements, equal_of, is_null_of, length_of, within_limits, not_of, number, operate, or_trap, truth};
ghost use Rattle.cl_eval.specs.Calculation.{number_of};
ghost use Rattle.cl_eval.specs.Agrees.{Comes, itself};

use crate::lists::list_operation;
use crate::metering::Stop;
use crate::numbers::{arithmetic, comparison, number_in};
use crate::records::record_operation;
use crate::texts::text_operation;
use cl_application::App;
use cl_syntax::Operator;
use cl_value::{Value, Values};
use std::alloc::Global;

/// The greatest size of a value.
pub const MAX_VALUE_SIZE: u64 = 65_536;

/// The greatest depth of a value.
const MAX_VALUE_DEPTH: u64 = 64;

/// The value of an operator over the values of its parts. A wrong kind or count of parts traps with 1.
pub fn operate(
    alloc: Global,
    app: &App,
    operator: &Operator,
    values: &[Value],
) -> Result<Value, Stop>
    ensures { Comes data_of result (operate app.now operator.now (map data_of values.now)) }
{
    match operator {
        Operator::Arithmetic(operator) => arithmetic(*operator, values),
        Operator::Comparison(operator) => comparison(*operator, values),
        Operator::List(operator) => list_operation(alloc, *operator, values),
        Operator::Text(operator) => text_operation(alloc, *operator, values),
        Operator::Record(operator) => record_operation(alloc, app, operator, values),
        Operator::Not => not(values),
        Operator::Equal => equal(values),
        Operator::Length => length(values),
        Operator::IsNull => is_null(values),
    }
}

/// The value where its size and its depth are within their limits; else trap 7.
pub fn limit(value: Value) -> Result<Value, Stop>
    ensures { Comes data_of result (within_limits (data_of value)) }
{
    if value.size() <= MAX_VALUE_SIZE && value.depth() <= MAX_VALUE_DEPTH {
        Ok(value)
    } else {
        Err(Stop::Trap(7))
    }
}

/// A copy of a value that was looked for; where there is none, trap 1.
pub fn find_value(value: Option<&Value>) -> Result<Value, Stop>
    ensures { Comes data_of result (or_trap 1 (option_map (λ v. data_of v.now) value.entry)) }
{
    match value {
        Some(value) => Ok(value.copy()?),
        None => Err(Stop::Trap(1)),
    }
}

/// The number that a value is that was looked for, where it is one; where there is no value, trap 1.
pub fn find_number(value: Option<&Value>) -> Result<Option<i64>, Stop>
    ensures { Comes itself result
        (number_of (or_trap 1 (option_map (λ v. data_of v.now) value.entry))) }
{
    match value {
        Some(value) => Ok(number_in(value)),
        None => Err(Stop::Trap(1)),
    }
}

/// A Bool, where a test is asked for.
pub fn truth(value: &Value) -> Result<bool, Stop>
    ensures { Comes itself result (truth (data_of value.now)) }
{
    match value {
        Value::Bool(truth) => Ok(*truth),
        _ => Err(Stop::Trap(1)),
    }
}

/// The parts of a list, where one is asked for.
#[tactic(auto, using(crate::proofs::ListLemmas::list_of_items))]
pub fn elements(value: Value) -> Result<Values, Stop>
    ensures { Comes itself result (elements (data_of value)) }
{
    match value {
        Value::List(parts) => Ok(parts),
        _ => Err(Stop::Trap(1)),
    }
}

fn not(values: &[Value]) -> Result<Value, Stop>
    ensures { Comes data_of result (not_of (map data_of values.now)) }
{
    match values {
        [Value::Bool(truth)] => Ok(Value::Bool(!*truth)),
        _ => Err(Stop::Trap(1)),
    }
}

fn equal(values: &[Value]) -> Result<Value, Stop>
    ensures { Comes data_of result (equal_of (map data_of values.now)) }
{
    match values {
        [first, second] => Ok(Value::Bool(first.order(second).is_eq())),
        _ => Err(Stop::Trap(1)),
    }
}

#[tactic(auto, using(std::proofs::lemmas::Grind::common_steps, crate::proofs::ListLemmas::list_of_items))]
fn length(values: &[Value]) -> Result<Value, Stop>
    ensures { Comes data_of result (length_of (map data_of values.now)) }
{
    match values {
        [Value::List(parts)] => count(parts.as_slice().len()),
        [Value::Text(text)] => count(text.as_slice().len()),
        _ => Err(Stop::Trap(1)),
    }
}

// A count as a number.
fn count(length: usize) -> Result<Value, Stop>
    ensures { Comes data_of result (number (pos length)) }
{
    match i64::try_from(length) {
        Ok(number) => Ok(Value::Int(number)),
        Err(_) => Err(Stop::Trap(2)),
    }
}

fn is_null(values: &[Value]) -> Result<Value, Stop>
    ensures { Comes data_of result (is_null_of (map data_of values.now)) }
{
    match values {
        [value] => Ok(Value::Bool(matches!(value, Value::Null))),
        _ => Err(Stop::Trap(1)),
    }
}
