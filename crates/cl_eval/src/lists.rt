//! Operators on lists.
ghost use Rattle.std.specs.Prelude.{◌≡◌, ℕ, ◌≤◌, pos, negsuc, ◌+ℤ◌, ◌-ℤ◌, ◌≤ℤ◌, ◌^◌, ◌++◌, ◌∷◌, [], map, Ok, OnOk, IfOk, if◌then◌else◌};
ghost use Rattle.cl_value.specs.Data.{items_of, list};
ghost use Rattle.cl_value.specs.Value.{data_of};
ghost use Rattle.cl_eval.specs.Operators.{count_to, has_part, within_limits, list_answer, nth_of, numbers_from, range_of, rest_of};
ghost use Rattle.cl_eval.specs.Agrees.{Comes};
ghost use Rattle.cl_syntax.specs.declared.operators.ListOperator.TheVariants as row;

use crate::metering::Stop;
use crate::operators::{MAX_VALUE_SIZE, limit};
use cl_syntax::ListOperator;
use cl_value::{Value, Values};
use std::alloc::{AllocError, Global};

/// What is made of lists, or asked of them. A place that is not in its list traps with 4, a list past the
/// limits of a value with 7.
pub fn list_operation(
    alloc: Global,
    operator: ListOperator,
    values: &[Value],
) -> Result<Value, Stop>
    ensures { Comes data_of result (list_answer operator (map data_of values.now)) }
{
    match operator {
        ListOperator::List => list(alloc, values),
        ListOperator::Nth => nth(values),
        ListOperator::Rest => rest(alloc, values),
        ListOperator::Cons => cons(alloc, values),
        ListOperator::Append => append(alloc, values),
        ListOperator::Contains => contains(values),
        ListOperator::Range => range(alloc, values),
    }
}

/// The values, each copied.
pub fn copy_all(alloc: Global, values: &[Value]) -> Result<Values, AllocError>
    ensures { IfOk result (λ vs. vs ≡ map data_of values.now) }
{
    let mut copies = Vec::with_capacity(alloc, values.len())?;
    add_all(&mut copies, values)?;
    Values::from_vec(alloc, copies)
}

/// Copies of the parts more.
pub fn add_all(values: &mut Vec<Value>, parts: &[Value]) -> Result<(), AllocError>
    ensures { OnOk result (map data_of values.new.items
        ≡ map data_of values.old.items ++ map data_of parts.now) }
{
    for part in parts {
        add_part(values, part.copy()?)?;
    }
    Ok(())
}

/// One value more.
pub fn add_part(values: &mut Vec<Value>, value: Value) -> Result<(), AllocError>
    ensures { OnOk result (map data_of values.new.items
        ≡ map data_of values.old.items ++ data_of value ∷ []) }
{
    values.push(value)?;
    Ok(())
}

/// A copy of the value more, where it is kept.
pub fn add_if(kept: bool, values: &mut Vec<Value>, value: &Value) -> Result<(), AllocError>
    ensures { OnOk result (map data_of values.new.items ≡ (if kept
        then map data_of values.old.items ++ data_of value.now ∷ []
        else map data_of values.old.items)) }
{
    if kept {
        add_part(values, value.copy()?)
    } else {
        Ok(())
    }
}

fn list(alloc: Global, values: &[Value]) -> Result<Value, Stop>
    ensures { Comes data_of result (list_answer row.List (map data_of values.now)) }
{
    limit(Value::List(copy_all(alloc, values)?))
}

#[tactic(auto, using(std::proofs::lemmas::Grind::common_steps, crate::proofs::ListLemmas::list_of_items))]
fn nth(values: &[Value]) -> Result<Value, Stop>
    ensures { Comes data_of result (list_answer row.Nth (map data_of values.now)) }
{
    match values {
        [Value::List(parts), Value::Int(place)] => part_at(parts, *place),
        _ => Err(Stop::Trap(1)),
    }
}

fn part_at(parts: &Values, place: i64) -> Result<Value, Stop>
    ensures { Comes data_of result (nth_of parts.now place) }
{
    let Ok(place) = usize::try_from(place) else {
        return Err(Stop::Trap(4));
    };
    match parts.as_slice().get(place) {
        Some(part) => Ok(part.copy()?),
        None => Err(Stop::Trap(4)),
    }
}

#[tactic(auto, using(std::proofs::lemmas::Grind::common_steps, crate::proofs::ListLemmas::list_of_items))]
fn rest(alloc: Global, values: &[Value]) -> Result<Value, Stop>
    ensures { Comes data_of result (list_answer row.Rest (map data_of values.now)) }
{
    match values {
        [Value::List(parts)] => all_but_first(alloc, parts),
        _ => Err(Stop::Trap(1)),
    }
}

fn all_but_first(alloc: Global, parts: &Values) -> Result<Value, Stop>
    ensures { Comes data_of result (rest_of parts.now) }
{
    match parts.as_slice().split_first() {
        Some((_, rest)) => Ok(Value::List(copy_all(alloc, rest)?)),
        None => Err(Stop::Trap(4)),
    }
}

fn cons(alloc: Global, values: &[Value]) -> Result<Value, Stop>
    ensures { Comes data_of result (list_answer row.Cons (map data_of values.now)) }
{
    match values {
        [first, Value::List(rest)] => limit(Value::List(with_first(alloc, first, rest)?)),
        _ => Err(Stop::Trap(1)),
    }
}

fn with_first(alloc: Global, first: &Value, rest: &Values) -> Result<Values, AllocError>
    ensures { IfOk result (λ vs. vs ≡ data_of first.now ∷ rest.now) }
{
    let mut parts = Vec::with_capacity(alloc, rest.len().saturating_add(1))?;
    parts.push(first.copy()?)?;
    add_all(&mut parts, rest.as_slice())?;
    Values::from_vec(alloc, parts)
}

#[tactic(auto, using(std::proofs::lemmas::Grind::common_steps, crate::proofs::ListLemmas::list_of_items))]
fn append(alloc: Global, values: &[Value]) -> Result<Value, Stop>
    ensures { Comes data_of result (list_answer row.Append (map data_of values.now)) }
{
    match values {
        [Value::List(first), Value::List(second)] => {
            limit(Value::List(joined(alloc, first, second)?))
        }
        _ => Err(Stop::Trap(1)),
    }
}

fn joined(alloc: Global, first: &Values, second: &Values) -> Result<Values, AllocError>
    ensures { IfOk result (λ vs. vs ≡ first.now ++ second.now) }
{
    let mut parts = Vec::with_capacity(alloc, first.len().saturating_add(second.len()))?;
    add_all(&mut parts, first.as_slice())?;
    add_all(&mut parts, second.as_slice())?;
    Values::from_vec(alloc, parts)
}

#[tactic(auto, using(std::proofs::lemmas::Grind::common_steps, crate::proofs::ListLemmas::list_of_items))]
fn contains(values: &[Value]) -> Result<Value, Stop>
    ensures { Comes data_of result (list_answer row.Contains (map data_of values.now)) }
{
    match values {
        [Value::List(parts), value] => Ok(Value::Bool(has_part(parts.as_slice(), value))),
        _ => Err(Stop::Trap(1)),
    }
}

#[tactic(auto, using(crate::proofs::ListLemmas::has_part_next, crate::proofs::ListLemmas::has_part_end))]
fn has_part(parts: &[Value], value: &Value) -> bool
    ensures { result ≡ has_part (data_of value.now) (map data_of parts.now) }
{
    for part in parts {
        if part.order(value).is_eq() {
            return true;
        }
    }
    false
}

fn range(alloc: Global, values: &[Value]) -> Result<Value, Stop>
    ensures { Comes data_of result (list_answer row.Range (map data_of values.now)) }
{
    match values {
        [Value::Int(first), Value::Int(last)] => numbers(alloc, *first, *last),
        _ => Err(Stop::Trap(1)),
    }
}

// The numbers from the first to the last. There may be 2^64 of them, so they are counted before any is made.
#[tactic(auto, using(crate::proofs::ListLemmas::numbers_size))]
fn numbers(alloc: Global, first: i64, last: i64) -> Result<Value, Stop>
    ensures { Comes data_of result (range_of first last) }
{
    let count = count_between(first, last);
    if count >= u128::from(MAX_VALUE_SIZE) {
        return Err(Stop::Trap(7));
    }
    Ok(Value::List(numbers_from(alloc, first, count as u32)?))
}

// How many numbers there are from the first to the last, both included.
fn count_between(first: i64, last: i64) -> u128
    ensures { result ≡ count_to (last -ℤ first) }
{
    if first <= last {
        u128::from(last.abs_diff(first)) + 1
    } else {
        0
    }
}

// So many numbers, from the first.
#[tactic(auto, using(crate::proofs::ListLemmas::numbers_more))]
fn numbers_from(alloc: Global, first: i64, count: u32) -> Result<Values, AllocError>
    requires { (first +ℤ pos count) ≤ℤ pos (2 ^ 63) }
    ensures { IfOk result (λ vs. vs ≡ numbers_from first count) }
{
    let mut numbers = Vec::with_capacity(alloc, count as usize)?;
    for place in 0..count {
        add_part(&mut numbers, Value::Int(first + i64::from(place)))?;
    }
    Values::from_vec(alloc, numbers)
}
