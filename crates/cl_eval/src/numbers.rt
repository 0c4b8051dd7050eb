//! Operators on numbers.
ghost use Rattle.std.specs.Prelude.{◌≡◌, ◌≢◌, pos, map, Ok, Err, if◌then◌else◌};
ghost use Rattle.cl_value.specs.Data.{int};
ghost use Rattle.cl_value.specs.Value.{data_of};
ghost use Rattle.cl_eval.specs.Operators.{arithmetic_of, calculate, compare_numbers, comparison_of, is_zero, number, quotient, remainder};
ghost use Rattle.cl_eval.specs.Calculation.{arithmetic_on, comparison_on, number_in, pair_in};
ghost use Rattle.cl_eval.specs.Agrees.{Comes, itself};

use crate::metering::Stop;
use cl_syntax::{Arithmetic, Comparison};
use cl_value::Value;

/// The arithmetic of two numbers. What does not fit 64 bits traps with 2, a zero divisor with 3.
pub fn arithmetic(operator: Arithmetic, values: &[Value]) -> Result<Value, Stop>
    ensures { Comes data_of result (arithmetic_of operator (map data_of values.now)) }
{
    match values {
        [Value::Int(first), Value::Int(second)] => {
            let number = calculate(operator, *first, *second)?;
            Ok(Value::Int(number))
        }
        _ => Err(Stop::Trap(1)),
    }
}

/// The comparison of two numbers.
pub fn comparison(operator: Comparison, values: &[Value]) -> Result<Value, Stop>
    ensures { Comes data_of result (comparison_of operator (map data_of values.now)) }
{
    match values {
        [Value::Int(first), Value::Int(second)] => {
            Ok(Value::Bool(compare(operator, *first, *second)))
        }
        _ => Err(Stop::Trap(1)),
    }
}

/// The number that a value is, where it is one.
pub fn number_in(value: &Value) -> Option<i64>
    ensures { result ≡ number_in (data_of value.now) }
{
    match value {
        Value::Int(number) => Some(*number),
        _ => None,
    }
}

/// The two numbers that values are, where they are two and each is one.
pub fn pair_in(values: &[Value]) -> Option<(i64, i64)>
    ensures { result ≡ pair_in (map data_of values.now) }
{
    match values {
        [Value::Int(first), Value::Int(second)] => Some((*first, *second)),
        _ => None,
    }
}

/// The arithmetic of two numbers, where they are there.
pub fn calculate_pair(operator: Arithmetic, pair: Option<(i64, i64)>) -> Result<i64, Stop>
    ensures { Comes int result (arithmetic_on operator pair) }
{
    match pair {
        Some((first, second)) => calculate(operator, first, second),
        None => Err(Stop::Trap(1)),
    }
}

/// The comparison of two numbers, where they are there.
pub fn compare_pair(operator: Comparison, pair: Option<(i64, i64)>) -> Result<bool, Stop>
    ensures { Comes itself result (comparison_on operator pair) }
{
    match pair {
        Some((first, second)) => Ok(compare(operator, first, second)),
        None => Err(Stop::Trap(1)),
    }
}

fn compare(operator: Comparison, first: i64, second: i64) -> bool
    ensures { result ≡ compare_numbers operator first second }
{
    match operator {
        Comparison::Less => first < second,
        Comparison::AtMost => first <= second,
        Comparison::Greater => first > second,
        Comparison::AtLeast => first >= second,
    }
}

fn calculate(operator: Arithmetic, first: i64, second: i64) -> Result<i64, Stop>
    ensures { Comes int result (calculate operator first second) }
{
    match operator {
        Arithmetic::Add => number(i128::from(first) + i128::from(second)),
        Arithmetic::Subtract => number(i128::from(first) - i128::from(second)),
        Arithmetic::Multiply => number(i128::from(first) * i128::from(second)),
        Arithmetic::Least => Ok(first.min(second)),
        Arithmetic::Greatest => Ok(first.max(second)),
        Arithmetic::Quotient => divide(first, second),
        Arithmetic::Remainder => leave(first, second),
    }
}

// The number where it fits 64 bits.
fn number(exact: i128) -> Result<i64, Stop>
    ensures { Comes int result (number exact) }
{
    match i64::try_from(exact) {
        Ok(number) => Ok(number),
        Err(_) => Err(Stop::Trap(2)),
    }
}

fn divide(first: i64, second: i64) -> Result<i64, Stop>
    ensures { Comes int result
        (if is_zero second then Err 3 else number (quotient first second)) }
{
    if second == 0 {
        Err(Stop::Trap(3))
    } else {
        number(quotient(first, second))
    }
}

fn leave(first: i64, second: i64) -> Result<i64, Stop>
    ensures { Comes int result
        (if is_zero second then Err 3 else Ok (int (remainder first second))) }
{
    if second == 0 {
        Err(Stop::Trap(3))
    } else {
        Ok(remainder(first, second))
    }
}

// The quotient rounded down.
fn quotient(first: i64, second: i64) -> i128
    requires { second ≢ pos 0 }
    ensures { result ≡ quotient first second }
{
    let (first, second) = (i128::from(first), i128::from(second));
    if second > 0 {
        first.div_euclid(second)
    } else {
        (-first).div_euclid(-second)
    }
}

// What the quotient rounded down leaves, which has the divisor's sign.
fn remainder(first: i64, second: i64) -> i64
    requires { second ≢ pos 0 }
    ensures { result ≡ remainder first second }
{
    let (first, second) = (i128::from(first), i128::from(second));
    if second > 0 {
        first.rem_euclid(second) as i64
    } else {
        -((-first).rem_euclid(-second) as i64)
    }
}
