//! Operators on texts.
ghost use Rattle.std.specs.Prelude.{◌≡◌, ◌<◌, ◌-◌, ◌++◌, length, map, replicate, IfOk};
ghost use Rattle.std.specs.Fmt.{signed_decimal};
ghost use Rattle.cl_value.specs.Data.{text};
ghost use Rattle.cl_value.specs.Value.{data_of};
ghost use Rattle.cl_eval.specs.Operators.{within_limits, pad_to, subtext_of, text_answer, text_of};
ghost use Rattle.cl_eval.specs.Agrees.{Comes};
ghost use Rattle.cl_syntax.specs.declared.operators.TextOperator.TheVariants as written;

use crate::metering::Stop;
use crate::operators::{MAX_VALUE_SIZE, limit};
use cl_syntax::TextOperator;
use cl_value::{Text, Value};
use itoa::Buffer;
use std::alloc::{AllocError, Global};

/// What is made of texts. A place that is not in its text traps with 4, a text past the limits of a value
/// with 7.
pub fn text_operation(
    alloc: Global,
    operator: TextOperator,
    values: &[Value],
) -> Result<Value, Stop>
    ensures { Comes data_of result (text_answer operator (map data_of values.now)) }
{
    match operator {
        TextOperator::Concat => concat(alloc, values),
        TextOperator::Subtext => subtext(alloc, values),
        TextOperator::Pad => pad(alloc, values),
        TextOperator::Written => written(alloc, values),
    }
}

fn concat(alloc: Global, values: &[Value]) -> Result<Value, Stop>
    ensures { Comes data_of result (text_answer written.Concat (map data_of values.now)) }
{
    match values {
        [Value::Text(first), Value::Text(second)] => {
            limit(Value::Text(joined(alloc, first, second)?))
        }
        _ => Err(Stop::Trap(1)),
    }
}

fn joined(alloc: Global, first: &Text, second: &Text) -> Result<Text, AllocError>
    ensures { IfOk result (λ t. t ≡ first.now ++ second.now) }
{
    let (first, second) = (first.as_slice(), second.as_slice());
    let mut bytes = Vec::with_capacity(alloc, first.len().saturating_add(second.len()))?;
    bytes.extend_from_slice(first)?;
    bytes.extend_from_slice(second)?;
    Text::from_vec(alloc, bytes)
}

fn subtext(alloc: Global, values: &[Value]) -> Result<Value, Stop>
    ensures { Comes data_of result (text_answer written.Subtext (map data_of values.now)) }
{
    match values {
        [Value::Text(text), Value::Int(from), Value::Int(to)] => cut(alloc, text, *from, *to),
        _ => Err(Stop::Trap(1)),
    }
}

fn cut(alloc: Global, text: &Text, from: i64, to: i64) -> Result<Value, Stop>
    ensures { Comes data_of result (subtext_of text.now from to) }
{
    let Ok(from) = usize::try_from(from) else {
        return Err(Stop::Trap(4));
    };
    let Ok(to) = usize::try_from(to) else {
        return Err(Stop::Trap(4));
    };
    match text.as_slice().get(from..to) {
        Some(bytes) => Ok(Value::Text(Text::from_slice(alloc, bytes)?)),
        None => Err(Stop::Trap(4)),
    }
}

fn pad(alloc: Global, values: &[Value]) -> Result<Value, Stop>
    ensures { Comes data_of result (text_answer written.Pad (map data_of values.now)) }
{
    match values {
        [Value::Text(text), Value::Int(width)] => pad_to(alloc, text, *width),
        _ => Err(Stop::Trap(1)),
    }
}

// The width may be 2^63, so it is compared with the greatest size before a text is made.
fn pad_to(alloc: Global, given: &Text, width: i64) -> Result<Value, Stop>
    ensures { Comes data_of result (within_limits (text (pad_to given.now width))) }
{
    match usize::try_from(width) {
        Ok(width) if width > given.as_slice().len() => {
            if width as u64 >= MAX_VALUE_SIZE {
                return Err(Stop::Trap(7));
            }
            Ok(Value::Text(with_spaces(alloc, given, width)?))
        }
        _ => limit(Value::Text(given.copy()?)),
    }
}

fn with_spaces(alloc: Global, given: &Text, width: usize) -> Result<Text, AllocError>
    requires { length given.now < width }
    ensures { IfOk result (λ t. t ≡ given.now ++ replicate (width - length given.now) 32) }
{
    let mut bytes = Vec::with_capacity(alloc, width)?;
    bytes.extend_from_slice(given.as_slice())?;
    bytes.resize(width, b' ')?;
    Text::from_vec(alloc, bytes)
}

fn written(alloc: Global, values: &[Value]) -> Result<Value, Stop>
    ensures { Comes data_of result (text_answer written.Written (map data_of values.now)) }
{
    match values {
        [value] => write(alloc, value),
        _ => Err(Stop::Trap(1)),
    }
}

fn write(alloc: Global, value: &Value) -> Result<Value, Stop>
    ensures { Comes data_of result (text_of (data_of value.now)) }
{
    match value {
        Value::Int(number) => Ok(Value::Text(decimal(alloc, *number)?)),
        Value::Symbol(text) | Value::Text(text) => Ok(Value::Text(text.copy()?)),
        _ => Err(Stop::Trap(1)),
    }
}

// A number in decimal.
fn decimal(alloc: Global, number: i64) -> Result<Text, AllocError>
    ensures { IfOk result (λ t. t ≡ signed_decimal number) }
{
    Text::from_slice(alloc, Buffer::new().format(number).as_bytes())
}
