//! Members of the types that are not made of others.
ghost use Rattle.std.specs.Prelude.{◌≡◌, map};
ghost use Rattle.cl_value.specs.Value.{data_of, parts_of};
ghost use Rattle.cl_lattice.specs.Members.{are_two_numbers, differ, has_length, is_at_least, is_at_most, is_blank_area, is_boolean, is_end, is_list, is_null, is_number, is_of_record, is_one_number, is_one_of, is_part, is_place, is_symbol, is_text, is_token, is_within};

use crate::arguments::is_same;
use cl_value::{Text, Value};

fn is_at_least(low: Option<i64>, number: i64) -> bool
    ensures { result ≡ is_at_least low number }
{
    match low {
        None => true,
        Some(low) => low <= number,
    }
}

fn is_at_most(high: Option<i64>, number: i64) -> bool
    ensures { result ≡ is_at_most high number }
{
    match high {
        None => true,
        Some(high) => number <= high,
    }
}

/// Whether a value is a number within bounds; `None` is no bound.
pub fn is_within(low: Option<i64>, high: Option<i64>, value: &Value) -> bool
    ensures { result ≡ is_within low high (data_of value.now) }
{
    match value {
        Value::Int(number) => is_at_least(low, *number) && is_at_most(high, *number),
        _ => false,
    }
}

pub fn is_boolean(value: &Value) -> bool
    ensures { result ≡ is_boolean (data_of value.now) }
{
    match value {
        Value::Bool(_) => true,
        _ => false,
    }
}

pub fn is_symbol(value: &Value) -> bool
    ensures { result ≡ is_symbol (data_of value.now) }
{
    match value {
        Value::Symbol(_) => true,
        _ => false,
    }
}

pub fn is_null(value: &Value) -> bool
    ensures { result ≡ is_null (data_of value.now) }
{
    match value {
        Value::Null => true,
        _ => false,
    }
}

fn has_length(wanted: Option<i64>, length: usize) -> bool
    ensures { result ≡ has_length wanted length }
{
    match wanted {
        None => true,
        Some(wanted) => {
            let length = length as i128;
            wanted as i128 <= length && length <= wanted as i128
        }
    }
}

/// Whether a value is a text, of so many bytes where a length is given.
pub fn is_text(wanted: Option<i64>, value: &Value) -> bool
    ensures { result ≡ is_text wanted (data_of value.now) }
{
    match value {
        Value::Text(text) => has_length(wanted, text.as_slice().len()),
        _ => false,
    }
}

/// Whether a value is a record of that name.
pub fn is_of_record(name: &[u8], value: &Value) -> bool
    ensures { result ≡ is_of_record name.now (data_of value.now) }
{
    match value {
        Value::Record(record, _) => name == record.as_slice(),
        _ => false,
    }
}

/// Whether a name is one of the tokens.
pub fn is_token(tokens: &[Text], name: &[u8]) -> bool
    ensures { result ≡ is_token tokens.now name.now }
{
    for token in tokens {
        if token.as_slice() == name {
            return true;
        }
    }
    false
}

/// Whether a value is the symbol of one of the tokens.
pub fn is_one_of(tokens: &[Text], value: &Value) -> bool
    ensures { result ≡ is_one_of tokens.now (data_of value.now) }
{
    match value {
        Value::Symbol(name) => is_token(tokens, name.as_slice()),
        _ => false,
    }
}

fn is_number(value: &Value) -> bool
    ensures { result ≡ is_number (data_of value.now) }
{
    match value {
        Value::Int(_) => true,
        _ => false,
    }
}

fn is_end(parts: &[Value]) -> bool
    ensures { result ≡ is_end (parts_of parts.now) }
{
    match parts.split_first() {
        Some(_) => false,
        None => true,
    }
}

fn is_one_number(parts: &[Value]) -> bool
    ensures { result ≡ is_one_number (parts_of parts.now) }
{
    match parts.split_first() {
        Some((first, more)) => is_number(first) && is_end(more),
        None => false,
    }
}

fn are_two_numbers(parts: &[Value]) -> bool
    ensures { result ≡ are_two_numbers (parts_of parts.now) }
{
    match parts.split_first() {
        Some((first, more)) => is_number(first) && is_one_number(more),
        None => false,
    }
}

// Whether these are a symbol and two numbers.
fn is_place(parts: &[Value]) -> bool
    ensures { result ≡ is_place (parts_of parts.now) }
{
    match parts.split_first() {
        Some((first, more)) => is_symbol(first) && are_two_numbers(more),
        None => false,
    }
}

/// Whether a value is a list of a symbol and two numbers.
pub fn is_blank_area(value: &Value) -> bool
    ensures { result ≡ is_blank_area (data_of value.now) }
{
    match value {
        Value::List(parts) => is_place(parts.as_slice()),
        _ => false,
    }
}

// Whether a value is one of the parts.
fn is_part(value: &Value, parts: &[Value]) -> bool
    ensures { result ≡ is_part (data_of value.now) (parts_of parts.now) }
{
    for part in parts {
        if is_same(value, part) {
            return true;
        }
    }
    false
}

/// Whether no part is met twice.
pub fn differ(parts: &[Value]) -> bool
    ensures { result ≡ differ (parts_of parts.now) }
{
    let mut left = parts;
    while let Some((first, more)) = left.split_first() {
        if is_part(first, more) {
            return false;
        }
        left = more;
    }
    true
}
