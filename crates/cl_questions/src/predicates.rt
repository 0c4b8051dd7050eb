//! Predicates of the types of questions.
ghost use Rattle.std.specs.Prelude.{◌≡◌, map, Some};
ghost use Rattle.cl_value.specs.Value.{data_of};
ghost use Rattle.cl_lattice.specs.Arguments.{number_in};
ghost use Rattle.cl_lattice.specs.Members.{is_at_least, is_at_most, is_within, Says};
ghost use Rattle.cl_questions.specs.Named.{answer_named, is_between};

use cl_lattice::Predicates;
use cl_value::{Held, Value, Values};

/// The predicates by name: `positive` is true of the numbers from 1 on, `between` of the numbers from its first argument to its
/// second, and `anything` of every value. No other function is true of any value, as one that traps.
#[derive(Clone, Copy)]
pub struct NamedPredicates;

impl Predicates for NamedPredicates {
    ghost answers = { λ p f d ds. answer_named f d ds };

    fn holds(&self, function: &[u8], value: &Value, params: &Values) -> Held {
        held(answer_named(function, value, params.as_slice()))
    }
}

fn held(answer: bool) -> Held
    ensures { Says result answer }
{
    if answer { Held::Yes } else { Held::No }
}

fn answer_named(function: &[u8], value: &Value, params: &[Value]) -> bool
    ensures { result ≡ answer_named function.now (data_of value.now) (map data_of params.now) }
{
    if function == b"positive".as_slice() {
        is_within(Some(1), None, value)
    } else if function == b"between".as_slice() {
        is_between(value, params)
    } else {
        function == b"anything".as_slice()
    }
}

fn is_between(value: &Value, params: &[Value]) -> bool
    ensures { result ≡ is_between (data_of value.now) (map data_of params.now) }
{
    match params {
        [] => false,
        [_] => false,
        [low, high] => is_within(number_in(low), number_in(high), value),
        [_, _, _, ..] => false,
    }
}

// The number that a value is.
fn number_in(value: &Value) -> Option<i64>
    ensures { result ≡ number_in (Some (data_of value.now)) }
{
    match value {
        Value::Int(number) => Some(*number),
        _ => None,
    }
}

fn is_within(low: Option<i64>, high: Option<i64>, value: &Value) -> bool
    ensures { result ≡ is_within low high (data_of value.now) }
{
    match value {
        Value::Int(number) => is_at_least(low, *number) && is_at_most(high, *number),
        _ => false,
    }
}

fn is_at_least(low: Option<i64>, number: i64) -> bool
    ensures { result ≡ is_at_least low number }
{
    match low {
        Some(low) => low <= number,
        None => true,
    }
}

fn is_at_most(high: Option<i64>, number: i64) -> bool
    ensures { result ≡ is_at_most high number }
{
    match high {
        Some(high) => number <= high,
        None => true,
    }
}
