//! Parts of membership that stand by themselves: answers, lists of constants, predicates.
ghost use Rattle.std.specs.Prelude.{◌≡◌, IfOk, false, is_some, map};
ghost use Rattle.cl_value.specs.Value.{data_of, parts_of};
ghost use Rattle.cl_syntax.specs.TypeSpec.{arg_tree_of};
ghost use Rattle.cl_lattice.specs.Arguments.{constants, given_by, trees_of, value_of, values_of};
ghost use Rattle.cl_lattice.specs.Members.{are_among, argument_given, arguments_given, is_satisfied, is_subset, Settles};

use crate::arguments::{Bound, is_among, value_of};
use crate::atoms::differ;
use crate::predicates::Predicates;
use cl_syntax::TypeArg;
use cl_value::{Held, Text, Value, Values};
use std::alloc::{AllocError, Global};

// A truth value as an answer.
pub(crate) fn answer(holds: bool) -> Held
    ensures { Settles result holds false }
{
    if holds { Held::Yes } else { Held::No }
}

// Whether a value is a list of constants among arguments, each at most once.
pub(crate) fn is_subset<'a>(value: &Value, args: &'a [TypeArg], bound: &Bound<'a>) -> bool
    ensures { result ≡ is_subset (constants (values_of (given_by bound.now) (trees_of args.now))) (data_of value.now) }
{
    match value {
        Value::List(parts) => {
            are_among(parts.as_slice(), args, bound) && differ(parts.as_slice())
        }
        _ => false,
    }
}

// Whether each value is one of the constants among arguments.
fn are_among<'a>(values: &[Value], args: &'a [TypeArg], bound: &Bound<'a>) -> bool
    ensures { result ≡ are_among (parts_of values.now) (constants (values_of (given_by bound.now) (trees_of args.now))) }
{
    for value in values {
        if !is_among(value, args, bound) {
            return false;
        }
    }
    true
}

// What is given for one argument of a predicate: `*` as null.
fn argument_given<'a>(arg: &'a TypeArg, bound: &Bound<'a>) -> Result<Value, AllocError>
    ensures { IfOk result (λ v. data_of v ≡ argument_given (value_of (given_by bound.now) (arg_tree_of arg.now))) }
{
    match value_of(arg, bound) {
        Some(value) => value.copy(),
        None => Ok(Value::Null),
    }
}

// What is given for the arguments of a predicate.
fn arguments_given<'a>(
    alloc: Global,
    args: &'a [TypeArg],
    bound: &Bound<'a>,
) -> Result<Values, AllocError>
    ensures { IfOk result (λ vs. vs ≡ arguments_given (values_of (given_by bound.now) (trees_of args.now))) }
{
    let mut values = Vec::with_capacity(alloc, args.len())?;
    for arg in args {
        values.push(argument_given(arg, bound)?)?;
    }
    Values::from_vec(alloc, values)
}

// Whether a value that is a member of what a type inherits from satisfies its predicate.
pub(crate) fn satisfies<'a, P: Predicates>(
    alloc: Global,
    value: &Value,
    function: &Option<Text>,
    args: &'a [TypeArg],
    bound: &Bound<'a>,
    preds: &P,
) -> Held
    ensures { Settles result (is_satisfied (P.answers preds.now) function.now (data_of value.now)
        (values_of (given_by bound.now) (trees_of args.now))) (is_some function.now) }
{
    let Some(function) = function else {
        return Held::Yes;
    };
    match arguments_given(alloc, args, bound) {
        Ok(params) => preds.holds(function.as_slice(), value, &params),
        Err(_) => Held::Memory,
    }
}
