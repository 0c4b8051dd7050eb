//! Arguments of specifiers, with the parameters of the declaration around them put in.
ghost use Rattle.std.specs.Prelude.{◌≡◌, map, option_map};
ghost use Rattle.cl_value.specs.Value.{data_of};
ghost use Rattle.cl_syntax.specs.TypeSpec.{arg_tree_of};
ghost use Rattle.cl_lattice.specs.Arguments.{arg_given, constants, first_number, given_by, number_in, second_number, tokens_in, trees_of, value_of, values_of};
ghost use Rattle.cl_lattice.specs.Expansion.{next_spec};
ghost use Rattle.cl_lattice.specs.Members.{is_among, is_given, is_same};

use cl_syntax::{TypeArg, TypeSpec};
use cl_table::Names;
use cl_value::{Text, Value};
use std::cmp::Ordering;

/// What is given for the parameters of a declaration. It borrows all that it holds.
#[derive(Drop)]
pub enum Bound<'a> {
    /// No parameter.
    Nothing,
    /// Parameters with the arguments that are given for them, which may be parameters of the declaration around.
    Given(&'a Names, &'a [TypeArg], &'a Bound<'a>),
}

/// The constant that an argument is; `None` for `*`, and for what is no constant.
#[tactic(auto, using(crate::proofs::ArgumentLemmas::found_value))]
pub fn value_of<'a>(arg: &'a TypeArg, bound: &Bound<'a>) -> Option<&'a Value>
    ensures { option_map (λ v. data_of v.now) result ≡ value_of (given_by bound.now) (arg_tree_of arg.now) }
{
    match arg {
        TypeArg::Constant(value) => Some(value),
        TypeArg::Param(name) => match bound {
            Bound::Nothing => None,
            Bound::Given(parameters, args, outer) => {
                match find(parameters.as_slice(), args, name.as_slice()) {
                    Some(found) => value_of(found, outer),
                    None => None,
                }
            }
        },
        TypeArg::Any => None,
        TypeArg::Spec(_) => None,
        TypeArg::Names(_) => None,
    }
}

// The argument that is given for the first parameter of that name.
fn find<'a>(parameters: &[Text], args: &'a [TypeArg], name: &[u8]) -> Option<&'a TypeArg>
    ensures { option_map (λ a. arg_tree_of a.now) result ≡ arg_given name.now parameters.now (trees_of args.now) }
{
    match parameters.split_first() {
        Some((first, parameters)) => match args.split_first() {
            Some((arg, args)) => {
                if name == first.as_slice() {
                    Some(arg)
                } else {
                    find(parameters, args, name)
                }
            }
            None => None,
        },
        None => None,
    }
}

// The number that a constant is.
fn number_in(value: Option<&Value>) -> Option<i64>
    ensures { result ≡ number_in (option_map (λ v. data_of v.now) value.entry) }
{
    match value {
        Some(Value::Int(number)) => Some(*number),
        _ => None,
    }
}

/// The number that the first argument is.
pub fn first_number<'a>(args: &'a [TypeArg], bound: &Bound<'a>) -> Option<i64>
    ensures { result ≡ first_number (values_of (given_by bound.now) (trees_of args.now)) }
{
    match args.split_first() {
        Some((arg, _)) => number_in(value_of(arg, bound)),
        None => None,
    }
}

/// The number that the second argument is.
pub fn second_number<'a>(args: &'a [TypeArg], bound: &Bound<'a>) -> Option<i64>
    ensures { result ≡ second_number (values_of (given_by bound.now) (trees_of args.now)) }
{
    match args.split_first() {
        Some((_, more)) => first_number(more, bound),
        None => None,
    }
}

/// Whether two values are the same.
pub fn is_same(value: &Value, other: &Value) -> bool
    ensures { result ≡ is_same (data_of value.now) (data_of other.now) }
{
    match value.order(other) {
        Ordering::Equal => true,
        Ordering::Less => false,
        Ordering::Greater => false,
    }
}

// Whether a value is the constant that an argument is.
fn is_given<'a>(value: &Value, arg: &'a TypeArg, bound: &Bound<'a>) -> bool
    ensures { result ≡ is_given (data_of value.now) (value_of (given_by bound.now) (arg_tree_of arg.now)) }
{
    match value_of(arg, bound) {
        Some(constant) => is_same(value, constant),
        None => false,
    }
}

/// Whether a value is one of the constants among arguments.
#[tactic(auto, using(crate::proofs::ArgumentLemmas::before))]
pub fn is_among<'a>(value: &Value, args: &'a [TypeArg], bound: &Bound<'a>) -> bool
    ensures { result ≡ is_among (data_of value.now) (constants (values_of (given_by bound.now) (trees_of args.now))) }
{
    for arg in args {
        if is_given(value, arg, bound) {
            return true;
        }
    }
    false
}

/// The tokens of the first argument that has any.
pub fn tokens_in(args: &[TypeArg]) -> &[Text]
    ensures { result.now ≡ tokens_in (trees_of args.now) }
{
    match args.split_first() {
        Some((arg, more)) => match arg {
            TypeArg::Names(tokens) => tokens.as_slice(),
            TypeArg::Constant(_) => tokens_in(more),
            TypeArg::Any => tokens_in(more),
            TypeArg::Param(_) => tokens_in(more),
            TypeArg::Spec(_) => tokens_in(more),
        },
        None => &[],
    }
}

/// The first specifier among arguments, and the arguments behind it.
pub fn next_spec(args: &[TypeArg]) -> Option<(&TypeSpec, &[TypeArg])>
    ensures { option_map (λ p. (p.0.now, trees_of p.1.now)) result ≡ next_spec (trees_of args.now) }
{
    match args.split_first() {
        Some((arg, more)) => match arg {
            TypeArg::Spec(spec) => Some((spec, more)),
            TypeArg::Constant(_) => next_spec(more),
            TypeArg::Any => next_spec(more),
            TypeArg::Param(_) => next_spec(more),
            TypeArg::Names(_) => next_spec(more),
        },
        None => None,
    }
}
