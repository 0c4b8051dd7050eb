//! Comparison of the arguments of two types of one kind.
ghost use Rattle.std.specs.Prelude.{◌≡◌, ◌↔◌, [], IsTrue};
ghost use Rattle.cl_syntax.specs.TypeSpec.{arg_tree_of};
ghost use Rattle.cl_lattice.specs.Arguments.{constants, given_by, tokens_in, trees_of, value_of, values_of};
ghost use Rattle.cl_lattice.specs.Subtypes.{all_among, all_tokens, is_high_within, is_low_within};
ghost use Rattle.cl_lattice.specs.SubtypeConstants.{is_placed};
ghost use Rattle.cl_lattice.specs.SubtypeWays.{IsLengthWithin};

use crate::arguments::{Bound, is_among, is_same, tokens_in, value_of};
use crate::atoms::is_token;
use cl_syntax::TypeArg;
use cl_value::Text;

/// Whether the first lower bound lies within the second.
pub(crate) fn is_low_within(low: Option<i64>, other: Option<i64>) -> bool
    ensures { result ≡ is_low_within low other }
{
    match (low, other) {
        (_, None) => true,
        (None, Some(_)) => false,
        (Some(low), Some(other)) => other <= low,
    }
}

/// Whether the first upper bound lies within the second.
pub(crate) fn is_high_within(high: Option<i64>, other: Option<i64>) -> bool
    ensures { result ≡ is_high_within high other }
{
    match (high, other) {
        (_, None) => true,
        (None, Some(_)) => false,
        (Some(high), Some(other)) => high <= other,
    }
}

/// Whether texts of the first length are all of the second.
pub(crate) fn is_length_within(length: Option<i64>, other: Option<i64>) -> bool
    ensures { IsTrue result ↔ IsLengthWithin length other }
{
    match (length, other) {
        (_, None) => true,
        (None, Some(_)) => false,
        (Some(length), Some(other)) => length == other,
    }
}

// Whether an argument, if it is a constant, is one of the constants among others.
fn is_placed<'a>(arg: &'a TypeArg, bound: &Bound<'a>, others: &[TypeArg]) -> bool
    ensures { result ≡ is_placed (value_of (given_by bound.now) (arg_tree_of arg.now)) (constants (values_of [] (trees_of others.now))) }
{
    match value_of(arg, bound) {
        Some(constant) => is_among(constant, others, &Bound::Nothing),
        None => true,
    }
}

/// Whether each constant among arguments is one of those among the others.
#[tactic(auto, using(crate::proofs::SubtypeConstantLemmas::first_placed))]
pub(crate) fn all_among<'a>(args: &'a [TypeArg], bound: &Bound<'a>, others: &[TypeArg]) -> bool
    ensures { result ≡ all_among (constants (values_of (given_by bound.now) (trees_of args.now))) (constants (values_of [] (trees_of others.now))) }
{
    for arg in args {
        if !is_placed(arg, bound, others) {
            return false;
        }
    }
    true
}

// Whether each of the first tokens is one of the second.
fn each_is_token(tokens: &[Text], others: &[Text]) -> bool
    ensures { result ≡ all_tokens tokens.now others.now }
{
    for token in tokens {
        if !is_token(others, token.as_slice()) {
            return false;
        }
    }
    true
}

/// Whether each token among arguments is one of those among the others.
pub(crate) fn all_tokens(args: &[TypeArg], others: &[TypeArg]) -> bool
    ensures { result ≡ all_tokens (tokens_in (trees_of args.now)) (tokens_in (trees_of others.now)) }
{
    each_is_token(tokens_in(args), tokens_in(others))
}

// Whether two arguments are the same constant, or neither is one.
#[tactic(auto, using(crate::proofs::SubtypeConstantLemmas::same_constant))]
fn same_value<'a>(arg: &'a TypeArg, bound: &Bound<'a>, other: &TypeArg) -> bool
    ensures { IsTrue result ↔ (value_of (given_by bound.now) (arg_tree_of arg.now) ≡ value_of [] (arg_tree_of other.now)) }
{
    match value_of(arg, bound) {
        Some(constant) => match value_of(other, &Bound::Nothing) {
            Some(other) => is_same(constant, other),
            None => false,
        },
        None => value_of(other, &Bound::Nothing).is_none(),
    }
}

/// Whether two lists of arguments have the same constants at the same places.
#[tactic(auto, using(crate::proofs::SubtypeConstantLemmas::same_more))]
pub(crate) fn same_values<'a>(args: &'a [TypeArg], bound: &Bound<'a>, others: &[TypeArg]) -> bool
    ensures { IsTrue result ↔ (values_of (given_by bound.now) (trees_of args.now) ≡ values_of [] (trees_of others.now)) }
{
    match args.split_first() {
        None => match others.split_first() {
            None => true,
            Some(_) => false,
        },
        Some((arg, args)) => match others.split_first() {
            None => false,
            Some((other, others)) => same_value(arg, bound, other)
                && same_values(args, bound, others),
        },
    }
}
