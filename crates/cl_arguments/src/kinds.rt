//! What kinds of arguments there are, and which of them a standard type takes.
ghost use Rattle.std.specs.Prelude.{◌≡◌};
ghost use Rattle.cl_syntax.specs.TypeSpec.{arg_tree_of};
ghost use Rattle.cl_arguments.specs.Kinds.{is_bound, is_constant, is_length, kind_of, kind_of_constant, takes};
ghost use Rattle.cl_value.specs.Value.{data_of};

use cl_syntax::{StandardType, TypeArg};
use cl_value::Value;

/// What stands as an argument: a number, `*` or another constant.
#[derive(Clone, Copy, PartialEq, Eq, Hash)]
pub(crate) enum ArgumentKind {
    Number,
    /// A written `*`.
    Any,
    /// A constant that is no number.
    Constant,
}

/// The kind of an argument; `None` for a parameter and for what a type is made of.
pub(crate) fn kind_of(arg: &TypeArg) -> Option<ArgumentKind>
    ensures { result ≡ kind_of (arg_tree_of arg.now) }
{
    match arg {
        TypeArg::Constant(value) => Some(kind_of_constant(value)),
        TypeArg::Any => Some(ArgumentKind::Any),
        TypeArg::Param(_) => None,
        TypeArg::Spec(_) => None,
        TypeArg::Names(_) => None,
    }
}

fn kind_of_constant(value: &Value) -> ArgumentKind
    ensures { result ≡ kind_of_constant (data_of value.now) }
{
    match value {
        Value::Int(_) => ArgumentKind::Number,
        Value::Bool(_) => ArgumentKind::Constant,
        Value::Text(_) => ArgumentKind::Constant,
        Value::Symbol(_) => ArgumentKind::Constant,
        Value::Null => ArgumentKind::Constant,
        Value::List(_) => ArgumentKind::Constant,
        Value::Record(_, _) => ArgumentKind::Constant,
    }
}

/// Whether a standard type takes an argument of this kind.
pub(crate) fn takes(standard: StandardType, kind: ArgumentKind) -> bool
    ensures { result ≡ takes standard kind }
{
    match standard {
        StandardType::T => true,
        StandardType::Nil => true,
        StandardType::Boolean => true,
        StandardType::Integer => is_bound(kind),
        StandardType::String => is_length(kind),
        StandardType::Symbol => true,
        StandardType::Member => is_constant(kind),
        StandardType::Subset => is_constant(kind),
        StandardType::Sequence => true,
        StandardType::Or => true,
        StandardType::And => true,
        StandardType::NullOrType => true,
        StandardType::TokenOrType => true,
        StandardType::BlankArea => true,
        StandardType::Command => true,
        StandardType::DialogChoice => true,
    }
}

fn is_bound(kind: ArgumentKind) -> bool
    ensures { result ≡ is_bound kind }
{
    match kind {
        ArgumentKind::Number => true,
        ArgumentKind::Any => true,
        ArgumentKind::Constant => false,
    }
}

fn is_length(kind: ArgumentKind) -> bool
    ensures { result ≡ is_length kind }
{
    match kind {
        ArgumentKind::Number => true,
        ArgumentKind::Any => false,
        ArgumentKind::Constant => false,
    }
}

fn is_constant(kind: ArgumentKind) -> bool
    ensures { result ≡ is_constant kind }
{
    match kind {
        ArgumentKind::Number => true,
        ArgumentKind::Any => false,
        ArgumentKind::Constant => true,
    }
}
