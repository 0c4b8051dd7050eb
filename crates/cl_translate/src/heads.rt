//! The heads of specifiers.
ghost use Rattle.std.specs.Prelude.{◌≡◌};
ghost use Rattle.cl_lattice.specs.Arguments.{trees_of};
ghost use Rattle.cl_translate.specs.Heads.{heads, heads_of_all, heads_of_first, is_listed, some_listed};

use cl_syntax::{StandardType, TypeArg, TypeSpec};
use cl_value::Text;

/// Whether a head of a specifier stands in a precedence list.
#[cycle(heads)]
pub(crate) fn has_head(spec: &TypeSpec, names: &[Text]) -> bool
    ensures { result ≡ some_listed names.now (heads spec.now) }
{
    let name = spec.name.as_slice();
    let args = spec.args.as_slice();
    match spec.name.standard() {
        Some(StandardType::Or) => some_has_head(args, names),
        Some(StandardType::And) => first_has_head(args, names),
        Some(StandardType::NullOrType) => is_listed(name, names) || first_has_head(args, names),
        Some(StandardType::TokenOrType) => is_listed(name, names) || first_has_head(args, names),
        _ => is_listed(name, names),
    }
}

// Whether one of the parts has such a head.
#[cycle(heads)]
fn some_has_head(args: &[TypeArg], names: &[Text]) -> bool
    ensures { result ≡ some_listed names.now (heads_of_all (trees_of args.now)) }
{
    let Some((arg, more)) = args.split_first() else {
        return false;
    };
    match arg {
        TypeArg::Constant(_) => some_has_head(more, names),
        TypeArg::Any => some_has_head(more, names),
        TypeArg::Param(_) => some_has_head(more, names),
        TypeArg::Spec(spec) => has_head(spec, names) || some_has_head(more, names),
        TypeArg::Names(_) => some_has_head(more, names),
    }
}

// Whether the first part has such a head.
#[cycle(heads)]
fn first_has_head(args: &[TypeArg], names: &[Text]) -> bool
    ensures { result ≡ some_listed names.now (heads_of_first (trees_of args.now)) }
{
    let Some((arg, more)) = args.split_first() else {
        return false;
    };
    match arg {
        TypeArg::Constant(_) => first_has_head(more, names),
        TypeArg::Any => first_has_head(more, names),
        TypeArg::Param(_) => first_has_head(more, names),
        TypeArg::Spec(spec) => has_head(spec, names),
        TypeArg::Names(_) => first_has_head(more, names),
    }
}

// Whether a name stands in a precedence list.
fn is_listed(name: &[u8], names: &[Text]) -> bool
    ensures { result ≡ is_listed names.now name.now }
{
    names.iter().any(|other| name == other.as_slice())
}
