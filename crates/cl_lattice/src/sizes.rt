//! The sizes of specifiers.
ghost use Rattle.std.specs.Prelude.{◌≡◌, option_map};
ghost use Rattle.cl_lattice.specs.Arguments.{trees_of};
ghost use Rattle.cl_lattice.specs.Budgets.{left};
ghost use Rattle.cl_lattice.specs.Firsts.{InheritsTooMuch, IsFirst, IsTooLarge, is_past, offset_of};
ghost use Rattle.cl_lattice.specs.Sizes.{fits, inherited_size, nodes_within, sized_arg, sized_args};
ghost use Rattle.cl_syntax.specs.TypeSpec.{arg_tree_of};

use crate::known_types::KnownTypes;
use cl_syntax::{PlacedSpec, TypeArg, TypeSpec, UserTypes};

/// How many names may stand one inside another.
const MOST_DEPTH: u32 = 8;
/// How many nodes a specifier may have.
const MOST_NODES: usize = 256;

/// Whether a specifier is within the limits. It looks at no more nodes than a specifier may have.
pub(crate) fn fits<'a>(known: &KnownTypes<'a>, spec: &TypeSpec) -> bool
    ensures { result ≡ fits known.now spec.now }
{
    left_after(known, MOST_DEPTH, spec, MOST_NODES).is_some()
}

/// The offset of the first placed specifier that is past the limits.
pub(crate) fn first_large<'a>(known: &KnownTypes<'a>, specs: &[PlacedSpec]) -> Option<u32>
    ensures { IsFirst (IsTooLarge known.now) (λ p. p.at) specs.now result }
{
    for placed in specs {
        if !fits(known, &placed.spec) {
            return Some(placed.at);
        }
    }
    None
}

/// The offset of the first declaration of a user type that inherits from a specifier past the limits.
pub(crate) fn first_large_type<'a>(known: &KnownTypes<'a>, types: &UserTypes) -> Option<u32>
    ensures { IsFirst (InheritsTooMuch known.now) offset_of types.now result }
{
    for place in 0..types.len() {
        let Some(decl) = types.at(place) else {
            unreachable!()
        };
        if is_past(known, known.inherited(decl.name.as_slice())) {
            return Some(decl.at);
        }
    }
    None
}

fn is_past<'a>(known: &KnownTypes<'a>, spec: Option<&TypeSpec>) -> bool
    ensures { result ≡ is_past known.now (option_map (λ s. s.now) spec.entry) }
{
    match spec {
        Some(spec) => !fits(known, spec),
        None => false,
    }
}

// What is left of a number of nodes after a specifier that nests at most so many names one inside another.
#[cycle(left_after)]
fn left_after<'a>(
    known: &KnownTypes<'a>,
    depth: u32,
    spec: &TypeSpec,
    nodes: usize,
) -> Option<usize>
    ensures { result ≡ left (nodes_within depth known.now spec.now) nodes }
{
    if depth == 0 {
        return None;
    }
    let nodes = nodes.checked_sub(1)?;
    let nodes = left_after_args(known, depth - 1, spec.args.as_slice(), nodes)?;
    left_after_inherited(known, depth - 1, known.inherited_by(&spec.name), nodes)
}

#[cycle(left_after)]
fn left_after_args<'a>(
    known: &KnownTypes<'a>,
    depth: u32,
    args: &[TypeArg],
    mut nodes: usize,
) -> Option<usize>
    ensures { result ≡ left (sized_args (nodes_within depth known.now) (trees_of args.now)) nodes }
{
    for arg in args {
        nodes = left_after_arg(known, depth, arg, nodes)?;
    }
    Some(nodes)
}

#[cycle(left_after)]
fn left_after_arg<'a>(
    known: &KnownTypes<'a>,
    depth: u32,
    arg: &TypeArg,
    nodes: usize,
) -> Option<usize>
    ensures { result ≡ left (sized_arg (nodes_within depth known.now) (arg_tree_of arg.now)) nodes }
{
    match arg {
        TypeArg::Constant(_) => nodes.checked_sub(1),
        TypeArg::Any => nodes.checked_sub(1),
        TypeArg::Param(_) => nodes.checked_sub(1),
        TypeArg::Spec(spec) => left_after(known, depth, spec, nodes),
        TypeArg::Names(names) => nodes.checked_sub(names.len()),
    }
}

// What is left after what a user type inherits from.
#[cycle(left_after)]
fn left_after_inherited<'a>(
    known: &KnownTypes<'a>,
    depth: u32,
    spec: Option<&TypeSpec>,
    nodes: usize,
) -> Option<usize>
    ensures { result
        ≡ left (inherited_size (nodes_within depth known.now) (option_map (λ s. s.now) spec.entry)) nodes }
{
    match spec {
        Some(spec) => left_after(known, depth, spec, nodes),
        None => Some(nodes),
    }
}
