//! What is put behind the names of types, in a specifier and in those that stand in its arguments.
ghost use Rattle.std.specs.Prelude.{◌≡◌, OnOk};
ghost use Rattle.cl_lattice.specs.Arguments.{trees_of};
ghost use Rattle.cl_syntax.specs.TypeSpec.{arg_tree_of};
ghost use Rattle.cl_arguments.specs.Probes.{in_parts, in_parts_all, in_parts_arg, is_parameter, put_at, puts_in};
ghost use Rattle.cl_arguments.specs.ProbeSearch.{kind_sought, found_in, with_probes};

use crate::found::Found;
use crate::kinds::{ArgumentKind, kind_of};
use crate::probes::{Probe, Put};
use cl_syntax::{TypeArg, TypeSpec};
use cl_value::Text;
use std::alloc::AllocError;

/// What is sought in a specifier.
#[derive(Drop)]
pub(crate) enum Sought {
    /// The types that are named, and the constants behind their names.
    Types,
    /// The places of a parameter, for which an argument of this kind stands.
    Parameter(Text, ArgumentKind),
}

/// Adds what is sought in a specifier and in those in its arguments.
#[cycle(add_parts)]
pub(crate) fn add_parts(
    spec: &TypeSpec,
    sought: &Sought,
    found: &mut Found,
) -> Result<(), AllocError>
    ensures { OnOk result
        (found.new ≡ with_probes (in_parts (found_in sought.now) spec.now) found.old) }
{
    add_own(spec, sought, found)?;
    add_parts_all(spec.args.as_slice(), sought, found)
}

#[cycle(add_parts)]
#[tactic(auto, using(crate::proofs::InParts::arg_nodes))]
fn add_parts_all(args: &[TypeArg], sought: &Sought, found: &mut Found) -> Result<(), AllocError>
    ensures { OnOk result
        (found.new
        ≡ with_probes (in_parts_all (found_in sought.now) (trees_of args.now)) found.old) }
{
    for arg in args {
        add_parts_arg(arg, sought, found)?;
    }
    Ok(())
}

#[cycle(add_parts)]
fn add_parts_arg(arg: &TypeArg, sought: &Sought, found: &mut Found) -> Result<(), AllocError>
    ensures { OnOk result
        (found.new
        ≡ with_probes (in_parts_arg (found_in sought.now) (arg_tree_of arg.now)) found.old) }
{
    match arg {
        TypeArg::Constant(_) => Ok(()),
        TypeArg::Any => Ok(()),
        TypeArg::Param(_) => Ok(()),
        TypeArg::Spec(spec) => add_parts(spec, sought, found),
        TypeArg::Names(_) => Ok(()),
    }
}

/// Adds what is sought in a specifier alone.
pub(crate) fn add_own(spec: &TypeSpec, sought: &Sought, found: &mut Found) -> Result<(), AllocError>
    ensures { OnOk result (found.new ≡ with_probes (found_in sought.now spec.now) found.old) }
{
    match sought {
        Sought::Types => {
            let name = spec.name.text().copy()?;
            found.add(Probe { name, put: None })?;
            add_puts(spec, sought, found)
        }
        Sought::Parameter(_, _) => add_puts(spec, sought, found),
    }
}

#[tactic(auto, using(crate::proofs::InParts::probes_in_turn))]
fn add_puts(spec: &TypeSpec, sought: &Sought, found: &mut Found) -> Result<(), AllocError>
    ensures { OnOk result
        (found.new ≡ with_probes (puts_in (kind_sought sought.now) spec.now) found.old) }
{
    for (place, arg) in spec.args.as_slice().iter().enumerate() {
        add_put(spec.name.text(), place, kind_sought(sought, arg), found)?;
    }
    Ok(())
}

fn add_put(
    name: &Text,
    place: usize,
    kind: Option<ArgumentKind>,
    found: &mut Found,
) -> Result<(), AllocError>
    ensures { OnOk result (found.new ≡ with_probes (put_at name.now place kind) found.old) }
{
    match kind {
        Some(kind) => found.add(Probe {
            name: name.copy()?,
            put: Some(Put { place, kind }),
        }),
        None => Ok(()),
    }
}

fn kind_sought(sought: &Sought, arg: &TypeArg) -> Option<ArgumentKind>
    ensures { result ≡ kind_sought sought.now (arg_tree_of arg.now) }
{
    match sought {
        Sought::Types => kind_of(arg),
        Sought::Parameter(parameter, kind) => {
            if is_parameter(parameter, arg) {
                Some(*kind)
            } else {
                None
            }
        }
    }
}

fn is_parameter(parameter: &Text, arg: &TypeArg) -> bool
    ensures { result ≡ is_parameter parameter.now (arg_tree_of arg.now) }
{
    match arg {
        TypeArg::Constant(_) => false,
        TypeArg::Any => false,
        TypeArg::Param(name) => parameter.as_slice() == name.as_slice(),
        TypeArg::Spec(_) => false,
        TypeArg::Names(_) => false,
    }
}
