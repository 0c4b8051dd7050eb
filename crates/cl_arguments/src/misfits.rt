//! The first specifier with an argument that comes to stand where it is not taken.
ghost use Rattle.std.specs.Prelude.{◌≡◌, ◌↔◌, IfOk, IsTrue, OnOk, option_map};
ghost use Rattle.cl_lattice.specs.Firsts.{IsFirst};
ghost use Rattle.cl_arguments.specs.Misfits.{IsMisfit, Misfits, next, user_type};
ghost use Rattle.cl_arguments.specs.ProbeSearch.{AreClear, StaysClear, with_probes};

use crate::found::Found;
use crate::parts::{Sought, add_own, add_parts};
use crate::probes::Probe;
use cl_syntax::{PlacedSpec, TypeDecl, TypeSpec, UserTypes, standard_named};
use cl_value::Text;
use std::alloc::{AllocError, Global};

/// The offset of the first specifier with an argument that comes to stand where it is not taken. It looks once
/// at what comes to stand behind a name, however many specifiers lead to it.
pub fn first_misfit(
    alloc: Global,
    types: &UserTypes,
    specs: &[PlacedSpec],
) -> Result<Option<u32>, AllocError>
    ensures { IfOk result (IsFirst (IsMisfit types.now) (λ p. p.at) specs.now) }
{
    let mut found = Found::new(alloc);
    for placed in specs {
        if misfits(types, &placed.spec, &mut found)? {
            return Ok(Some(placed.at));
        }
    }
    Ok(None)
}

/// Whether an argument of the specifier comes to stand where it is not taken. What was found before does not,
/// and is not looked at again.
fn misfits(types: &UserTypes, spec: &TypeSpec, found: &mut Found) -> Result<bool, AllocError>
    requires { AreClear types.now found.old }
    ensures misfits { IfOk result (λ b. IsTrue b ↔ Misfits types.now spec.now) }
    ensures clear { IfOk result (StaysClear types.now found.new) }
{
    let mut place = found.len();
    add_own(spec, &Sought::Types, found)?;
    while place < found.len() {
        let Some(probe) = found.at(place) else {
            unreachable!()
        };
        if probe.is_wrong() {
            return Ok(true);
        }
        let probe = probe.copy()?;
        add_next(types, &probe, found)?;
        place += 1;
    }
    Ok(false)
}

/// Adds what comes to stand elsewhere by what stands behind the name of a type.
fn add_next(types: &UserTypes, probe: &Probe, found: &mut Found) -> Result<(), AllocError>
    ensures { OnOk result (found.new ≡ with_probes (next types.now probe.now) found.old) }
{
    let Some(decl) = user_type(types, &probe.name) else {
        return Ok(());
    };
    match probe.put {
        None => add_parts(&decl.inherit_from, &Sought::Types, found),
        Some(put) => match decl.parameters.as_slice().get(put.place) {
            Some(parameter) => {
                let sought = Sought::Parameter(parameter.copy()?, put.kind);
                add_parts(&decl.inherit_from, &sought, found)
            }
            None => Ok(()),
        },
    }
}

/// The user type of a name that is none of a standard type.
fn user_type<'a>(types: &'a UserTypes, name: &Text) -> Option<&'a TypeDecl>
    ensures { option_map (λ d. d.now) result ≡ user_type types.now name.now }
{
    match standard_named(name.as_slice()) {
        Some(_) => None,
        None => types.get(name.as_slice()),
    }
}
