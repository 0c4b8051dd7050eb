//! Building a lattice.
ghost use Rattle.std.specs.Prelude.{◌≡◌, IfOk};
ghost use Rattle.cl_lattice.specs.Building.{Builds, Finds, IsLatticeOf, IsSound};
ghost use Rattle.cl_lattice.specs.World.{world_of};

use crate::commands::copy_commands;
use crate::known_types::KnownTypes;
use crate::lattices::Lattice;
use crate::precedences::precedences;
use crate::rings::first_on_ring;
use crate::sizes::{first_large, first_large_type};
use cl_syntax::TypeDecls;
use std::alloc::{AllocError, Global};

/// Why a lattice was not built.
#[derive(Debug, Drop)]
pub enum BuildRefusal {
    /// User types mention each other in a ring: the offset of the first declaration on one.
    Cycle(u32),
    /// An expanded specifier is too large: its offset.
    Large(u32),
    /// Out of memory.
    Memory,
}

impl From<AllocError> for BuildRefusal {
    ghost use Rattle.std.specs.Prelude.{◌≡◌};
    ghost use Rattle.cl_lattice.specs.declared.building.BuildRefusal.TheVariants.{Memory};

    ghost from_gives = { λ _ e. e ≡ Memory };

    fn from(_: AllocError) -> BuildRefusal {
        BuildRefusal::Memory
    }
}

impl Lattice {
    /// The lattice of these declarations. It is refused where user types mention each other in a ring, or a specifier
    /// that stands in the text is past the limits.
    pub fn build<'a>(alloc: Global, decls: &TypeDecls<'a>) -> Result<Lattice, BuildRefusal>
        ensures { Builds result decls.now }
    {
        let known = KnownTypes::new(alloc, decls)?;
        check(alloc, &known, decls)?;
        Ok(lattice_of(alloc, known, decls)?)
    }
}

// The first refusal of these declarations.
fn check<'a>(
    alloc: Global,
    known: &KnownTypes<'a>,
    decls: &TypeDecls<'a>,
) -> Result<(), BuildRefusal>
    requires { known.now ≡ world_of decls.now }
    ensures { Finds result decls.now known.now }
{
    if let Some(at) = first_on_ring(alloc, known, decls.types)? {
        return Err(BuildRefusal::Cycle(at));
    }
    if let Some(at) = first_large(known, decls.specs) {
        return Err(BuildRefusal::Large(at));
    }
    if let Some(at) = first_large_type(known, decls.types) {
        return Err(BuildRefusal::Large(at));
    }
    Ok(())
}

// The lattice of types that are not refused.
fn lattice_of<'a>(
    alloc: Global,
    known: KnownTypes<'a>,
    decls: &TypeDecls<'a>,
) -> Result<Lattice, AllocError>
    requires world { known ≡ world_of decls.now }
    requires sound { IsSound decls.now known }
    ensures { IfOk result (IsLatticeOf decls.now) }
{
    let precedences = precedences(alloc, &known)?;
    let commands = copy_commands(alloc, known.commands)?;
    Ok(Lattice {
        types: known.types,
        commands,
        precedences,
    })
}
