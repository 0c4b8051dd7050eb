//! The lattice of the types that a text declares.
ghost use Rattle.std.specs.Prelude.{◌≡◌, IfOk, is_some};
ghost use Rattle.cl_load.specs.Settling.{BuildsTypes, Fits};
ghost use Rattle.cl_load.specs.Types.{argument_types, command_type, command_types, first_missing, host_bound, host_bounds};

use cl_application::{ArgumentDecls, CommandDecl, Commands, HostDecl, HostDecls};
use cl_arguments::first_misfit;
use cl_declare::Declarations;
use cl_expressions::Notes;
use cl_forms::FormRefusal;
use cl_lattice::{BuildRefusal, Lattice};
use cl_ptext::Hosts;
use cl_syntax::{CommandType, CommandTypes, HostBound, HostBounds, TypeDecls, TypeSpecs};
use std::alloc::{AllocError, Global};

/// The lattice of the types that are declared, on these host types; or the first of refusals 9, 6 for an
/// argument that comes to stand where it is not taken, and 13, in this order.
#[tactic(auto, using(crate::proofs::TypeLemmas::types_built, crate::proofs::TypeLemmas::types_large, crate::proofs::TypeLemmas::types_misfit, crate::proofs::TypeLemmas::types_ring, crate::proofs::TypeLemmas::world_is))]
pub fn build_types<H: Hosts>(
    alloc: Global,
    hosts: &H,
    declarations: &Declarations,
    notes: &Notes,
) -> Result<Lattice, FormRefusal>
    ensures { BuildsTypes result (H.bounds hosts.now) declarations.now notes.now }
{
    let bounds = host_bounds(alloc, hosts, &declarations.hosts)?;
    let commands = command_types(alloc, &declarations.commands)?;
    let decls = TypeDecls {
        records: &declarations.records,
        types: &declarations.types,
        hosts: &bounds,
        commands: &commands,
        specs: notes.specifiers(),
    };
    let misfit = first_misfit(alloc, decls.types, decls.specs)?;
    match Lattice::build(alloc, &decls) {
        Ok(lattice) => fitting(lattice, misfit),
        Err(BuildRefusal::Cycle(at)) => Err(FormRefusal::Refused(9, at)),
        Err(BuildRefusal::Large(at)) => match misfit {
            Some(misfit_at) => Err(FormRefusal::Refused(6, misfit_at)),
            None => Err(FormRefusal::Refused(13, at)),
        },
        Err(BuildRefusal::Memory) => Err(FormRefusal::Memory),
    }
}

/// The lattice, where no argument comes to stand where it is not taken.
fn fitting(lattice: Lattice, misfit: Option<u32>) -> Result<Lattice, FormRefusal>
    ensures { Fits result lattice misfit }
{
    match misfit {
        Some(at) => Err(FormRefusal::Refused(6, at)),
        None => {
            lattice.all_fit();
            Ok(lattice)
        }
    }
}

/// The host types of a text with their bounds.
fn host_bounds<H: Hosts>(
    alloc: Global,
    hosts: &H,
    decls: &HostDecls,
) -> Result<HostBounds, AllocError>
    ensures { IfOk result (λ b. b ≡ host_bounds (H.bounds hosts.now) decls.now) }
{
    let mut bounds = HostBounds::new(alloc);
    decls.is_table();
    for place in 0..decls.len() {
        let Some(decl) = decls.at(place) else {
            unreachable!()
        };
        bounds.add_first(host_bound(hosts, decl)?)?;
    }
    Ok(bounds)
}

/// A host type of a text with its bounds, where there is such a host type.
fn host_bound<H: Hosts>(hosts: &H, decl: &HostDecl) -> Result<HostBound, AllocError>
    ensures { IfOk result (λ b. b ≡ host_bound (H.bounds hosts.now) decl.now) }
{
    let (low, high) = match hosts.bounds(decl.name.as_slice()) {
        Some(bounds) => bounds,
        None => (0, 0),
    };
    Ok(HostBound {
        name: decl.name.copy()?,
        low,
        high,
        at: decl.at,
    })
}

/// The commands with the types of their arguments.
fn command_types(alloc: Global, commands: &Commands) -> Result<CommandTypes, AllocError>
    ensures { IfOk result (λ c. c ≡ command_types commands.now) }
{
    let mut types = CommandTypes::new(alloc);
    commands.is_table();
    for place in 0..commands.len() {
        let Some(command) = commands.at(place) else {
            unreachable!()
        };
        types.add_first(command_type(alloc, command)?)?;
    }
    Ok(types)
}

/// A command with the types of its arguments.
fn command_type(alloc: Global, command: &CommandDecl) -> Result<CommandType, AllocError>
    ensures { IfOk result (λ c. c ≡ command_type command.now) }
{
    Ok(CommandType {
        name: command.name.copy()?,
        args: argument_types(alloc, &command.arguments)?,
        at: command.at,
    })
}

/// The types of arguments.
#[tactic(auto, using(crate::proofs::TypeLemmas::types_more))]
fn argument_types(alloc: Global, arguments: &ArgumentDecls) -> Result<TypeSpecs, AllocError>
    ensures { IfOk result (λ s. s ≡ argument_types arguments.now) }
{
    let mut specs = Vec::new(alloc);
    for place in 0..arguments.len() {
        let Some(argument) = arguments.at(place) else {
            unreachable!()
        };
        specs.push(argument.spec.copy()?)?;
    }
    TypeSpecs::from_vec(alloc, specs)
}

/// The offset of the first declaration of a host type of which there is none.
pub fn first_missing<H: Hosts>(hosts: &H, decls: &HostDecls) -> Option<u32>
    ensures { result ≡ first_missing (H.bounds hosts.now) decls.now }
{
    for place in 0..decls.len() {
        let Some(decl) = decls.at(place) else {
            unreachable!()
        };
        if !is_there(hosts, decl) {
            return Some(decl.at);
        }
    }
    None
}

/// Whether there is a host type of this name.
fn is_there<H: Hosts>(hosts: &H, decl: &HostDecl) -> bool
    ensures { result ≡ is_some (H.bounds hosts.now decl.now.name) }
{
    hosts.bounds(decl.name.as_slice()).is_some()
}
