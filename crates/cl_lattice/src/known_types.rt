//! The types that an application declares, by name.
ghost use Rattle.std.specs.Prelude.{◌≡◌, IfOk, OnOk, map, option_map};
ghost use Rattle.cl_lattice.specs.RingSearch.{inherited};
ghost use Rattle.cl_lattice.specs.Sizes.{inherited_by};
ghost use Rattle.cl_lattice.specs.World.{host_entry, kind_named, record_entry, user_entry, with_all, world_of};
ghost use Rattle.cl_syntax.specs.StandardTypes.{standard_named};

use crate::declared_types::{DeclaredType, DeclaredTypes, TypeKind, UserType};
use cl_syntax::{
    CommandTypes, HostBound, HostBounds, RecordDecl, Records, StandardType, TypeDecl, TypeDecls,
    TypeName, TypeSpec, UserTypes, copy_names, standard_named,
};
use cl_table::Table;
use std::alloc::{AllocError, Global};
use std::marker::Model;

/// The types and the commands that an application declares, seen as its `World`. Nothing is known of their sizes.
#[derive(Drop)]
pub(crate) struct KnownTypes<'a> {
    pub(crate) types: DeclaredTypes,
    pub(crate) commands: &'a CommandTypes,
}

impl<'a> Model for KnownTypes<'a> {
    ghost use Rattle.std.specs.Coded.{codes};
    ghost use Rattle.cl_syntax.specs.TypeSpecTreeCode.{coded_type_spec_tree};
    ghost use Rattle.cl_lattice.specs.World.{World};

    ghost Value = { World };

    ghost coded = { Prim.hlevel (codes, coded_type_spec_tree) };

    ghost view = { λ k. record { types = k.types; commands = k.commands.now } };
}

impl<'a> KnownTypes<'a> {
    /// The types of these declarations. It fails where memory is wanting.
    pub(crate) fn new(alloc: Global, decls: &TypeDecls<'a>) -> Result<KnownTypes<'a>, AllocError>
        ensures { IfOk result (λ k. k ≡ world_of decls.now) }
    {
        let mut types = Table::new(alloc);
        add_records(decls.records, &mut types)?;
        add_user_types(alloc, decls.types, &mut types)?;
        add_hosts(decls.hosts, &mut types)?;
        Ok(KnownTypes {
            types,
            commands: decls.commands,
        })
    }

    /// What a name stands for that is none of a standard type.
    pub(crate) fn kind(&self, name: &[u8]) -> Option<&TypeKind>
        ensures { option_map (λ k. k.now) result ≡ kind_named name.now self.now }
    {
        match self.types.get(name) {
            Some(declared) => Some(&declared.kind),
            None => None,
        }
    }

    /// What the user type of a name inherits from; `None` for every other name.
    pub(crate) fn inherited_by(&self, name: &TypeName) -> Option<&TypeSpec>
        ensures { option_map (λ s. s.now) result
            ≡ inherited_by (standard_named name.now) (kind_named name.now self.now) }
    {
        self.inherited_under(name.standard(), name.as_slice())
    }

    /// The same for the bytes of a name.
    pub(crate) fn inherited(&self, name: &[u8]) -> Option<&TypeSpec>
        ensures { option_map (λ s. s.now) result ≡ inherited self.now name.now }
    {
        self.inherited_under(standard_named(name), name)
    }

    /// The same for a name whose standard type is known.
    pub(crate) fn inherited_under(
        &self,
        standard: Option<StandardType>,
        name: &[u8],
    ) -> Option<&TypeSpec>
        ensures { option_map (λ s. s.now) result ≡ inherited_by standard (kind_named name.now self.now) }
    {
        match standard {
            Some(_) => None,
            None => match self.kind(name) {
                Some(TypeKind::User(user)) => Some(&user.inherit_from),
                Some(TypeKind::Record) => None,
                Some(TypeKind::Host(_, _)) => None,
                None => None,
            },
        }
    }
}

// Adds the record types behind the others.
fn add_records(records: &Records, types: &mut DeclaredTypes) -> Result<(), AllocError>
    ensures { OnOk result (types.new ≡ with_all (map record_entry records.now) types.old) }
{
    for place in 0..records.len() {
        let Some(decl) = records.at(place) else {
            unreachable!()
        };
        types.add_first(record_type(decl)?)?;
    }
    Ok(())
}

// The record type of a declaration.
fn record_type(decl: &RecordDecl) -> Result<DeclaredType, AllocError>
    ensures { IfOk result (λ t. t ≡ record_entry (decl.now.name, decl.now)) }
{
    Ok(DeclaredType {
        name: decl.name.copy()?,
        kind: TypeKind::Record,
    })
}

// Adds the host types behind the others.
fn add_hosts(hosts: &HostBounds, types: &mut DeclaredTypes) -> Result<(), AllocError>
    ensures { OnOk result (types.new ≡ with_all (map host_entry hosts.now) types.old) }
{
    for place in 0..hosts.len() {
        let Some(decl) = hosts.at(place) else {
            unreachable!()
        };
        types.add_first(host_type(decl)?)?;
    }
    Ok(())
}

// The host type of a declaration.
fn host_type(decl: &HostBound) -> Result<DeclaredType, AllocError>
    ensures { IfOk result (λ t. t ≡ host_entry (decl.now.name, decl.now)) }
{
    Ok(DeclaredType {
        name: decl.name.copy()?,
        kind: TypeKind::Host(decl.low, decl.high),
    })
}

// Adds the user types behind the others.
fn add_user_types(
    alloc: Global,
    decls: &UserTypes,
    types: &mut DeclaredTypes,
) -> Result<(), AllocError>
    ensures { OnOk result (types.new ≡ with_all (map user_entry decls.now) types.old) }
{
    for place in 0..decls.len() {
        let Some(decl) = decls.at(place) else {
            unreachable!()
        };
        types.add_first(user_type(alloc, decl)?)?;
    }
    Ok(())
}

// The user type of a declaration.
fn user_type(alloc: Global, decl: &TypeDecl) -> Result<DeclaredType, AllocError>
    ensures { IfOk result (λ t. t ≡ user_entry (decl.now.name, decl.now)) }
{
    let satisfies = match &decl.satisfies {
        Some(function) => Some(function.copy()?),
        None => None,
    };
    Ok(DeclaredType {
        name: decl.name.copy()?,
        kind: TypeKind::User(UserType {
            parameters: copy_names(alloc, &decl.parameters)?,
            inherit_from: decl.inherit_from.copy()?,
            satisfies,
        }),
    })
}
