//! Declarations of types as texts have them.
use crate::specifiers::{names_in, specifier_in};
use cl_forms::{Datum, FormRefusal, name_in, symbol_of};
use cl_syntax::{
    CommandType, CommandTypes, HostBound, HostBounds, PlacedSpec, RecordDecl, Records, TypeDecl,
    TypeDecls, TypeSpec, TypeSpecs, UserTypes,
};
use cl_table::{Names, Table};
use cl_value::Text;
use std::alloc::Global;

/// The declarations of a text. Of two of one kind and one name the first counts.
#[derive(Drop)]
pub struct Declarations {
    pub records: Records,
    pub types: UserTypes,
    hosts: HostBounds,
    commands: CommandTypes,
    specs: Vec<PlacedSpec>,
}

impl Declarations {
    /// The declarations among outermost forms. Forms that declare no type and no command are left out.
    pub fn read(alloc: Global, forms: &[Datum]) -> Result<Declarations, FormRefusal> {
        let mut declared = Declarations::none(alloc);
        for form in forms {
            declared.add(alloc, form)?;
        }
        Ok(declared)
    }

    fn none(alloc: Global) -> Declarations {
        Declarations {
            records: Table::new(alloc),
            types: Table::new(alloc),
            hosts: Table::new(alloc),
            commands: Table::new(alloc),
            specs: Vec::new(alloc),
        }
    }

    /// The declarations as a lattice is built from them.
    pub fn decls(&self) -> TypeDecls<'_> {
        TypeDecls {
            records: &self.records,
            types: &self.types,
            hosts: &self.hosts,
            commands: &self.commands,
            specs: self.specs.as_slice(),
        }
    }

    // What an outermost form declares.
    fn add(&mut self, alloc: Global, form: &Datum) -> Result<(), FormRefusal> {
        match form.parts() {
            [] => Ok(()),
            [_] => Ok(()),
            [head, name, more @ ..] => self.add_named(alloc, form.offset(), head, name, more),
        }
    }

    // What a form with this head declares by this name.
    fn add_named(
        &mut self,
        alloc: Global,
        at: u32,
        head: &Datum,
        name: &Datum,
        more: &[Datum],
    ) -> Result<(), FormRefusal> {
        let Some(name) = name_in(name) else {
            return Ok(());
        };
        let head = symbol_of(head);
        if head == b"define-record".as_slice() {
            self.add_record(alloc, at, name, more)
        } else if head == b"define-presentation-type".as_slice() {
            self.add_type(alloc, at, name, more)
        } else if head == b"define-host-type".as_slice() {
            self.add_host(at, name)
        } else if head == b"define-command".as_slice() {
            self.add_command(alloc, at, name, more)
        } else {
            Ok(())
        }
    }

    fn add_record(
        &mut self,
        alloc: Global,
        at: u32,
        name: &Text,
        fields: &[Datum],
    ) -> Result<(), FormRefusal> {
        let fields = names_in(alloc, fields)?;
        let name = name.copy()?;
        self.records.add_first(RecordDecl { name, fields, at })?;
        Ok(())
    }

    fn add_type(
        &mut self,
        alloc: Global,
        at: u32,
        name: &Text,
        more: &[Datum],
    ) -> Result<(), FormRefusal> {
        let Some((parameters, keys)) = more.split_first() else {
            return Err(FormRefusal::Refused(6, at));
        };
        let inherit_from = self.inherited(alloc, parameters.parts(), keys)?;
        let declared = type_decl(alloc, at, name, parameters.parts(), inherit_from, keys)?;
        self.types.add_first(declared)?;
        Ok(())
    }

    // What a type with these parameters and keys inherits from, which is placed among all specifiers.
    fn inherited(
        &mut self,
        alloc: Global,
        parameters: &[Datum],
        keys: &[Datum],
    ) -> Result<TypeSpec, FormRefusal> {
        match behind_key(b":inherit-from", keys) {
            Some(inherited) => {
                let parameters = names_in(alloc, parameters)?;
                self.placed(alloc, inherited, parameters)
            }
            None => Ok(TypeSpec::plain(Text::from_slice(alloc, b"t")?)),
        }
    }

    // The specifier that a datum is, which is placed among all specifiers.
    fn placed(
        &mut self,
        alloc: Global,
        datum: &Datum,
        parameters: Names,
    ) -> Result<TypeSpec, FormRefusal> {
        let spec = specifier_in(alloc, datum, &parameters)?;
        let at = datum.offset();
        let copy = spec.copy()?;
        self.specs.push(PlacedSpec {
            spec,
            parameters,
            at,
        })?;
        Ok(copy)
    }

    // The shipped host types alone have bounds.
    fn add_host(&mut self, at: u32, name: &Text) -> Result<(), FormRefusal> {
        if let Some((low, high)) = host_bounds(name.as_slice()) {
            let name = name.copy()?;
            self.hosts.add_first(HostBound {
                name,
                low,
                high,
                at,
            })?;
        }
        Ok(())
    }

    fn add_command(
        &mut self,
        alloc: Global,
        at: u32,
        name: &Text,
        more: &[Datum],
    ) -> Result<(), FormRefusal> {
        let Some((arguments, _)) = more.split_first() else {
            return Err(FormRefusal::Refused(6, at));
        };
        let args = self.argument_types(alloc, arguments.parts())?;
        let name = name.copy()?;
        self.commands.add_first(CommandType { name, args, at })?;
        Ok(())
    }

    // The types of a command's arguments, each `(NAME SPECIFIER ...)`.
    fn argument_types(
        &mut self,
        alloc: Global,
        arguments: &[Datum],
    ) -> Result<TypeSpecs, FormRefusal> {
        let mut args = Vec::new(alloc);
        for argument in arguments {
            args.push(self.argument_type(alloc, argument)?)?;
        }
        Ok(TypeSpecs::from_vec(alloc, args)?)
    }

    fn argument_type(&mut self, alloc: Global, argument: &Datum) -> Result<TypeSpec, FormRefusal> {
        match argument.parts() {
            [_, spec, ..] => self.placed(alloc, spec, Names::new(alloc)),
            _ => Err(FormRefusal::Refused(6, argument.offset())),
        }
    }
}

fn type_decl(
    alloc: Global,
    at: u32,
    name: &Text,
    parameters: &[Datum],
    inherit_from: TypeSpec,
    keys: &[Datum],
) -> Result<TypeDecl, FormRefusal> {
    let satisfies = match behind_key(b":satisfies", keys) {
        Some(function) => name_copy(function)?,
        None => None,
    };
    Ok(TypeDecl {
        name: name.copy()?,
        parameters: names_in(alloc, parameters)?,
        inherit_from,
        satisfies,
        description: name.copy()?,
        at,
    })
}

fn name_copy(datum: &Datum) -> Result<Option<Text>, FormRefusal> {
    match name_in(datum) {
        Some(name) => Ok(Some(name.copy()?)),
        None => Ok(None),
    }
}

// What stands behind a key.
fn behind_key<'a>(key: &[u8], parts: &'a [Datum]) -> Option<&'a Datum> {
    let place = parts.iter().position(|part| symbol_of(part) == key)?;
    parts.get(place.saturating_add(1))
}

// The least and the greatest number of a shipped host type.
fn host_bounds(name: &[u8]) -> Option<(i64, i64)> {
    if name == b"weekday".as_slice() {
        Some((0, 6))
    } else if name == b"month".as_slice() {
        Some((1, 12))
    } else {
        None
    }
}
