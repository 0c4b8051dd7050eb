//! User types and host types, as forms declare them.
ghost use Rattle.std.specs.Prelude.{◌≡◌, Ok, IfOk, None, map};
ghost use Rattle.cl_forms.specs.Datum.{offset};
ghost use Rattle.cl_forms.specs.DatumView.{datum_of};
ghost use Rattle.cl_forms.specs.KeyedView.{keyed_of};
ghost use Rattle.cl_forms.specs.Naming.{name_in};
ghost use Rattle.cl_expressions.specs.Load.{Gives, Notes as Noted, itself};
ghost use Rattle.cl_expressions.specs.Leaves.{Leaves};
ghost use Rattle.cl_declare.specs.Types.{note_function, note_predicate, or_everything, parse_host_type, parse_inherited, parse_type_key, parse_type_keys, parse_user_type};

use crate::names::names_in;
use crate::type_shapes::{TYPE_KEYS, type_shape};
use cl_application::HostDecl;
use cl_bodies::parse_type;
use cl_expressions::{Notes, Reader};
use cl_forms::{Datum, FormRefusal, Key, Keyed, keyed_pairs, name_in, symbol_text};
use cl_syntax::{TypeDecl, TypeSpec};
use cl_table::Names;
use cl_value::Text;
use std::alloc::{AllocError, Global};

/// `(define-presentation-type NAME (PARAMETER ...) KEY VALUE ...)`
pub fn parse_user_type(
    reader: &Reader,
    at: u32,
    parts: &[Datum],
    notes: &mut Notes,
) -> Result<TypeDecl, FormRefusal>
    ensures { Gives itself result notes.new
        (parse_user_type reader.now.signatures.now at (map datum_of parts.now) notes.old) }
{
    match parts {
        [] => Err(FormRefusal::Refused(6, at)),
        [_] => Err(FormRefusal::Refused(6, at)),
        [name, parameters, keys @ ..] => {
            let Some(keys) = keyed_pairs(reader.alloc, &TYPE_KEYS, keys)? else {
                return Err(FormRefusal::Refused(6, at));
            };
            let shape = type_shape(reader.signatures, name, parameters, keys.as_slice())?;
            let Some(shape) = shape else {
                return Err(FormRefusal::Refused(6, at));
            };
            let parameters = names_in(reader.alloc, parameters.parts())?;
            let inherited = parse_type_keys(reader, &parameters, keys.as_slice(), notes)?;
            let inherit_from = or_everything(reader.alloc, inherited)?;
            Ok(TypeDecl {
                name: shape.name,
                parameters,
                inherit_from,
                satisfies: shape.satisfies,
                description: shape.description,
                at,
            })
        }
    }
}

/// The type, or `t` where none is given.
fn or_everything(alloc: Global, inherited: Option<TypeSpec>) -> Result<TypeSpec, AllocError>
    ensures { IfOk result (λ t. t ≡ or_everything inherited) }
{
    match inherited {
        Some(spec) => Ok(spec),
        None => Ok(TypeSpec::plain(Text::from_slice(alloc, b"t")?)),
    }
}

/// What a user type inherits from, with these parameters. What is not declared is noted.
fn parse_type_keys(
    reader: &Reader,
    parameters: &Names,
    keys: &[Keyed],
    notes: &mut Notes,
) -> Result<Option<TypeSpec>, FormRefusal>
    ensures { Gives itself result notes.new
        (parse_type_keys reader.now.signatures.now parameters.now (map keyed_of keys.now) None notes.old) }
{
    let mut inherited = None;
    for key in keys {
        parse_type_key(reader, parameters, key, &mut inherited, notes)?;
    }
    Ok(inherited)
}

fn parse_type_key(
    reader: &Reader,
    parameters: &Names,
    key: &Keyed,
    inherited: &mut Option<TypeSpec>,
    notes: &mut Notes,
) -> Result<(), FormRefusal>
    ensures { Leaves result inherited.new notes.new
        (parse_type_key reader.now.signatures.now parameters.now (keyed_of key.now) inherited.old notes.old) }
{
    match key.key {
        Key::InheritFrom => parse_inherited(reader, parameters, key.values, inherited, notes),
        Key::Satisfies => {
            note_predicate(reader, key.values, notes);
            Ok(())
        }
        Key::Size => Ok(()),
        Key::Slots => Ok(()),
        Key::Panes => Ok(()),
        Key::CommandTable => Ok(()),
        Key::Name => Ok(()),
        Key::Keystroke => Ok(()),
        Key::Description => Ok(()),
        Key::Separator => Ok(()),
        Key::SingleBox => Ok(()),
        Key::Default => Ok(()),
        Key::Prompt => Ok(()),
        Key::Gesture => Ok(()),
        Key::Priority => Ok(()),
        Key::Documentation => Ok(()),
        Key::Tester => Ok(()),
        Key::UniqueId => Ok(()),
        Key::CacheValue => Ok(()),
        Key::Command => Ok(()),
        Key::Pane => Ok(()),
        Key::When => Ok(()),
        Key::Else => Ok(()),
    }
}

fn parse_inherited(
    reader: &Reader,
    parameters: &Names,
    values: &[Datum],
    inherited: &mut Option<TypeSpec>,
    notes: &mut Notes,
) -> Result<(), FormRefusal>
    ensures { Leaves result inherited.new notes.new
        (parse_inherited reader.now.signatures.now parameters.now (map datum_of values.now) inherited.old notes.old) }
{
    match values {
        [] => Ok(()),
        [spec, ..] => {
            *inherited = Some(parse_type(reader, parameters, spec, notes)?);
            Ok(())
        }
    }
}

fn note_predicate(reader: &Reader, values: &[Datum], notes: &mut Notes)
    ensures { note_predicate reader.now.signatures.now (map datum_of values.now) notes.old
        ≡ Ok (tt, notes.new) }
{
    match values {
        [] => (),
        [function, ..] => note_function(reader, function, notes),
    }
}

fn note_function(reader: &Reader, function: &Datum, notes: &mut Notes)
    ensures { note_function reader.now.signatures.now (offset (datum_of function.now))
        (name_in (datum_of function.now)) notes.old ≡ Ok (tt, notes.new) }
{
    if let Some(name) = name_in(function) {
        notes.note(
            reader.signatures.function(name.as_slice()).is_some(),
            function.offset(),
        );
    }
}

/// `(define-host-type NAME)`
#[tactic(auto, using(crate::proofs::DeclarationCounts::host_type_counts))]
pub fn parse_host_type(alloc: Global, at: u32, parts: &[Datum]) -> Result<HostDecl, FormRefusal>
    ensures { (n : Noted) → Gives itself result n (parse_host_type at (map datum_of parts.now) n) }
{
    match parts {
        [name] => {
            if name_in(name).is_none() {
                return Err(FormRefusal::Refused(6, at));
            }
            Ok(HostDecl {
                name: symbol_text(alloc, name)?,
                at,
            })
        }
        [] => Err(FormRefusal::Refused(6, at)),
        [_, _, ..] => Err(FormRefusal::Refused(6, at)),
    }
}
