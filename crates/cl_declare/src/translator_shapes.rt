//! The shape of a translator, but for the forms in it.
ghost use Rattle.std.specs.Prelude.{◌≡◌, IfOk, map, option_map};
ghost use Rattle.cl_forms.specs.DatumView.{datum_of};
ghost use Rattle.cl_forms.specs.KeyedView.{keyed_of};
ghost use Rattle.cl_declare.specs.TranslatorShapes.{command_in, gesture_behind, gesture_named, keys_said, priority_alone, priority_behind, priority_of, translator_shape};
ghost use Rattle.cl_declare.specs.TranslatorView.{form_of};

use crate::command_tables::table_or_global;
use crate::frames::number_in;
use crate::translator_forms::TranslatorForm;
use crate::type_shapes::{name_alone, name_behind};
use cl_bodies::text_behind;
use cl_forms::{Datum, Key, Keyed, name_in, values_of};
use cl_translators::GestureName;
use cl_value::Text;
use std::alloc::{AllocError, Global};

/// The keys that a translator may have.
pub const TRANSLATOR_KEYS: [Key; 5] = [
    Key::CommandTable,
    Key::Gesture,
    Key::Priority,
    Key::Documentation,
    Key::Tester,
];

/// What a translator gives: an object of its to-type, or a command.
#[derive(Clone, Copy)]
pub enum TranslatorKind {
    Object,
    Command,
}

/// What the keys of a translator say, beside its tester.
#[derive(Drop)]
pub struct TranslatorKeys {
    pub table: Text,
    pub gesture: GestureName,
    pub priority: u8,
    pub documentation: Text,
}

/// What a translator is, but for its types, its tester and its body.
#[derive(Drop)]
pub struct TranslatorShape {
    pub name: Text,
    pub command: Option<Text>,
    pub parameter: Text,
    pub keys: TranslatorKeys,
}

/// The name, the command, the parameter and what the keys say; None where the translator is wrong by itself.
pub fn translator_shape(
    alloc: Global,
    kind: TranslatorKind,
    form: TranslatorForm<'_>,
    keys: &[Keyed],
) -> Result<Option<TranslatorShape>, AllocError>
    ensures { IfOk result (λ s. s ≡ translator_shape kind (form_of form.entry) (map keyed_of keys.now)) }
{
    let Some(name) = name_in(form.name) else {
        return Ok(None);
    };
    let Some(command) = command_in(kind, form.to) else {
        return Ok(None);
    };
    let Some(parameter) = name_alone(form.parameters.parts()) else {
        return Ok(None);
    };
    let Some(keys) = keys_said(alloc, name, keys)? else {
        return Ok(None);
    };
    let command = match command {
        Some(command) => Some(command.copy()?),
        None => None,
    };
    let name = name.copy()?;
    let parameter = parameter.copy()?;
    Ok(Some(TranslatorShape {
        name,
        command,
        parameter,
        keys,
    }))
}

/// The name of the command, where the translator is one to a command; None where something else stands there.
fn command_in(kind: TranslatorKind, to: &Datum) -> Option<Option<&Text>>
    ensures { option_map (λ o. option_map (λ n. n.now) o) result ≡ command_in kind (datum_of to.now) }
{
    match kind {
        TranslatorKind::Object => Some(None),
        TranslatorKind::Command => match name_in(to) {
            Some(name) => Some(Some(name)),
            None => None,
        },
    }
}

/// What the keys say; None where one of them is wrong.
fn keys_said(
    alloc: Global,
    name: &Text,
    keys: &[Keyed],
) -> Result<Option<TranslatorKeys>, AllocError>
    ensures { IfOk result (λ k. k ≡ keys_said name.now (map keyed_of keys.now)) }
{
    let Some(table) = name_behind(values_of(Key::CommandTable, keys)) else {
        return Ok(None);
    };
    let Some(gesture) = gesture_behind(values_of(Key::Gesture, keys)) else {
        return Ok(None);
    };
    let Some(priority) = priority_behind(values_of(Key::Priority, keys)) else {
        return Ok(None);
    };
    let Some(documentation) = text_behind(values_of(Key::Documentation, keys)) else {
        return Ok(None);
    };
    let documentation = match documentation {
        Some(text) => text.copy()?,
        None => name.copy()?,
    };
    let table = table_or_global(alloc, table)?;
    Ok(Some(TranslatorKeys {
        table,
        gesture,
        priority,
        documentation,
    }))
}

/// The gesture behind its key, `select` where the key does not stand.
fn gesture_behind(values: Option<&[Datum]>) -> Option<GestureName>
    ensures { result ≡ gesture_behind (option_map (λ v. map datum_of v.now) values.entry) }
{
    match values {
        None => Some(GestureName::Select),
        Some(values) => match name_alone(values) {
            Some(name) => gesture_named(name.as_slice()),
            None => None,
        },
    }
}

/// The gesture of the pointer that a word names.
fn gesture_named(word: &[u8]) -> Option<GestureName>
    ensures { result ≡ gesture_named word.now }
{
    if word == b"select".as_slice() {
        Some(GestureName::Select)
    } else if word == b"describe".as_slice() {
        Some(GestureName::Describe)
    } else if word == b"menu".as_slice() {
        Some(GestureName::Menu)
    } else if word == b"edit".as_slice() {
        Some(GestureName::Edit)
    } else if word == b"delete".as_slice() {
        Some(GestureName::Delete)
    } else {
        None
    }
}

/// The priority behind its key, 0 where the key does not stand.
fn priority_behind(values: Option<&[Datum]>) -> Option<u8>
    ensures { result ≡ priority_behind (option_map (λ v. map datum_of v.now) values.entry) }
{
    match values {
        None => Some(0),
        Some(values) => priority_alone(values),
    }
}

/// The priority that stands alone.
fn priority_alone(parts: &[Datum]) -> Option<u8>
    ensures { result ≡ priority_alone (map datum_of parts.now) }
{
    match parts {
        [one] => priority_of(number_in(one)?),
        [] => None,
        [_, _, ..] => None,
    }
}

/// A number from 0 to 99.
fn priority_of(number: i64) -> Option<u8>
    ensures { result ≡ priority_of number }
{
    match u8::try_from(number) {
        Ok(priority) if priority < 100 => Some(priority),
        _ => None,
    }
}
