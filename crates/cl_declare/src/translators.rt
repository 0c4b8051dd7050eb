//! Translators, as forms declare them.
ghost use Rattle.std.specs.Prelude.{◌≡◌, Ok, None, Some, map};
ghost use Rattle.cl_forms.specs.Datum.{offset};
ghost use Rattle.cl_forms.specs.DatumView.{datum_of};
ghost use Rattle.cl_forms.specs.KeyedView.{keyed_of};
ghost use Rattle.cl_forms.specs.Naming.{name_in};
ghost use Rattle.cl_expressions.specs.Leaves.{Leaves};
ghost use Rattle.cl_expressions.specs.Load.{Gives, itself};
ghost use Rattle.cl_expressions.specs.Scopes.{variables_of};
ghost use Rattle.cl_declare.specs.TranslatorView.{form_of};
ghost use Rattle.cl_declare.specs.Translators.{note_command, parse_shaped, parse_target, parse_tester, parse_translator, parse_translator_key, parse_translator_keys};

use crate::command_tables::note_tables;
use crate::translator_forms::{TranslatorForm, translator_form};
use crate::translator_shapes::{
    TRANSLATOR_KEYS, TranslatorKind, TranslatorShape, translator_shape,
};
use cl_application::TranslatorDecl;
use cl_bodies::parse_type;
use cl_expressions::{Notes, Reader, Scope, parse_expression};
use cl_forms::{Datum, FormRefusal, Key, Keyed, keyed_pairs, name_in};
use cl_syntax::{Expr, TypeSpec};
use cl_table::Names;
use cl_value::Text;

/// `(define-presentation-translator NAME (FROM TO KEY VALUE ...) (PARAMETER) BODY)`, or the same with a
/// command in the place of the to-type.
pub fn parse_translator(
    reader: &Reader,
    kind: TranslatorKind,
    at: u32,
    parts: &[Datum],
    notes: &mut Notes,
) -> Result<TranslatorDecl, FormRefusal>
    ensures { Gives itself result notes.new
        (parse_translator reader.now.signatures.now kind at (map datum_of parts.now) notes.old) }
{
    let Some(form) = translator_form(parts) else {
        return Err(FormRefusal::Refused(6, at));
    };
    let Some(keys) = keyed_pairs(reader.alloc, &TRANSLATOR_KEYS, form.keys)? else {
        return Err(FormRefusal::Refused(6, at));
    };
    let Some(shape) = translator_shape(reader.alloc, kind, form, keys.as_slice())? else {
        return Err(FormRefusal::Refused(6, at));
    };
    parse_shaped(reader, (kind, at), form, keys.as_slice(), shape, notes)
}

/// A translator of this kind and shape, at this offset.
fn parse_shaped(
    reader: &Reader,
    place: (TranslatorKind, u32),
    form: TranslatorForm<'_>,
    keys: &[Keyed],
    shape: TranslatorShape,
    notes: &mut Notes,
) -> Result<TranslatorDecl, FormRefusal>
    ensures { Gives itself result notes.new
        (parse_shaped reader.now.signatures.now place.0 place.1 (form_of form.entry) (map keyed_of keys.now) (Some shape) notes.old) }
{
    let mut parameters = Names::new(reader.alloc);
    parameters.push(shape.parameter.copy()?)?;
    let outside = reader.seeing(&Scope::Empty);
    let variables = Scope::Names(parameters.as_slice(), outside.scope);
    let inside = outside.seeing(&variables);
    let from = parse_type(reader, &Names::new(reader.alloc), form.from, notes)?;
    let to = parse_target(reader, place.0, form.to, notes)?;
    let tester = parse_translator_keys(&inside, keys, notes)?;
    let body = parse_expression(&inside, form.body, notes)?;
    Ok(TranslatorDecl {
        name: shape.name,
        from,
        to,
        command: shape.command,
        table: shape.keys.table,
        gesture: shape.keys.gesture,
        priority: shape.keys.priority,
        documentation: shape.keys.documentation,
        tester,
        parameter: shape.parameter,
        body,
        at: place.1,
    })
}

/// The to-type; `command` for a translator to a command, which is noted where it is not declared.
fn parse_target(
    reader: &Reader,
    kind: TranslatorKind,
    to: &Datum,
    notes: &mut Notes,
) -> Result<TypeSpec, FormRefusal>
    ensures { Gives itself result notes.new
        (parse_target reader.now.signatures.now kind (datum_of to.now) notes.old) }
{
    match kind {
        TranslatorKind::Object => parse_type(reader, &Names::new(reader.alloc), to, notes),
        TranslatorKind::Command => {
            note_command(reader, to, notes);
            Ok(TypeSpec::plain(Text::from_slice(reader.alloc, b"command")?))
        }
    }
}

/// A command is noted where it is not declared.
pub fn note_command(reader: &Reader, command: &Datum, notes: &mut Notes)
    ensures { note_command reader.now.signatures.now (offset (datum_of command.now))
        (name_in (datum_of command.now)) notes.old ≡ Ok (tt, notes.new) }
{
    if let Some(name) = name_in(command) {
        notes.note(
            reader.signatures.has_command(name.as_slice()),
            command.offset(),
        );
    }
}

/// The tester, which sees the variables of the reader. A table that is not declared is noted.
fn parse_translator_keys(
    reader: &Reader,
    keys: &[Keyed],
    notes: &mut Notes,
) -> Result<Option<Expr>, FormRefusal>
    ensures { Gives itself result notes.new
        (parse_translator_keys reader.now.signatures.now (variables_of reader.now.scope.now) (map keyed_of keys.now) None notes.old) }
{
    let mut tester = None;
    for key in keys {
        parse_translator_key(reader, key, &mut tester, notes)?;
    }
    Ok(tester)
}

fn parse_translator_key(
    reader: &Reader,
    key: &Keyed,
    tester: &mut Option<Expr>,
    notes: &mut Notes,
) -> Result<(), FormRefusal>
    ensures { Leaves result tester.new notes.new
        (parse_translator_key reader.now.signatures.now (variables_of reader.now.scope.now) (keyed_of key.now) tester.old notes.old) }
{
    match key.key {
        Key::CommandTable => {
            note_tables(reader, key.values, notes);
            Ok(())
        }
        Key::Tester => parse_tester(reader, key.values, tester, notes),
        Key::Size => Ok(()),
        Key::Slots => Ok(()),
        Key::Panes => Ok(()),
        Key::Name => Ok(()),
        Key::Keystroke => Ok(()),
        Key::InheritFrom => Ok(()),
        Key::Satisfies => Ok(()),
        Key::Description => Ok(()),
        Key::Separator => Ok(()),
        Key::SingleBox => Ok(()),
        Key::Default => Ok(()),
        Key::Prompt => Ok(()),
        Key::Gesture => Ok(()),
        Key::Priority => Ok(()),
        Key::Documentation => Ok(()),
        Key::UniqueId => Ok(()),
        Key::CacheValue => Ok(()),
        Key::Command => Ok(()),
        Key::Pane => Ok(()),
        Key::When => Ok(()),
        Key::Else => Ok(()),
    }
}

/// The expression that stands first.
fn parse_tester(
    reader: &Reader,
    values: &[Datum],
    tester: &mut Option<Expr>,
    notes: &mut Notes,
) -> Result<(), FormRefusal>
    ensures { Leaves result tester.new notes.new
        (parse_tester reader.now.signatures.now (variables_of reader.now.scope.now) (map datum_of values.now) tester.old notes.old) }
{
    match values {
        [] => Ok(()),
        [value, ..] => {
            *tester = Some(parse_expression(reader, value, notes)?);
            Ok(())
        }
    }
}
