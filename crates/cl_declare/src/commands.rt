//! Commands, as forms declare them.
ghost use Rattle.std.specs.Prelude.{◌≡◌, [], IfOk, map, option_map};
ghost use Rattle.cl_forms.specs.Datum.{datums_of};
ghost use Rattle.cl_forms.specs.DatumView.{datum_of};
ghost use Rattle.cl_expressions.specs.Load.{Gives, itself};
ghost use Rattle.cl_expressions.specs.Leaves.{Leaves};
ghost use Rattle.cl_expressions.specs.Scopes.{in_sight};
ghost use Rattle.cl_bodies.specs.Statements.{parse_acts};
ghost use Rattle.cl_bodies.specs.TypeArguments.{text_behind};
ghost use Rattle.cl_declare.specs.CommandShapes.{head_keys};
ghost use Rattle.cl_declare.specs.Commands.{argument_names, first_symbol, parse_argument, parse_arguments, parse_command, parse_default, parse_default_value, parse_headed, prompt_of};

use crate::command_shapes::{
    ARGUMENT_KEYS, are_arguments, command_shape, given_or_made, head_keys, head_name,
};
use crate::command_tables::note_tables;
use crate::frames::behind;
use crate::names::is_list;
use cl_application::{ArgumentDecl, ArgumentDecls, CommandDecl, DefaultDecl};
use cl_bodies::{parse_acts, parse_type, text_behind};
use cl_expressions::{Notes, Reader, Scope, parse_expression};
use cl_forms::{Datum, FormRefusal, Key, keyed_pairs, symbol_text, values_of};
use cl_syntax::Acts;
use cl_table::Names;
use cl_value::Text;
use std::alloc::{AllocError, Global};

/// `(define-command NAME (ARGUMENT ...) STATEMENT ...)`. The name may be `(NAME KEY VALUE ...)`.
pub fn parse_command(
    reader: &Reader,
    at: u32,
    parts: &[Datum],
    notes: &mut Notes,
) -> Result<CommandDecl, FormRefusal>
    ensures { Gives itself result notes.new
        (parse_command reader.now.signatures.now at (map datum_of parts.now) notes.old) }
{
    match parts {
        [] => Err(FormRefusal::Refused(6, at)),
        [_] => Err(FormRefusal::Refused(6, at)),
        [head, arguments, body @ ..] => {
            if !is_list(arguments) || !are_arguments(reader.alloc, arguments.parts())? {
                return Err(FormRefusal::Refused(6, at));
            }
            parse_headed(reader, at, head, arguments.parts(), body, notes)
        }
    }
}

fn parse_headed(
    reader: &Reader,
    at: u32,
    head: &Datum,
    arguments: &[Datum],
    body: &[Datum],
    notes: &mut Notes,
) -> Result<CommandDecl, FormRefusal>
    ensures { Gives itself result notes.new
        (parse_headed reader.now.signatures.now at (datum_of head.now) (head_keys (datum_of head.now))
        (map datum_of arguments.now) (map datum_of body.now) notes.old) }
{
    let Some(keys) = head_keys(reader.alloc, head)? else {
        return Err(FormRefusal::Refused(6, at));
    };
    let Some(shape) = command_shape(reader.alloc, head_name(head), keys.as_slice())? else {
        return Err(FormRefusal::Refused(6, at));
    };
    note_tables(reader, behind(Key::CommandTable, keys.as_slice()), notes);
    let decls = parse_arguments(reader, arguments, notes)?;
    let body = parse_body(reader, arguments, body, notes)?;
    Ok(CommandDecl {
        name: shape.name,
        table: shape.table,
        line_name: shape.line_name,
        keystroke: shape.keystroke,
        arguments: decls,
        body,
        at,
    })
}

/// The body, which sees the arguments.
fn parse_body(
    reader: &Reader,
    arguments: &[Datum],
    body: &[Datum],
    notes: &mut Notes,
) -> Result<Acts, FormRefusal>
    ensures { Gives itself result notes.new
        (parse_acts reader.now.signatures.now (datums_of (map datum_of body.now))
        (in_sight (argument_names (map datum_of arguments.now)) []) notes.old) }
{
    let names = argument_names(reader.alloc, arguments)?;
    let nothing = Scope::Empty;
    let variables = Scope::Names(names.as_slice(), &nothing);
    let inside = Reader {
        alloc: reader.alloc,
        signatures: reader.signatures,
        scope: &variables,
    };
    parse_acts(&inside, body, notes)
}

/// The names of arguments.
fn argument_names(alloc: Global, arguments: &[Datum]) -> Result<Names, AllocError>
    ensures { IfOk result (λ names. names ≡ argument_names (map datum_of arguments.now)) }
{
    let mut names = Names::new(alloc);
    for argument in arguments {
        names.push(first_symbol(alloc, argument.parts())?)?;
    }
    Ok(names)
}

fn first_symbol(alloc: Global, parts: &[Datum]) -> Result<Text, AllocError>
    ensures { IfOk result (λ name. name ≡ first_symbol (map datum_of parts.now)) }
{
    match parts {
        [] => Text::from_slice(alloc, b""),
        [name, ..] => symbol_text(alloc, name),
    }
}

/// The arguments, of two of one name the first. What is not declared is noted.
fn parse_arguments(
    reader: &Reader,
    arguments: &[Datum],
    notes: &mut Notes,
) -> Result<ArgumentDecls, FormRefusal>
    ensures { Gives itself result notes.new
        (parse_arguments reader.now.signatures.now (map datum_of arguments.now) [] notes.old) }
{
    let mut decls = ArgumentDecls::new(reader.alloc);
    for argument in arguments {
        parse_argument(
            reader,
            argument.offset(),
            argument.parts(),
            &mut decls,
            notes,
        )?;
    }
    Ok(decls)
}

/// `(NAME TYPE KEY VALUE ...)`
fn parse_argument(
    reader: &Reader,
    at: u32,
    parts: &[Datum],
    decls: &mut ArgumentDecls,
    notes: &mut Notes,
) -> Result<(), FormRefusal>
    ensures { Leaves result decls.new notes.new
        (parse_argument reader.now.signatures.now at (map datum_of parts.now) decls.old notes.old) }
{
    match parts {
        [] => Ok(()),
        [_] => Ok(()),
        [name, spec, keys @ ..] => {
            let Some(keys) = keyed_pairs(reader.alloc, &ARGUMENT_KEYS, keys)? else {
                return Ok(());
            };
            let parameters = Names::new(reader.alloc);
            let spec = parse_type(reader, &parameters, spec, notes)?;
            let default = parse_default(reader, values_of(Key::Default, keys.as_slice()), notes)?;
            let name = symbol_text(reader.alloc, name)?;
            let prompt = prompt_of(reader.alloc, &name, values_of(Key::Prompt, keys.as_slice()))?;
            Ok(decls.add_first(ArgumentDecl {
                name,
                spec,
                default,
                prompt,
                at,
            })?)
        }
    }
}

/// What an argument without a token takes.
fn parse_default(
    reader: &Reader,
    values: Option<&[Datum]>,
    notes: &mut Notes,
) -> Result<Option<DefaultDecl>, FormRefusal>
    ensures { Gives itself result notes.new
        (parse_default reader.now.signatures.now (option_map (λ v. map datum_of v.now) values.entry) notes.old) }
{
    match values {
        None => Ok(None),
        Some([]) => Ok(None),
        Some([value, ..]) => Ok(Some(parse_default_value(reader, value, notes)?)),
    }
}

/// A default, which sees no variable.
pub fn parse_default_value(
    reader: &Reader,
    datum: &Datum,
    notes: &mut Notes,
) -> Result<DefaultDecl, FormRefusal>
    ensures { Gives itself result notes.new
        (parse_default_value reader.now.signatures.now (datum_of datum.now) notes.old) }
{
    let nothing = Scope::Empty;
    let outside = Reader {
        alloc: reader.alloc,
        signatures: reader.signatures,
        scope: &nothing,
    };
    let value = parse_expression(&outside, datum, notes)?;
    let at = datum.offset();
    Ok(DefaultDecl { value, at })
}

/// The prompt that is given, or the one that is made from the name.
fn prompt_of(alloc: Global, name: &Text, values: Option<&[Datum]>) -> Result<Text, AllocError>
    ensures { IfOk result (λ t. t ≡ prompt_of name.now
        (text_behind (option_map (λ v. map datum_of v.now) values.entry))) }
{
    match text_behind(values) {
        Some(given) => given_or_made(alloc, given, name),
        None => Text::from_slice(alloc, b""),
    }
}
