//! The shape of a command, but for the forms in it.
ghost use Rattle.std.specs.Prelude.{◌≡◌, IfOk, map, option_map};
ghost use Rattle.cl_forms.specs.Datum.{parts_of};
ghost use Rattle.cl_forms.specs.DatumView.{datum_of};
ghost use Rattle.cl_forms.specs.KeyedView.{keyed_of};
ghost use Rattle.cl_declare.specs.CommandShapes.{are_arguments, begins_inside, begins_with_command, command_shape, given_or_made, has_prompt, head_keys, head_name, is_argument, is_command_type, is_command_word};

use crate::command_tables::table_or_global;
use crate::type_shapes::name_behind;
use cl_bodies::text_behind;
use cl_forms::{
    Datum, Key, Keyed, behind_first, first_or_itself, keyed_pairs, line_name_of, name_in,
    symbol_of, values_of,
};
use cl_value::Text;
use std::alloc::{AllocError, Global};

/// The keys that a command may have.
const COMMAND_KEYS: [Key; 3] = [Key::CommandTable, Key::Name, Key::Keystroke];

/// The keys that an argument may have.
pub const ARGUMENT_KEYS: [Key; 2] = [Key::Default, Key::Prompt];

/// What a command is, but for its arguments and its body.
#[derive(Drop)]
pub struct CommandShape {
    pub name: Text,
    pub table: Text,
    pub line_name: Text,
    pub keystroke: Option<Text>,
}

/// The name in the head of a command, which is `NAME` or `(NAME KEY VALUE ...)`.
pub fn head_name(head: &Datum) -> Option<&Text>
    ensures { option_map (λ n. n.now) result ≡ head_name (datum_of head.now) }
{
    match first_or_itself(head) {
        Some(name) => name_in(name),
        None => None,
    }
}

/// The keys in the head of a command; None where a key is none that a command may have, stands twice or has
/// no value.
pub fn head_keys(alloc: Global, head: &Datum) -> Result<Option<Vec<Keyed<'_>>>, AllocError>
    ensures { IfOk result (λ r. option_map (λ v. map keyed_of v.items) r ≡ head_keys (datum_of head.now)) }
{
    keyed_pairs(alloc, &COMMAND_KEYS, behind_first(head.parts()))
}

/// What the name and the keys of a command say; None where one of them is wrong.
pub fn command_shape(
    alloc: Global,
    name: Option<&Text>,
    keys: &[Keyed],
) -> Result<Option<CommandShape>, AllocError>
    ensures { IfOk result
        (λ c. c ≡ command_shape (option_map (λ n. n.now) name.entry) (map keyed_of keys.now)) }
{
    let Some(name) = name else {
        return Ok(None);
    };
    let Some(table) = name_behind(values_of(Key::CommandTable, keys)) else {
        return Ok(None);
    };
    let Some(line_name) = text_behind(values_of(Key::Name, keys)) else {
        return Ok(None);
    };
    let Some(keystroke) = name_behind(values_of(Key::Keystroke, keys)) else {
        return Ok(None);
    };
    let keystroke = match keystroke {
        Some(keystroke) => Some(keystroke.copy()?),
        None => None,
    };
    Ok(Some(CommandShape {
        name: name.copy()?,
        table: table_or_global(alloc, table)?,
        line_name: given_or_made(alloc, line_name, name)?,
        keystroke,
    }))
}

/// The name that is given, or the one that is made from the symbol.
pub fn given_or_made(alloc: Global, given: Option<&Text>, symbol: &Text) -> Result<Text, AllocError>
    ensures { IfOk result (λ t. t ≡ given_or_made (option_map (λ n. n.now) given.entry) symbol.now) }
{
    match given {
        Some(name) => name.copy(),
        None => line_name_of(alloc, symbol.as_slice()),
    }
}

/// Whether each datum is an argument `(NAME TYPE KEY VALUE ...)`.
pub fn are_arguments(alloc: Global, arguments: &[Datum]) -> Result<bool, AllocError>
    ensures { IfOk result (λ r. r ≡ are_arguments (map datum_of arguments.now)) }
{
    for argument in arguments {
        if !is_argument(alloc, argument.parts())? {
            return Ok(false);
        }
    }
    Ok(true)
}

fn is_argument(alloc: Global, parts: &[Datum]) -> Result<bool, AllocError>
    ensures { IfOk result (λ r. r ≡ is_argument (map datum_of parts.now)) }
{
    match parts {
        [] => Ok(false),
        [_] => Ok(false),
        [name, spec, keys @ ..] => {
            if name_in(name).is_none() || is_command_type(spec) {
                return Ok(false);
            }
            let keys = keyed_pairs(alloc, &ARGUMENT_KEYS, keys)?;
            Ok(has_prompt(keys.as_ref()))
        }
    }
}

/// Whether the keys are right, and a text stands behind that of the prompt.
fn has_prompt(keys: Option<&Vec<Keyed<'_>>>) -> bool
    ensures { result ≡ has_prompt (option_map (λ v. map keyed_of v.now.items) keys.entry) }
{
    match keys {
        Some(keys) => text_behind(values_of(Key::Prompt, keys.as_slice())).is_some(),
        None => false,
    }
}

/// Whether a type is named `command`.
fn is_command_type(spec: &Datum) -> bool
    ensures { result ≡ is_command_type (datum_of spec.now) }
{
    is_command_word(spec) || begins_with_command(spec.parts()) || begins_inside(spec.parts())
}

fn is_command_word(datum: &Datum) -> bool
    ensures { result ≡ is_command_word (datum_of datum.now) }
{
    symbol_of(datum) == b"command".as_slice()
}

fn begins_with_command(parts: &[Datum]) -> bool
    ensures { result ≡ begins_with_command (map datum_of parts.now) }
{
    match parts {
        [] => false,
        [first, ..] => is_command_word(first),
    }
}

fn begins_inside(parts: &[Datum]) -> bool
    ensures { result ≡ begins_inside (map datum_of parts.now) }
{
    match parts {
        [] => false,
        [first, ..] => begins_with_command(first.parts()),
    }
}
