//! The shape of a dialog, but for the forms in it.
ghost use Rattle.std.specs.Prelude.{◌≡◌, IfOk, map, option_map};
ghost use Rattle.cl_forms.specs.DatumView.{datum_of};
ghost use Rattle.cl_forms.specs.KeyedView.{keyed_of};
ghost use Rattle.cl_declare.specs.DialogShapes.{are_asked, are_queries, are_together, dialog_shape, is_choice, is_query, may_name_query, name_given};

use crate::type_shapes::name_alone;
use cl_expressions::Reader;
use cl_forms::{Datum, Key, Keyed, keyed_pairs, name_in, values_of};
use cl_table::Names;
use cl_value::Text;
use cl_words::first_symbols;
use std::alloc::{AllocError, Global};

/// The keys that a dialog must have.
pub const DIALOG_KEYS: [Key; 2] = [Key::Command, Key::Pane];

/// The keys that a query may have.
pub const QUERY_KEYS: [Key; 2] = [Key::When, Key::Else];

/// What a dialog is, but for its queries.
#[derive(Drop)]
pub struct DialogShape {
    pub name: Text,
    pub command: Text,
    pub pane: Text,
}

/// The name, the command and the pane of a dialog; None where the dialog is wrong by itself.
pub fn dialog_shape(
    reader: &Reader,
    name: &Datum,
    keys: &[Keyed],
    queries: &[Datum],
) -> Result<Option<DialogShape>, AllocError>
    ensures { IfOk result (λ s. s ≡ dialog_shape reader.now.signatures.now (datum_of name.now) (map keyed_of keys.now)
        (map datum_of queries.now)) }
{
    let Some(name) = name_in(name) else {
        return Ok(None);
    };
    let Some(command) = name_given(Key::Command, keys) else {
        return Ok(None);
    };
    let Some(pane) = name_given(Key::Pane, keys) else {
        return Ok(None);
    };
    let names = first_symbols(reader.alloc, queries)?;
    if !are_asked(
        reader.signatures.command_arguments(command.as_slice()),
        &names,
    ) {
        return Ok(None);
    }
    Ok(Some(DialogShape {
        name: name.copy()?,
        command: command.copy()?,
        pane: pane.copy()?,
    }))
}

/// The name behind a key; None where the key does not stand, or something else stands behind it.
fn name_given<'a>(key: Key, keys: &[Keyed<'a>]) -> Option<&'a Text>
    ensures { option_map (λ n. n.now) result ≡ name_given key (map keyed_of keys.now) }
{
    name_alone(values_of(key, keys)?)
}

/// Whether the names are those of a command's arguments, in their order, as far as these can be told.
fn are_asked(arguments: Option<&Names>, names: &Names) -> bool
    ensures { result ≡ are_asked (option_map (λ a. a.now) arguments.entry) names.now }
{
    match arguments {
        Some(arguments) => arguments.as_slice() == names.as_slice(),
        None => true,
    }
}

/// Whether each datum is a query.
pub fn are_queries(alloc: Global, queries: &[Datum]) -> Result<bool, AllocError>
    ensures { IfOk result (λ r. r ≡ are_queries (map datum_of queries.now)) }
{
    for query in queries {
        if !is_query(alloc, query.parts())? {
            return Ok(false);
        }
    }
    Ok(true)
}

/// `(ARGUMENT)` or `(ARGUMENT :when E :else E)`
fn is_query(alloc: Global, parts: &[Datum]) -> Result<bool, AllocError>
    ensures { IfOk result (λ r. r ≡ is_query (map datum_of parts.now)) }
{
    match parts {
        [] => Ok(false),
        [name, keys @ ..] => {
            if !may_name_query(name_in(name)) {
                return Ok(false);
            }
            let keys = keyed_pairs(alloc, &QUERY_KEYS, keys)?;
            Ok(are_together(keys.as_ref()))
        }
    }
}

/// Whether both keys of a query stand, or none.
fn are_together(keys: Option<&Vec<Keyed<'_>>>) -> bool
    ensures { result ≡ are_together (option_map (λ v. map keyed_of v.now.items) keys.entry) }
{
    match keys {
        Some(keys) => keys.len() != 1,
        None => false,
    }
}

fn may_name_query(name: Option<&Text>) -> bool
    ensures { result ≡ may_name_query (option_map (λ n. n.now) name.entry) }
{
    match name {
        Some(name) => !is_choice(name.as_slice()),
        None => false,
    }
}

/// Whether this is the name of one of the two choices behind the queries.
fn is_choice(name: &[u8]) -> bool
    ensures { result ≡ is_choice name.now }
{
    name == b"exit".as_slice() || name == b"abort".as_slice()
}
