//! Dialogs, as forms declare them.
ghost use Rattle.std.specs.Prelude.{◌≡◌, [], Ok, Some, map};
ghost use Rattle.cl_forms.specs.Datum.{offset};
ghost use Rattle.cl_forms.specs.DatumView.{datum_of};
ghost use Rattle.cl_forms.specs.KeyedView.{keyed_of};
ghost use Rattle.cl_forms.specs.Naming.{name_in};
ghost use Rattle.cl_expressions.specs.Leaves.{Leaves};
ghost use Rattle.cl_expressions.specs.Load.{Gives, itself};
ghost use Rattle.cl_expressions.specs.Scopes.{in_sight, variables_of};
ghost use Rattle.cl_words.specs.Arguments.{first_symbols};
ghost use Rattle.cl_declare.specs.Dialogs.{condition_of, no_condition, note_command_behind, note_dialog_key, note_dialog_keys, note_pane, note_pane_behind, parse_dialog, parse_else, parse_queries, parse_query, parse_query_key, parse_query_keys, parse_when};

use crate::commands::parse_default_value;
use crate::dialog_shapes::{DIALOG_KEYS, QUERY_KEYS, are_queries, dialog_shape};
use crate::translators::note_command;
use cl_application::{ConditionDecl, DefaultDecl, DialogDecl, QueryDecl, QueryDecls};
use cl_expressions::{Notes, Reader, Scope, parse_expression};
use cl_forms::{Datum, FormRefusal, Key, Keyed, keyed_pairs, name_in, symbol_text};
use cl_syntax::Expr;
use cl_words::first_symbols;

/// What is read of a query's condition.
#[derive(Drop)]
pub struct Condition {
    pub when: Option<Expr>,
    pub otherwise: Option<DefaultDecl>,
}

/// `(define-dialog NAME (:command COMMAND :pane PANE) QUERY ...)`
pub fn parse_dialog(
    reader: &Reader,
    at: u32,
    parts: &[Datum],
    notes: &mut Notes,
) -> Result<DialogDecl, FormRefusal>
    ensures { Gives itself result notes.new
        (parse_dialog reader.now.signatures.now at (map datum_of parts.now) notes.old) }
{
    let [name, keys, queries @ ..] = parts else {
        return Err(FormRefusal::Refused(6, at));
    };
    if !are_queries(reader.alloc, queries)? {
        return Err(FormRefusal::Refused(6, at));
    }
    let Some(keys) = keyed_pairs(reader.alloc, &DIALOG_KEYS, keys.parts())? else {
        return Err(FormRefusal::Refused(6, at));
    };
    let Some(shape) = dialog_shape(reader, name, keys.as_slice(), queries)? else {
        return Err(FormRefusal::Refused(6, at));
    };
    note_dialog_keys(reader, keys.as_slice(), notes);
    let queries = parse_all(reader, queries, notes)?;
    Ok(DialogDecl {
        name: shape.name,
        command: shape.command,
        pane: shape.pane,
        queries,
        at,
    })
}

/// The command and the pane, in the order of the text, are noted where they are not declared.
fn note_dialog_keys(reader: &Reader, keys: &[Keyed], notes: &mut Notes)
    ensures { note_dialog_keys reader.now.signatures.now (map keyed_of keys.now) notes.old
        ≡ Ok (tt, notes.new) }
{
    for key in keys {
        note_dialog_key(reader, key, notes);
    }
}

fn note_dialog_key(reader: &Reader, key: &Keyed, notes: &mut Notes)
    ensures { note_dialog_key reader.now.signatures.now (keyed_of key.now) notes.old
        ≡ Ok (tt, notes.new) }
{
    if key.key == Key::Command {
        note_command_behind(reader, key.values, notes);
    } else {
        note_pane_behind(reader, key.values, notes);
    }
}

fn note_command_behind(reader: &Reader, values: &[Datum], notes: &mut Notes)
    ensures { note_command_behind reader.now.signatures.now (map datum_of values.now) notes.old
        ≡ Ok (tt, notes.new) }
{
    match values {
        [] => {}
        [command, ..] => note_command(reader, command, notes),
    }
}

fn note_pane_behind(reader: &Reader, values: &[Datum], notes: &mut Notes)
    ensures { note_pane_behind reader.now.signatures.now (map datum_of values.now) notes.old
        ≡ Ok (tt, notes.new) }
{
    match values {
        [] => {}
        [pane, ..] => note_pane(reader, pane, notes),
    }
}

fn note_pane(reader: &Reader, pane: &Datum, notes: &mut Notes)
    ensures { note_pane reader.now.signatures.now (offset (datum_of pane.now))
        (name_in (datum_of pane.now)) notes.old ≡ Ok (tt, notes.new) }
{
    if let Some(name) = name_in(pane) {
        notes.note(reader.signatures.has_pane(name.as_slice()), pane.offset());
    }
}

/// The queries, which see the names of all.
fn parse_all(
    reader: &Reader,
    queries: &[Datum],
    notes: &mut Notes,
) -> Result<QueryDecls, FormRefusal>
    ensures { Gives itself result notes.new
        (parse_queries reader.now.signatures.now (in_sight (first_symbols (map datum_of queries.now)) [])
        (map datum_of queries.now) [] notes.old) }
{
    let names = first_symbols(reader.alloc, queries)?;
    let nothing = Scope::Empty;
    let variables = Scope::Names(names.as_slice(), &nothing);
    let inside = Reader {
        alloc: reader.alloc,
        signatures: reader.signatures,
        scope: &variables,
    };
    parse_queries(&inside, queries, notes)
}

/// The queries, of two of one name the first, which see the variables of the reader. What is not declared is noted.
fn parse_queries(
    reader: &Reader,
    queries: &[Datum],
    notes: &mut Notes,
) -> Result<QueryDecls, FormRefusal>
    ensures { Gives itself result notes.new
        (parse_queries reader.now.signatures.now (variables_of reader.now.scope.now) (map datum_of queries.now) [] notes.old) }
{
    let mut decls = QueryDecls::new(reader.alloc);
    for query in queries {
        parse_query(reader, query.offset(), query.parts(), &mut decls, notes)?;
    }
    Ok(decls)
}

/// `(ARGUMENT)` or `(ARGUMENT :when E :else E)`
fn parse_query(
    reader: &Reader,
    at: u32,
    parts: &[Datum],
    decls: &mut QueryDecls,
    notes: &mut Notes,
) -> Result<(), FormRefusal>
    ensures { Leaves result decls.new notes.new
        (parse_query reader.now.signatures.now (variables_of reader.now.scope.now) at (map datum_of parts.now) decls.old notes.old) }
{
    match parts {
        [] => Ok(()),
        [name, keys @ ..] => {
            let Some(keys) = keyed_pairs(reader.alloc, &QUERY_KEYS, keys)? else {
                return Ok(());
            };
            let condition = parse_query_keys(reader, keys.as_slice(), notes)?;
            let name = symbol_text(reader.alloc, name)?;
            let condition = condition_of(condition);
            Ok(decls.add_first(QueryDecl {
                name,
                condition,
                at,
            })?)
        }
    }
}

/// The expressions behind the keys of a query, in the order of the text.
fn parse_query_keys(
    reader: &Reader,
    keys: &[Keyed],
    notes: &mut Notes,
) -> Result<Condition, FormRefusal>
    ensures { Gives itself result notes.new
        (parse_query_keys reader.now.signatures.now (variables_of reader.now.scope.now) (map keyed_of keys.now) no_condition notes.old) }
{
    let mut condition = Condition {
        when: None,
        otherwise: None,
    };
    for key in keys {
        parse_query_key(reader, key, &mut condition, notes)?;
    }
    Ok(condition)
}

fn parse_query_key(
    reader: &Reader,
    key: &Keyed,
    condition: &mut Condition,
    notes: &mut Notes,
) -> Result<(), FormRefusal>
    ensures { Leaves result condition.new notes.new
        (parse_query_key reader.now.signatures.now (variables_of reader.now.scope.now) (keyed_of key.now) condition.old notes.old) }
{
    if key.key == Key::When {
        parse_when(reader, key.values, condition, notes)
    } else {
        parse_else(reader, key.values, condition, notes)
    }
}

/// When the query is shown: an expression that sees the variables of the reader.
fn parse_when(
    reader: &Reader,
    values: &[Datum],
    condition: &mut Condition,
    notes: &mut Notes,
) -> Result<(), FormRefusal>
    ensures { Leaves result condition.new notes.new
        (parse_when reader.now.signatures.now (variables_of reader.now.scope.now) (map datum_of values.now) condition.old notes.old) }
{
    match values {
        [] => Ok(()),
        [value, ..] => {
            condition.when = Some(parse_expression(reader, value, notes)?);
            Ok(())
        }
    }
}

/// What stands for the query where it is not shown: an expression that sees no variable.
fn parse_else(
    reader: &Reader,
    values: &[Datum],
    condition: &mut Condition,
    notes: &mut Notes,
) -> Result<(), FormRefusal>
    ensures { Leaves result condition.new notes.new
        (parse_else reader.now.signatures.now (map datum_of values.now) condition.old notes.old) }
{
    match values {
        [] => Ok(()),
        [value, ..] => {
            condition.otherwise = Some(parse_default_value(reader, value, notes)?);
            Ok(())
        }
    }
}

/// The condition of a query, where both its keys were read.
fn condition_of(condition: Condition) -> Option<ConditionDecl>
    ensures { result ≡ condition_of condition }
{
    let Condition { when, otherwise } = condition;
    let Some(when) = when else {
        return None;
    };
    let Some(otherwise) = otherwise else {
        return None;
    };
    Some(ConditionDecl {
        when,
        otherwise: otherwise.value,
        otherwise_at: otherwise.at,
    })
}
