//! Command tables, as forms declare them.
ghost use Rattle.std.specs.Prelude.{◌≡◌, Ok, IfOk, map, option_map};
ghost use Rattle.cl_forms.specs.Datum.{offset};
ghost use Rattle.cl_forms.specs.DatumView.{datum_of};
ghost use Rattle.cl_forms.specs.Naming.{name_in};
ghost use Rattle.cl_words.specs.Signatures.{global_table};
ghost use Rattle.cl_expressions.specs.Load.{Gives, itself};
ghost use Rattle.cl_declare.specs.CommandTables.{note_named_table, note_tables, parse_inheriting, parse_parents, parse_table, table_or_global};

use crate::names::{is_name_list, names_in};
use cl_expressions::{Notes, Reader};
use cl_forms::{Datum, FormRefusal, Key, keyed_pairs, name_in, values_of};
use cl_table::Names;
use cl_tables::TableDecl;
use cl_value::Text;
use std::alloc::{AllocError, Global};

/// The keys that a command table may have.
const TABLE_KEYS: [Key; 1] = [Key::InheritFrom];

/// `(define-command-table NAME :inherit-from (TABLE ...))`
pub fn parse_table(
    reader: &Reader,
    at: u32,
    parts: &[Datum],
    notes: &mut Notes,
) -> Result<TableDecl, FormRefusal>
    ensures { Gives itself result notes.new
        (parse_table reader.now.signatures.now at (map datum_of parts.now) notes.old) }
{
    let Some((name, keys)) = parts.split_first() else {
        return Err(FormRefusal::Refused(6, at));
    };
    let Some(name) = name_in(name) else {
        return Err(FormRefusal::Refused(6, at));
    };
    let Some(keys) = keyed_pairs(reader.alloc, &TABLE_KEYS, keys)? else {
        return Err(FormRefusal::Refused(6, at));
    };
    parse_inheriting(
        reader,
        at,
        name,
        values_of(Key::InheritFrom, keys.as_slice()),
        notes,
    )
}

fn parse_inheriting(
    reader: &Reader,
    at: u32,
    name: &Text,
    parents: Option<&[Datum]>,
    notes: &mut Notes,
) -> Result<TableDecl, FormRefusal>
    ensures { Gives itself result notes.new
        (parse_inheriting reader.now.signatures.now at name.now
        (option_map (λ v. map datum_of v.now) parents.entry) notes.old) }
{
    match parents {
        None => {
            let mut inherit_from = Names::new(reader.alloc);
            inherit_from.push(global_table(reader.alloc)?)?;
            let name = name.copy()?;
            Ok(TableDecl {
                name,
                inherit_from,
                at,
            })
        }
        Some([]) => Err(FormRefusal::Refused(6, at)),
        Some([parents, ..]) => parse_parents(reader, at, name, parents, notes),
    }
}

/// The tables that a table inherits from. What is not declared is noted.
fn parse_parents(
    reader: &Reader,
    at: u32,
    name: &Text,
    parents: &Datum,
    notes: &mut Notes,
) -> Result<TableDecl, FormRefusal>
    ensures { Gives itself result notes.new
        (parse_parents reader.now.signatures.now at name.now (datum_of parents.now) notes.old) }
{
    if !is_name_list(parents) {
        return Err(FormRefusal::Refused(6, at));
    }
    note_tables(reader, parents.parts(), notes);
    Ok(TableDecl {
        name: name.copy()?,
        inherit_from: names_in(reader.alloc, parents.parts())?,
        at,
    })
}

/// Each table is noted where it is not declared.
pub fn note_tables(reader: &Reader, names: &[Datum], notes: &mut Notes)
    ensures { note_tables reader.now.signatures.now (map datum_of names.now) notes.old
        ≡ Ok (tt, notes.new) }
{
    for name in names {
        note_table(reader, name, notes);
    }
}

fn note_table(reader: &Reader, table: &Datum, notes: &mut Notes)
    ensures { note_named_table reader.now.signatures.now (offset (datum_of table.now))
        (name_in (datum_of table.now)) notes.old ≡ Ok (tt, notes.new) }
{
    if let Some(name) = name_in(table) {
        notes.note(reader.signatures.has_table(name.as_slice()), table.offset());
    }
}

/// The table that is named, or the one that each text has.
pub fn table_or_global(alloc: Global, table: Option<&Text>) -> Result<Text, AllocError>
    ensures { IfOk result (λ t. t ≡ table_or_global (option_map (λ n. n.now) table.entry)) }
{
    match table {
        Some(name) => name.copy(),
        None => global_table(alloc),
    }
}

/// The name of the table that each text has.
fn global_table(alloc: Global) -> Result<Text, AllocError>
    ensures { IfOk result (λ t. t ≡ global_table) }
{
    Text::from_slice(alloc, b"global-command-table")
}
