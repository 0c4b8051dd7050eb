//! The command-line names and the keystrokes of commands, each in its command table.
ghost use Rattle.std.specs.Prelude.{◌≡◌, ◌++◌, IfOk, OnOk, map, option_map};
ghost use Rattle.cl_forms.specs.DatumView.{datum_of};
ghost use Rattle.cl_forms.specs.Keys as keys;
ghost use Rattle.cl_forms.specs.Keys.{key_named};
ghost use Rattle.cl_forms.specs.Naming.{symbol_of};
ghost use Rattle.cl_forms.specs.OuterView.{outer_of};
ghost use Rattle.cl_words.specs.Signatures.{global_table};
ghost use Rattle.cl_phases.specs.CommandNames.{head_keys, head_value, in_table, joined, line_names, line_of, lines_in, paired, stroke_of, strokes_in, table_of, text_at};

use crate::declared_names::{Space, add_declared, add_own_name, is_in};
use crate::repeats::NameAt;
use cl_forms::{Datum, Key, Outer, behind_first, key_named, line_name_of, symbol_of};
use cl_value::Text;
use std::alloc::{AllocError, Global};

/// The command table that each text has.
const GLOBAL_TABLE: &[u8] = b"global-command-table";

/// The command-line names of the commands, each in its table, in the order of the text.
pub fn lines_in(alloc: Global, outers: &[Outer<'_>]) -> Result<Vec<NameAt>, AllocError>
    ensures { IfOk result (λ v. v.items ≡ lines_in (map outer_of outers.now)) }
{
    let mut names = Vec::new(alloc);
    for outer in outers {
        let line = line_of(alloc, outer)?;
        add_in_table(alloc, &mut names, table_of(outer), line.as_slice())?;
    }
    Ok(names)
}

/// The keystrokes of the commands, each in its table, in the order of the text.
pub fn strokes_in(alloc: Global, outers: &[Outer<'_>]) -> Result<Vec<NameAt>, AllocError>
    ensures { IfOk result (λ v. v.items ≡ strokes_in (map outer_of outers.now)) }
{
    let mut names = Vec::new(alloc);
    for outer in outers {
        let stroke = stroke_of(alloc, outer)?;
        add_in_table(alloc, &mut names, table_of(outer), stroke.as_slice())?;
    }
    Ok(names)
}

/// What stands behind a key in the head of a command; nothing of another form.
pub fn head_value<'a>(key: Key, outer: &Outer<'a>) -> Option<&'a Datum>
    ensures { option_map (λ d. datum_of d.now) result ≡ head_value key (outer_of outer.now) }
{
    if is_in(Space::Commands, outer.kind) {
        paired(key, head_keys(outer.parts))
    } else {
        None
    }
}

/// The keys in the head of a command, by what stands behind its operator.
fn head_keys(parts: &[Datum]) -> &[Datum]
    ensures { map datum_of result.now ≡ head_keys (map datum_of parts.now) }
{
    match parts {
        [] => &[],
        [head, ..] => behind_first(head.parts()),
    }
}

/// What stands behind a key among pairs `KEY VALUE`.
fn paired(key: Key, pairs: &[Datum]) -> Option<&Datum>
    ensures { option_map (λ d. datum_of d.now) result ≡ paired key (map datum_of pairs.now) }
{
    let mut rest = pairs;
    while let [name, value, more @ ..] = rest {
        if is_key(key, name) {
            return Some(value);
        }
        rest = more;
    }
    None
}

/// Whether a datum is this key.
fn is_key(key: Key, datum: &Datum) -> bool
    ensures { result ≡ keys.is_key key (key_named (symbol_of (datum_of datum.now))) }
{
    match key_named(symbol_of(datum)) {
        Some(found) => key == found,
        None => false,
    }
}

/// The name of a command's table, as it is written.
fn table_of<'a>(outer: &Outer<'a>) -> &'a [u8]
    ensures { result.now ≡ table_of (outer_of outer.now) }
{
    match head_value(Key::CommandTable, outer) {
        Some(table) => symbol_of(table),
        None => GLOBAL_TABLE,
    }
}

/// The command-line name of a command: the text that is given, or what is made of its symbol.
fn line_of(alloc: Global, outer: &Outer<'_>) -> Result<Vec<NameAt>, AllocError>
    ensures { IfOk result (λ v. v.items ≡ line_of (outer_of outer.now)) }
{
    let mut names = Vec::new(alloc);
    match head_value(Key::Name, outer) {
        Some(given) => {
            add_text(&mut names, given)?;
            Ok(names)
        }
        None => {
            add_declared(&mut names, Space::Commands, outer)?;
            line_names(alloc, names.as_slice())
        }
    }
}

/// The keystroke of a command.
fn stroke_of(alloc: Global, outer: &Outer<'_>) -> Result<Vec<NameAt>, AllocError>
    ensures { IfOk result (λ v. v.items ≡ stroke_of (outer_of outer.now)) }
{
    let mut names = Vec::new(alloc);
    add_own_name(&mut names, head_value(Key::Keystroke, outer))?;
    Ok(names)
}

fn add_text(names: &mut Vec<NameAt>, datum: &Datum) -> Result<(), AllocError>
    ensures { OnOk result (names.new.items ≡ names.old.items ++ text_at (datum_of datum.now)) }
{
    match datum {
        Datum::Literal(text, at) => {
            let name = text.copy()?;
            names.push(NameAt { name, at: *at }).map_err(|_| AllocError)
        }
        Datum::Number(_, _) => Ok(()),
        Datum::Word(_, _) => Ok(()),
        Datum::Quoted(_, _, _) => Ok(()),
        Datum::Stray(_) => Ok(()),
        Datum::List(_, _) => Ok(()),
    }
}

/// The command-line names that are made of the names of commands, with the same offsets.
fn line_names(alloc: Global, names: &[NameAt]) -> Result<Vec<NameAt>, AllocError>
    ensures { IfOk result (λ v. v.items ≡ line_names names.now) }
{
    let mut lines = Vec::new(alloc);
    for name in names {
        let line = line_name_of(alloc, name.name.as_slice())?;
        lines.push(NameAt {
            name: line,
            at: name.at,
        })?;
    }
    Ok(lines)
}

/// Adds names of a table.
fn add_in_table(
    alloc: Global,
    names: &mut Vec<NameAt>,
    table: &[u8],
    found: &[NameAt],
) -> Result<(), AllocError>
    ensures { OnOk result (names.new.items ≡ names.old.items ++ in_table table.now found.now) }
{
    for one in found {
        let name = joined(alloc, table, one.name.as_slice())?;
        names.push(NameAt { name, at: one.at })?;
    }
    Ok(())
}

/// A table and a name in it as one name, with a space between them.
fn joined(alloc: Global, table: &[u8], name: &[u8]) -> Result<Text, AllocError>
    ensures { IfOk result (λ t. t ≡ joined table.now name.now) }
{
    let mut bytes = Vec::new(alloc);
    bytes.extend_from_slice(table)?;
    bytes.push(b' ')?;
    bytes.extend_from_slice(name)?;
    Text::from_vec(alloc, bytes)
}
