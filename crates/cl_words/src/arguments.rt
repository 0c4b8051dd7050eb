//! The names of the arguments of a command.
ghost use Rattle.std.specs.Prelude.{◌≡◌, ◌++◌, IfOk, map};
ghost use Rattle.cl_forms.specs.DatumView.{datum_of};
ghost use Rattle.cl_words.specs.Arguments.{first_symbol, first_symbols, is_named, are_named, arguments_in, arguments_behind};

use cl_forms::{Datum, name_in, symbol_text};
use cl_table::Names;
use cl_value::Text;
use std::alloc::{AllocError, Global};

/// The symbol that stands first; no bytes where none does.
fn first_symbol(alloc: Global, parts: &[Datum]) -> Result<Text, AllocError>
    ensures { IfOk result (λ name. name ≡ first_symbol (map datum_of parts.now)) }
{
    match parts {
        [] => Text::from_slice(alloc, b""),
        [name, ..] => symbol_text(alloc, name),
    }
}

/// The symbols that begin lists, in their order.
pub fn first_symbols(alloc: Global, lists: &[Datum]) -> Result<Names, AllocError>
    ensures { IfOk result (λ names. names ≡ first_symbols (map datum_of lists.now)) }
{
    let mut names = Names::new(alloc);
    for list in lists {
        names.push(first_symbol(alloc, list.parts())?)?;
    }
    Ok(names)
}

/// Whether a name stands first.
fn is_named(parts: &[Datum]) -> bool
    ensures { result ≡ is_named (map datum_of parts.now) }
{
    match parts {
        [] => false,
        [name, ..] => name_in(name).is_some(),
    }
}

/// Whether all data are lists that names begin.
fn are_named(lists: &[Datum]) -> bool
    ensures { result ≡ are_named (map datum_of lists.now) }
{
    for list in lists {
        if !is_named(list.parts()) {
            return false;
        }
    }
    true
}

/// The names that begin the lists of a list; None of anything else.
#[tactic(auto, using(cl_forms::proofs::Data::data_in_order))]
fn arguments_in(alloc: Global, datum: &Datum) -> Result<Option<Names>, AllocError>
    ensures { IfOk result (λ names. names ≡ arguments_in (datum_of datum.now)) }
{
    match datum {
        Datum::List(lists, _) => {
            if are_named(lists.as_slice()) {
                Ok(Some(first_symbols(alloc, lists.as_slice())?))
            } else {
                Ok(None)
            }
        }
        Datum::Number(_, _) => Ok(None),
        Datum::Literal(_, _) => Ok(None),
        Datum::Word(_, _) => Ok(None),
        Datum::Quoted(_, _, _) => Ok(None),
        Datum::Stray(_) => Ok(None),
    }
}

/// The names of the arguments of a command, by what stands behind its name; None where they cannot be told.
pub(crate) fn arguments_behind(alloc: Global, parts: &[Datum]) -> Result<Option<Names>, AllocError>
    ensures { IfOk result (λ names. names ≡ arguments_behind (map datum_of parts.now)) }
{
    match parts {
        [] => Ok(None),
        [arguments, ..] => arguments_in(alloc, arguments),
    }
}
