//! Names in a row among the parts of a declaration.
ghost use Rattle.std.specs.Prelude.{◌≡◌, IfOk, map};
ghost use Rattle.cl_forms.specs.DatumView.{datum_of};
ghost use Rattle.cl_declare.specs.Names.{names_of, is_list, is_name_list};

use cl_forms::{Datum, are_names, symbol_text};
use cl_table::Names;
use std::alloc::{AllocError, Global};

/// The symbols of data, in their order.
pub fn names_in(alloc: Global, parts: &[Datum]) -> Result<Names, AllocError>
    ensures { IfOk result (λ names. names ≡ names_of (map datum_of parts.now)) }
{
    let mut names = Names::new(alloc);
    for part in parts {
        names.push(symbol_text(alloc, part)?)?;
    }
    Ok(names)
}

pub fn is_list(datum: &Datum) -> bool
    ensures { result ≡ is_list (datum_of datum.now) }
{
    match datum {
        Datum::List(_, _) => true,
        Datum::Number(_, _) => false,
        Datum::Literal(_, _) => false,
        Datum::Word(_, _) => false,
        Datum::Quoted(_, _, _) => false,
        Datum::Stray(_) => false,
    }
}

/// Whether a datum is a list of names.
pub fn is_name_list(datum: &Datum) -> bool
    ensures { result ≡ is_name_list (datum_of datum.now) }
{
    is_list(datum) && are_names(datum.parts())
}
