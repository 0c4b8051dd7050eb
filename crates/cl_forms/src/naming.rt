//! Names and counts that forms ask for.
ghost use Rattle.std.specs.Prelude.{◌≡◌, IfOk, map, option_map};
ghost use Rattle.cl_forms.specs.DatumView.{datum_of};
ghost use Rattle.cl_forms.specs.Naming.{are_names, name_in, symbol_of, names_counted, list_counted};
ghost use Rattle.cl_forms.specs.Naming.{fits};
ghost use Rattle.cl_forms.specs.Named.{NamesPart};

use crate::datum::Datum;
use crate::refusals::FormRefusal;
use crate::words::is_name;
use cl_value::Text;
use std::alloc::{AllocError, Global};

/// The name that a datum is: a symbol that is no key and no constant.
pub fn name_in(datum: &Datum) -> Option<&Text>
    ensures { option_map (λ n. n.now) result ≡ name_in (datum_of datum.now) }
{
    match datum {
        Datum::Word(word, _) => {
            if is_name(word.as_slice()) {
                Some(word)
            } else {
                None
            }
        }
        Datum::Number(_, _) => None,
        Datum::Literal(_, _) => None,
        Datum::Quoted(_, _, _) => None,
        Datum::Stray(_) => None,
        Datum::List(_, _) => None,
    }
}

/// The bytes of a symbol, and none of anything else.
pub fn symbol_of(datum: &Datum) -> &[u8]
    ensures { result.now ≡ symbol_of (datum_of datum.now) }
{
    match datum {
        Datum::Word(word, _) => word.as_slice(),
        Datum::Number(_, _) => &[],
        Datum::Literal(_, _) => &[],
        Datum::Quoted(_, _, _) => &[],
        Datum::Stray(_) => &[],
        Datum::List(_, _) => &[],
    }
}

/// The bytes of a symbol, and none of anything else, as a text: those of a symbol are shared and not copied.
pub fn symbol_text(alloc: Global, datum: &Datum) -> Result<Text, AllocError>
    ensures { IfOk result (λ t. t ≡ symbol_of (datum_of datum.now)) }
{
    match datum {
        Datum::Word(word, _) => word.copy(),
        Datum::Number(_, _) => Text::from_slice(alloc, &[]),
        Datum::Literal(_, _) => Text::from_slice(alloc, &[]),
        Datum::Quoted(_, _, _) => Text::from_slice(alloc, &[]),
        Datum::Stray(_) => Text::from_slice(alloc, &[]),
        Datum::List(_, _) => Text::from_slice(alloc, &[]),
    }
}

/// Whether all data are names.
pub fn are_names(parts: &[Datum]) -> bool
    ensures { result ≡ are_names (map datum_of parts.now) }
{
    for part in parts {
        if name_in(part).is_none() {
            return false;
        }
    }
    true
}

/// How many names there are; None where a part is no name.
pub fn names_counted(parts: &[Datum]) -> Option<usize>
    ensures { result ≡ names_counted (map datum_of parts.now) }
{
    if are_names(parts) {
        Some(parts.len())
    } else {
        None
    }
}

/// How many names stand in a list of names; None of anything else.
#[tactic(auto, using(crate::proofs::Data::data_in_order))]
pub fn list_counted(datum: &Datum) -> Option<usize>
    ensures { result ≡ list_counted (datum_of datum.now) }
{
    match datum {
        Datum::List(parts, _) => names_counted(parts.as_slice()),
        Datum::Number(_, _) => None,
        Datum::Literal(_, _) => None,
        Datum::Word(_, _) => None,
        Datum::Quoted(_, _, _) => None,
        Datum::Stray(_) => None,
    }
}

/// The name that a datum is, where the form at this offset asks for one.
pub fn named_part(at: u32, datum: &Datum) -> Result<Text, FormRefusal>
    ensures { NamesPart result at (datum_of datum.now) }
{
    match name_in(datum) {
        Some(name) => Ok(name.copy()?),
        None => Err(FormRefusal::Refused(6, at)),
    }
}

/// Whether there are as many parts as are asked for; None asks for none.
pub fn fits(count: Option<usize>, parts: usize) -> bool
    ensures { result ≡ fits count parts }
{
    match count {
        Some(count) => count == parts,
        None => true,
    }
}
