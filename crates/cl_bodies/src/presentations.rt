//! The display forms that present objects.
ghost use Rattle.std.specs.Prelude.{◌≡◌, [], IfOk, map, option_map};
ghost use Rattle.cl_forms.specs.Datum.{datums_of};
ghost use Rattle.cl_forms.specs.DatumView.{datum_of};
ghost use Rattle.cl_expressions.specs.Expressions.{subs};
ghost use Rattle.cl_expressions.specs.Load.{Gives, itself};
ghost use Rattle.cl_expressions.specs.Scopes.{variables_of};
ghost use Rattle.cl_bodies.specs.Presentations.{parse_boxed, parse_object, parse_present, parse_presented, single_box_in, single_box_of, truth_named};

use crate::specifiers::parse_type;
use cl_expressions::{Notes, Reader, parse_expression};
use cl_forms::{Datum, FormRefusal, Key, keyed_pairs, symbol_of, values_of};
use cl_syntax::{Presentation, Shape};
use cl_table::Names;
use std::alloc::{AllocError, Global};

/// The keys behind the specifier of what is presented.
const PRESENTATION_KEYS: [Key; 1] = [Key::SingleBox];

/// `(present E SPECIFIER)`
#[tactic(auto, using(crate::proofs::DisplayFormCounts::present_counts))]
pub fn parse_present(
    reader: &Reader,
    at: u32,
    parts: &[Datum],
    notes: &mut Notes,
) -> Result<Shape, FormRefusal>
    ensures { Gives itself result notes.new
        (parse_present reader.now.signatures.now at (subs reader.now.signatures.now (datums_of (map datum_of parts.now)))
        (variables_of reader.now.scope.now) notes.old) }
{
    match parts {
        [object, spec] => {
            let object = parse_expression(reader, object, notes)?;
            let spec = parse_type(reader, &Names::new(reader.alloc), spec, notes)?;
            Ok(Shape::present(reader.alloc, object, spec)?)
        }
        [] => Err(FormRefusal::Refused(6, at)),
        [_] => Err(FormRefusal::Refused(6, at)),
        [_, _, _, ..] => Err(FormRefusal::Refused(6, at)),
    }
}

// The word `true` or `false`.
fn truth_named(word: &[u8]) -> Option<bool>
    ensures { result ≡ truth_named word.now }
{
    if word == b"true".as_slice() {
        Some(true)
    } else if word == b"false".as_slice() {
        Some(false)
    } else {
        None
    }
}

// Whether the whole box is sensitive, by what stands behind the key.
fn single_box_of(values: Option<&[Datum]>) -> Option<bool>
    ensures { result ≡ single_box_of (option_map (λ v. map datum_of v.now) values.entry) }
{
    match values {
        None => Some(false),
        Some(values) => match values {
            [value] => truth_named(symbol_of(value)),
            _ => None,
        },
    }
}

// Whether the whole box is sensitive, by all that stands behind the specifier; `None` where that is wrong.
fn single_box_in(alloc: Global, parts: &[Datum]) -> Result<Option<bool>, AllocError>
    ensures { IfOk result (λ o. o ≡ single_box_in (map datum_of parts.now)) }
{
    match keyed_pairs(alloc, &PRESENTATION_KEYS, parts)? {
        Some(keyed) => Ok(single_box_of(values_of(Key::SingleBox, keyed.as_slice()))),
        None => Ok(None),
    }
}

/// `E SPECIFIER :single-box BOOL`: the parts of the list behind the head of the form at this offset.
pub fn parse_presented(
    reader: &Reader,
    at: u32,
    parts: &[Datum],
    notes: &mut Notes,
) -> Result<Presentation, FormRefusal>
    ensures { Gives itself result notes.new
        (parse_presented reader.now.signatures.now at (map datum_of parts.now)
        (variables_of reader.now.scope.now) notes.old) }
{
    match parts {
        [object, spec, keys @ ..] => match single_box_in(reader.alloc, keys)? {
            Some(single_box) => parse_object(reader, object, spec, single_box, notes),
            None => Err(FormRefusal::Refused(6, at)),
        },
        [] => Err(FormRefusal::Refused(6, at)),
        [_] => Err(FormRefusal::Refused(6, at)),
    }
}

// The object and its type.
fn parse_object(
    reader: &Reader,
    object: &Datum,
    spec: &Datum,
    single_box: bool,
    notes: &mut Notes,
) -> Result<Presentation, FormRefusal>
    ensures { Gives itself result notes.new
        (parse_object reader.now.signatures.now (datum_of object.now) (datum_of spec.now) single_box
        (variables_of reader.now.scope.now) notes.old) }
{
    let object = parse_expression(reader, object, notes)?;
    let spec = parse_type(reader, &Names::new(reader.alloc), spec, notes)?;
    Ok(Presentation::new(reader.alloc, object, spec, single_box)?)
}
