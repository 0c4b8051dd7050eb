//! What stands behind the names of types.
ghost use Rattle.std.specs.Prelude.{◌≡◌, map};
ghost use Rattle.cl_forms.specs.Datum.{datums_of};
ghost use Rattle.cl_forms.specs.DatumView.{datum_of};
ghost use Rattle.cl_expressions.specs.Load.{Gives, Notes as Noted};
ghost use Rattle.cl_bodies.specs.Specifiers.{parse_at_most, parse_constants, parse_each_type, parse_given, parse_nothing, parse_one_type, parse_some_types, parse_tokens_and_type, type_subs};
ghost use Rattle.cl_bodies.specs.TypeViews.{args_of};

use crate::specifiers::parse_type;
use crate::type_arguments::{Wanted, arguments_in, first_stray, may_all_stand, tokens_in};
use cl_expressions::{Notes, Reader};
use cl_forms::{Datum, FormRefusal, fits};
use cl_syntax::TypeArg;
use cl_table::Names;
use std::alloc::Global;

/// No argument.
pub(crate) fn parse_nothing(
    alloc: Global,
    at: u32,
    parts: &[Datum],
) -> Result<Vec<TypeArg>, FormRefusal>
    ensures { (n : Noted) → Gives args_of result n (parse_nothing at (map datum_of parts.now) n) }
{
    match parts {
        [] => Ok(Vec::new(alloc)),
        [_, ..] => Err(FormRefusal::Refused(6, at)),
    }
}

/// Constants that are all of a kind.
pub(crate) fn parse_constants(
    alloc: Global,
    parameters: &Names,
    wanted: Wanted,
    at: u32,
    parts: &[Datum],
) -> Result<Vec<TypeArg>, FormRefusal>
    ensures { (n : Noted) → Gives args_of result n (parse_constants parameters.now wanted at (map datum_of parts.now) n) }
{
    if !may_all_stand(parameters, wanted, parts)? {
        return Err(FormRefusal::Refused(6, at));
    }
    match first_stray(parts) {
        Some(stray_at) => Err(FormRefusal::Refused(6, stray_at)),
        None => Ok(arguments_in(alloc, parameters, parts)?),
    }
}

/// At most so many constants, all of a kind.
pub(crate) fn parse_at_most(
    alloc: Global,
    most: usize,
    parameters: &Names,
    wanted: Wanted,
    at: u32,
    parts: &[Datum],
) -> Result<Vec<TypeArg>, FormRefusal>
    ensures { (n : Noted) → Gives args_of result n (parse_at_most most parameters.now wanted at (map datum_of parts.now) n) }
{
    if parts.len() > most {
        return Err(FormRefusal::Refused(6, at));
    }
    parse_constants(alloc, parameters, wanted, at, parts)
}

/// As many constants as are asked for, or `*` for each.
pub(crate) fn parse_given(
    alloc: Global,
    count: Option<usize>,
    parameters: &Names,
    at: u32,
    parts: &[Datum],
) -> Result<Vec<TypeArg>, FormRefusal>
    ensures { (n : Noted) → Gives args_of result n (parse_given count parameters.now at (map datum_of parts.now) n) }
{
    if !fits(count, parts.len()) {
        return Err(FormRefusal::Refused(6, at));
    }
    parse_constants(alloc, parameters, Wanted::ConstantOrStar, at, parts)
}

/// One specifier.
#[cycle(specifier)]
#[tactic(auto, using(crate::proofs::TypeSubs::subs_counted))]
pub(crate) fn parse_one_type(
    reader: &Reader,
    parameters: &Names,
    at: u32,
    parts: &[Datum],
    notes: &mut Notes,
) -> Result<Vec<TypeArg>, FormRefusal>
    ensures { Gives args_of result notes.new
        (parse_one_type at (type_subs reader.now.signatures.now parameters.now (datums_of (map datum_of parts.now))) notes.old) }
{
    if parts.len() != 1 {
        return Err(FormRefusal::Refused(6, at));
    }
    parse_each_type(reader, parameters, parts, notes)
}

/// One specifier or more.
#[cycle(specifier)]
#[tactic(auto, using(crate::proofs::TypeSubs::subs_counted))]
pub(crate) fn parse_some_types(
    reader: &Reader,
    parameters: &Names,
    at: u32,
    parts: &[Datum],
    notes: &mut Notes,
) -> Result<Vec<TypeArg>, FormRefusal>
    ensures { Gives args_of result notes.new
        (parse_some_types at (type_subs reader.now.signatures.now parameters.now (datums_of (map datum_of parts.now))) notes.old) }
{
    if parts.is_empty() {
        return Err(FormRefusal::Refused(6, at));
    }
    parse_each_type(reader, parameters, parts, notes)
}

/// `(NAME ...) SPECIFIER`
#[cycle(specifier)]
#[tactic(auto, using(crate::proofs::TypeSubs::tokens_counts))]
pub(crate) fn parse_tokens_and_type(
    reader: &Reader,
    parameters: &Names,
    at: u32,
    parts: &[Datum],
    notes: &mut Notes,
) -> Result<Vec<TypeArg>, FormRefusal>
    ensures { Gives args_of result notes.new
        (parse_tokens_and_type at (type_subs reader.now.signatures.now parameters.now (datums_of (map datum_of parts.now))) notes.old) }
{
    match parts {
        [tokens, inner] => {
            let Some(tokens) = tokens_in(reader.alloc, tokens)? else {
                return Err(FormRefusal::Refused(6, at));
            };
            let spec = parse_type(reader, parameters, inner, notes)?;
            let mut args = Vec::new(reader.alloc);
            args.push(TypeArg::Names(tokens))?;
            args.push(TypeArg::Spec(spec))?;
            Ok(args)
        }
        [] => Err(FormRefusal::Refused(6, at)),
        [_] => Err(FormRefusal::Refused(6, at)),
        [_, _, _, ..] => Err(FormRefusal::Refused(6, at)),
    }
}

// All arguments are specifiers.
#[cycle(specifier)]
#[tactic(auto, using(cl_forms::proofs::Data::datum_weighs))]
fn parse_each_type(
    reader: &Reader,
    parameters: &Names,
    parts: &[Datum],
    notes: &mut Notes,
) -> Result<Vec<TypeArg>, FormRefusal>
    ensures { Gives args_of result notes.new
        (parse_each_type (type_subs reader.now.signatures.now parameters.now (datums_of (map datum_of parts.now))) notes.old) }
{
    let mut args = Vec::new(reader.alloc);
    for part in parts {
        let spec = parse_type(reader, parameters, part, notes)?;
        args.push(TypeArg::Spec(spec))?;
    }
    Ok(args)
}
