//! Type specifiers.
ghost use Rattle.std.specs.Prelude.{◌≡◌, IfOk, map};
ghost use Rattle.cl_forms.specs.Datum.{datums_of};
ghost use Rattle.cl_forms.specs.DatumView.{datum_of};
ghost use Rattle.cl_expressions.specs.Load.{Gives, itself};
ghost use Rattle.cl_bodies.specs.Specifiers.{parse_arguments, parse_first, parse_headed, parse_inner, parse_listed, parse_named, parse_optioned, parse_parts, parse_type, takes_declared, takes_named, takes_of, type_subs, with_options};
ghost use Rattle.cl_bodies.specs.TypeArguments.{options_in};
ghost use Rattle.cl_bodies.specs.TypeViews.{args_of, parse_specifier};

use crate::type_arguments::Wanted;
use crate::type_options::options_in;
use crate::type_rows::{
    parse_at_most, parse_constants, parse_given, parse_nothing, parse_one_type, parse_some_types,
    parse_tokens_and_type,
};
use cl_expressions::{Notes, Reader};
use cl_forms::{Datum, FormRefusal, name_in};
use cl_syntax::{StandardType, TypeArg, TypeArgs, TypeOptions, TypeSpec, standard_named};
use cl_table::Names;
use cl_value::Text;
use cl_words::{TypeHead, TypeKind};
use std::alloc::{AllocError, Global};

/// What stands behind the name of a type.
#[derive(Clone, Copy)]
pub enum Takes {
    Nothing,
    /// At most two numbers, or `*` for no bound.
    Bounds,
    /// At most one number.
    Length,
    Constants,
    /// As many constants as there are parameters, where these can be counted, or `*` for each.
    Given(Option<usize>),
    OneType,
    SomeTypes,
    TokensAndType,
}

// What a standard type takes; `None` where no text may name it.
fn takes_of(standard: StandardType) -> Option<Takes>
    ensures { result ≡ takes_of standard }
{
    match standard {
        StandardType::T => Some(Takes::Nothing),
        StandardType::Nil => Some(Takes::Nothing),
        StandardType::Boolean => Some(Takes::Nothing),
        StandardType::Integer => Some(Takes::Bounds),
        StandardType::String => Some(Takes::Length),
        StandardType::Symbol => Some(Takes::Nothing),
        StandardType::Member => Some(Takes::Constants),
        StandardType::Subset => Some(Takes::Constants),
        StandardType::Sequence => Some(Takes::OneType),
        StandardType::Or => Some(Takes::SomeTypes),
        StandardType::And => Some(Takes::SomeTypes),
        StandardType::NullOrType => Some(Takes::OneType),
        StandardType::TokenOrType => Some(Takes::TokensAndType),
        StandardType::BlankArea => Some(Takes::Nothing),
        StandardType::Command => Some(Takes::Nothing),
        StandardType::DialogChoice => None,
    }
}

// What a type takes that is no standard one.
fn takes_declared(head: &TypeHead) -> Takes
    ensures { result ≡ takes_declared head.now }
{
    match head.kind {
        TypeKind::Record => Takes::Nothing,
        TypeKind::Host => Takes::Nothing,
        TypeKind::User => Takes::Given(head.count),
    }
}

// What the type of a name takes; `None` where no type has it that a text may name.
fn takes_named(reader: &Reader, name: &[u8]) -> Option<Takes>
    ensures { result ≡ takes_named reader.now.signatures.now name.now }
{
    match standard_named(name) {
        Some(standard) => takes_of(standard),
        None => match reader.signatures.type_head(name) {
            Some(head) => Some(takes_declared(head)),
            None => None,
        },
    }
}

// The same names.
fn copied(alloc: Global, names: &Names) -> Result<Names, AllocError>
    ensures { IfOk result (λ n. n ≡ names.now) }
{
    let mut copied = Names::new(alloc);
    for name in names.as_slice() {
        copied.push(name.copy()?)?;
    }
    Ok(copied)
}

/// The type that a datum is, where these are the parameters of the declaration around. It is noted with its offset, before
/// those that stand in it.
#[cycle(specifier)]
pub fn parse_type(
    reader: &Reader,
    parameters: &Names,
    datum: &Datum,
    notes: &mut Notes,
) -> Result<TypeSpec, FormRefusal>
    ensures { Gives itself result notes.new
        (parse_type reader.now.signatures.now parameters.now (datum_of datum.now) notes.old) }
{
    let place = notes.count();
    let spec = parse_specifier(reader, parameters, datum, notes)?;
    let around = copied(reader.alloc, parameters)?;
    notes.place(place, spec.copy()?, around, datum.offset())?;
    Ok(spec)
}

// The type by itself.
#[cycle(specifier)]
fn parse_specifier(
    reader: &Reader,
    parameters: &Names,
    datum: &Datum,
    notes: &mut Notes,
) -> Result<TypeSpec, FormRefusal>
    ensures { Gives itself result notes.new
        (parse_specifier reader.now.signatures.now parameters.now (datum_of datum.now) notes.old) }
{
    match datum {
        Datum::List(parts, at) => parse_listed(reader, parameters, *at, parts.as_slice(), notes),
        Datum::Word(_, at) => parse_headed(reader, parameters, *at, datum, &[], notes),
        Datum::Number(_, at) => Err(FormRefusal::Refused(6, *at)),
        Datum::Literal(_, at) => Err(FormRefusal::Refused(6, *at)),
        Datum::Quoted(_, at, _) => Err(FormRefusal::Refused(6, *at)),
        Datum::Stray(at) => Err(FormRefusal::Refused(6, *at)),
    }
}

fn with_options(options: TypeOptions, spec: TypeSpec) -> TypeSpec
    ensures { result ≡ with_options options spec }
{
    TypeSpec { options, ..spec }
}

// A list.
#[cycle(specifier)]
fn parse_listed(
    reader: &Reader,
    parameters: &Names,
    at: u32,
    parts: &[Datum],
    notes: &mut Notes,
) -> Result<TypeSpec, FormRefusal>
    ensures { Gives itself result notes.new
        (parse_listed reader.now.signatures.now parameters.now at (datums_of (map datum_of parts.now)) notes.old) }
{
    match parts {
        [] => Err(FormRefusal::Refused(6, at)),
        [first, more @ ..] => parse_first(reader, parameters, at, first, more, notes),
    }
}

// A list by its first part: a list of a name and arguments, or a name.
#[cycle(specifier)]
#[tactic(auto, using(crate::proofs::TypeSubs::shapes_of_subs))]
fn parse_first(
    reader: &Reader,
    parameters: &Names,
    at: u32,
    first: &Datum,
    more: &[Datum],
    notes: &mut Notes,
) -> Result<TypeSpec, FormRefusal>
    ensures { Gives itself result notes.new
        (parse_first reader.now.signatures.now parameters.now at (datum_of first.now)
        (parse_inner reader.now.signatures.now parameters.now at (datum_of first.now))
        (type_subs reader.now.signatures.now parameters.now (datums_of (map datum_of more.now))) notes.old) }
{
    match first {
        Datum::List(inner, _) => {
            parse_optioned(reader, parameters, at, inner.as_slice(), more, notes)
        }
        Datum::Word(_, _) => parse_headed(reader, parameters, at, first, more, notes),
        Datum::Number(_, _) => Err(FormRefusal::Refused(6, at)),
        Datum::Literal(_, _) => Err(FormRefusal::Refused(6, at)),
        Datum::Quoted(_, _, _) => Err(FormRefusal::Refused(6, at)),
        Datum::Stray(_) => Err(FormRefusal::Refused(6, at)),
    }
}

// A name and its arguments, with options behind them.
#[cycle(specifier)]
fn parse_optioned(
    reader: &Reader,
    parameters: &Names,
    at: u32,
    parts: &[Datum],
    options: &[Datum],
    notes: &mut Notes,
) -> Result<TypeSpec, FormRefusal>
    ensures { Gives itself result notes.new
        (parse_optioned at (options_in (map datum_of options.now))
        (parse_parts reader.now.signatures.now parameters.now at (datums_of (map datum_of parts.now))) notes.old) }
{
    match options_in(reader.alloc, options)? {
        Some(options) => {
            let spec = parse_parts(reader, parameters, at, parts, notes)?;
            Ok(with_options(options, spec))
        }
        None => Err(FormRefusal::Refused(6, at)),
    }
}

// A name and its arguments.
#[cycle(specifier)]
fn parse_parts(
    reader: &Reader,
    parameters: &Names,
    at: u32,
    parts: &[Datum],
    notes: &mut Notes,
) -> Result<TypeSpec, FormRefusal>
    ensures { Gives itself result notes.new
        (parse_parts reader.now.signatures.now parameters.now at (datums_of (map datum_of parts.now)) notes.old) }
{
    match parts {
        [] => Err(FormRefusal::Refused(6, at)),
        [head, arguments @ ..] => parse_headed(reader, parameters, at, head, arguments, notes),
    }
}

#[cycle(specifier)]
fn parse_headed(
    reader: &Reader,
    parameters: &Names,
    at: u32,
    head: &Datum,
    arguments: &[Datum],
    notes: &mut Notes,
) -> Result<TypeSpec, FormRefusal>
    ensures { Gives itself result notes.new
        (parse_headed reader.now.signatures.now parameters.now at (datum_of head.now)
        (type_subs reader.now.signatures.now parameters.now (datums_of (map datum_of arguments.now))) notes.old) }
{
    match name_in(head) {
        Some(name) => {
            let place = (head.offset(), at);
            parse_named(reader, parameters, name, place, arguments, notes)
        }
        None => Err(FormRefusal::Refused(6, at)),
    }
}

// A type by its name, with the offsets of the name and of the whole.
#[cycle(specifier)]
fn parse_named(
    reader: &Reader,
    parameters: &Names,
    name: &Text,
    place: (u32, u32),
    arguments: &[Datum],
    notes: &mut Notes,
) -> Result<TypeSpec, FormRefusal>
    ensures { Gives itself result notes.new
        (parse_named reader.now.signatures.now parameters.now name.now place.0 place.1
        (type_subs reader.now.signatures.now parameters.now (datums_of (map datum_of arguments.now))) notes.old) }
{
    let name = name.copy()?;
    match takes_named(reader, name.as_slice()) {
        None => {
            notes.note(false, place.0);
            Ok(TypeSpec::plain(name))
        }
        Some(takes) => {
            let args = parse_arguments(reader, parameters, takes, place.1, arguments, notes)?;
            let args = TypeArgs::from_vec(reader.alloc, args)?;
            Ok(TypeSpec::new(name, args, TypeOptions::none()))
        }
    }
}

// What stands behind the name of a type, by what it takes.
#[cycle(specifier)]
#[tactic(auto, using(crate::proofs::TypeSubs::shapes_of_subs))]
fn parse_arguments(
    reader: &Reader,
    parameters: &Names,
    takes: Takes,
    at: u32,
    parts: &[Datum],
    notes: &mut Notes,
) -> Result<Vec<TypeArg>, FormRefusal>
    ensures { Gives args_of result notes.new
        (parse_arguments parameters.now takes at
        (type_subs reader.now.signatures.now parameters.now (datums_of (map datum_of parts.now))) notes.old) }
{
    let alloc = reader.alloc;
    match takes {
        Takes::Nothing => parse_nothing(alloc, at, parts),
        Takes::Bounds => parse_at_most(alloc, 2, parameters, Wanted::NumberOrStar, at, parts),
        Takes::Length => parse_at_most(alloc, 1, parameters, Wanted::Number, at, parts),
        Takes::Constants => parse_constants(alloc, parameters, Wanted::Constant, at, parts),
        Takes::Given(count) => parse_given(alloc, count, parameters, at, parts),
        Takes::OneType => parse_one_type(reader, parameters, at, parts, notes),
        Takes::SomeTypes => parse_some_types(reader, parameters, at, parts, notes),
        Takes::TokensAndType => parse_tokens_and_type(reader, parameters, at, parts, notes),
    }
}
