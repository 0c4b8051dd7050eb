//! Specifiers as texts have them.
use crate::values::constant_named;
use cl_forms::{Datum, FormRefusal, Key, Keyed, keyed_pairs, symbol_text, values_of};
use cl_syntax::{StandardType, TypeArg, TypeArgs, TypeOptions, TypeSpec, standard_named};
use cl_table::Names;
use cl_value::{Text, Value};
use std::alloc::Global;

/// The keys of the options of a specifier.
const OPTION_KEYS: [Key; 2] = [Key::Description, Key::Separator];

/// What an argument of a specifier is read as.
#[derive(Clone, Copy)]
enum Wanted {
    Constant,
    Specifier,
    Tokens,
}

/// The specifier that a datum is: `NAME`, `(NAME ARGUMENT ...)` or `((NAME ARGUMENT ...) OPTION ...)`. A bare name that is one
/// of these parameters is that parameter, and any other is a symbol.
#[cycle(specifier)]
pub fn specifier_in(
    alloc: Global,
    datum: &Datum,
    parameters: &Names,
) -> Result<TypeSpec, FormRefusal> {
    match datum {
        Datum::Word(name, _) => Ok(TypeSpec::plain(name.copy()?)),
        Datum::List(parts, at) => listed(alloc, *at, parts.as_slice(), parameters),
        Datum::Number(_, at) => Err(FormRefusal::Refused(6, *at)),
        Datum::Literal(_, at) => Err(FormRefusal::Refused(6, *at)),
        Datum::Quoted(_, at, _) => Err(FormRefusal::Refused(6, *at)),
        Datum::Stray(at) => Err(FormRefusal::Refused(6, *at)),
    }
}

// A specifier in parentheses, which begins with its name, or with a specifier before its options.
#[cycle(specifier)]
fn listed(
    alloc: Global,
    at: u32,
    parts: &[Datum],
    parameters: &Names,
) -> Result<TypeSpec, FormRefusal> {
    match parts {
        [] => Err(FormRefusal::Refused(6, at)),
        [head, more @ ..] => match head {
            Datum::List(inner, inner_at) => {
                let options = options_in(alloc, at, more)?;
                headed(alloc, *inner_at, inner.as_slice(), parameters, options)
            }
            _ => headed(alloc, at, parts, parameters, TypeOptions::none()),
        },
    }
}

// A name with its arguments.
#[cycle(specifier)]
fn headed(
    alloc: Global,
    at: u32,
    parts: &[Datum],
    parameters: &Names,
    options: TypeOptions,
) -> Result<TypeSpec, FormRefusal> {
    match parts {
        [] => Err(FormRefusal::Refused(6, at)),
        [head, more @ ..] => match head {
            Datum::Word(name, _) => {
                let args = arguments_in(alloc, standard_named(name.as_slice()), more, parameters)?;
                Ok(TypeSpec::new(name.copy()?, args, options))
            }
            _ => Err(FormRefusal::Refused(6, at)),
        },
    }
}

#[cycle(specifier)]
#[tactic(auto, using(cl_forms::proofs::Data::datum_weighs))]
fn arguments_in(
    alloc: Global,
    standard: Option<StandardType>,
    parts: &[Datum],
    parameters: &Names,
) -> Result<TypeArgs, FormRefusal> {
    let mut args = Vec::new(alloc);
    let mut place: usize = 0;
    for part in parts {
        args.push(argument_in(alloc, wanted_at(standard, place), part, parameters)?)?;
        place = place.saturating_add(1);
    }
    Ok(TypeArgs::from_vec(alloc, args)?)
}

#[cycle(specifier)]
fn argument_in(
    alloc: Global,
    wanted: Wanted,
    part: &Datum,
    parameters: &Names,
) -> Result<TypeArg, FormRefusal> {
    match wanted {
        Wanted::Constant => constant_in(part, parameters),
        Wanted::Specifier => Ok(TypeArg::Spec(specifier_in(alloc, part, parameters)?)),
        Wanted::Tokens => Ok(TypeArg::Names(names_in(alloc, part.parts())?)),
    }
}

// What the argument at a place is, counted from 0: specifiers, but for the tokens of a `token-or-type`; else a constant.
fn wanted_at(standard: Option<StandardType>, place: usize) -> Wanted {
    match standard {
        Some(StandardType::Sequence) => Wanted::Specifier,
        Some(StandardType::Or) => Wanted::Specifier,
        Some(StandardType::And) => Wanted::Specifier,
        Some(StandardType::NullOrType) => Wanted::Specifier,
        Some(StandardType::TokenOrType) => {
            if place == 0 {
                Wanted::Tokens
            } else {
                Wanted::Specifier
            }
        }
        _ => Wanted::Constant,
    }
}

// A constant, `*`, or a parameter.
fn constant_in(part: &Datum, parameters: &Names) -> Result<TypeArg, FormRefusal> {
    match part {
        Datum::Number(number, _) => Ok(TypeArg::Constant(Value::Int(*number))),
        Datum::Literal(text, _) => Ok(TypeArg::Constant(Value::Text(text.copy()?))),
        Datum::Quoted(name, _, _) => Ok(TypeArg::Constant(Value::Symbol(name.copy()?))),
        Datum::Word(word, _) => word_in(word, parameters),
        Datum::Stray(at) => Err(FormRefusal::Refused(6, *at)),
        Datum::List(_, at) => Err(FormRefusal::Refused(6, *at)),
    }
}

fn word_in(word: &Text, parameters: &Names) -> Result<TypeArg, FormRefusal> {
    if parameters.place_of(word.as_slice()).is_some() {
        return Ok(TypeArg::Param(word.copy()?));
    }
    if word.as_slice() == b"*".as_slice() {
        return Ok(TypeArg::Any);
    }
    match constant_named(word.as_slice()) {
        Some(value) => Ok(TypeArg::Constant(value)),
        None => Ok(TypeArg::Constant(Value::Symbol(word.copy()?))),
    }
}

/// The symbols of data, in their order.
pub fn names_in(alloc: Global, parts: &[Datum]) -> Result<Names, FormRefusal> {
    let mut names = Names::new(alloc);
    for part in parts {
        names.push(symbol_text(alloc, part)?)?;
    }
    Ok(names)
}

// The options of a specifier.
fn options_in(alloc: Global, at: u32, parts: &[Datum]) -> Result<TypeOptions, FormRefusal> {
    match keyed_pairs(alloc, &OPTION_KEYS, parts)? {
        Some(keyed) => Ok(TypeOptions {
            description: description_in(keyed.as_slice())?,
            separator: separator_in(keyed.as_slice()),
        }),
        None => Err(FormRefusal::Refused(6, at)),
    }
}

fn description_in(keyed: &[Keyed]) -> Result<Option<Text>, FormRefusal> {
    match values_of(Key::Description, keyed) {
        Some([Datum::Literal(text, _)]) => Ok(Some(text.copy()?)),
        _ => Ok(None),
    }
}

fn separator_in(keyed: &[Keyed]) -> Option<u8> {
    match values_of(Key::Separator, keyed) {
        Some([Datum::Literal(text, _)]) => text.as_slice().first().copied(),
        _ => None,
    }
}
