//! The constants and the tokens of a type specifier.
ghost use Rattle.std.specs.Prelude.{◌≡◌, IfOk, map, option_map};
ghost use Rattle.cl_forms.specs.DatumView.{datum_of};
ghost use Rattle.cl_forms.specs.Naming.{symbol_of};
ghost use Rattle.cl_syntax.specs.TypeSpec.{arg_tree_of};
ghost use Rattle.cl_bodies.specs.TypeArguments.{argument_in, arguments_in, first_stray, is_number, is_stray, is_wanted, may_all_stand, may_stand, tokens_in, word_argument, word_constant};
ghost use Rattle.cl_value.specs.Value.{data_of};

use cl_forms::{Datum, are_names, is_key, symbol_text};
use cl_syntax::TypeArg;
use cl_table::Names;
use cl_value::{Text, Value};
use std::alloc::{AllocError, Global};

/// What constants a type takes.
#[derive(Clone, Copy)]
pub enum Wanted {
    /// Numbers, and `*` for no bound.
    NumberOrStar,
    Number,
    Constant,
    /// Constants, and `*`.
    ConstantOrStar,
}

// The constant that a word is; a key is none.
fn word_constant(word: &Text) -> Result<Option<TypeArg>, AllocError>
    ensures { IfOk result (λ a. option_map arg_tree_of a ≡ word_constant word.now) }
{
    if word.as_slice() == b"true".as_slice() {
        Ok(Some(TypeArg::Constant(Value::Bool(true))))
    } else if word.as_slice() == b"false".as_slice() {
        Ok(Some(TypeArg::Constant(Value::Bool(false))))
    } else if word.as_slice() == b"null".as_slice() {
        Ok(Some(TypeArg::Constant(Value::Null)))
    } else if is_key(word.as_slice()) {
        Ok(None)
    } else {
        Ok(Some(TypeArg::Constant(Value::Symbol(word.copy()?))))
    }
}

// A parameter of the declaration around, `*`, or a constant.
fn word_argument(parameters: &Names, word: &Text) -> Result<Option<TypeArg>, AllocError>
    ensures { IfOk result (λ a. option_map arg_tree_of a ≡ word_argument parameters.now word.now) }
{
    if parameters.place_of(word.as_slice()).is_some() {
        return Ok(Some(TypeArg::Param(word.copy()?)));
    }
    if word.as_slice() == b"*".as_slice() {
        return Ok(Some(TypeArg::Any));
    }
    word_constant(word)
}

// What an argument is that is no specifier.
fn argument_in(parameters: &Names, datum: &Datum) -> Result<Option<TypeArg>, AllocError>
    ensures { IfOk result (λ a. option_map arg_tree_of a ≡ argument_in parameters.now (datum_of datum.now)) }
{
    match datum {
        Datum::Number(number, _) => Ok(Some(TypeArg::Constant(Value::Int(*number)))),
        Datum::Literal(text, _) => Ok(Some(TypeArg::Constant(Value::Text(text.copy()?)))),
        Datum::Word(word, _) => word_argument(parameters, word),
        Datum::Quoted(name, _, _) => Ok(Some(TypeArg::Constant(Value::Symbol(name.copy()?)))),
        Datum::Stray(_) => Ok(None),
        Datum::List(_, _) => Ok(None),
    }
}

fn is_number(value: &Value) -> bool
    ensures { result ≡ is_number (data_of value.now) }
{
    match value {
        Value::Int(_) => true,
        Value::Bool(_) => false,
        Value::Text(_) => false,
        Value::Symbol(_) => false,
        Value::Null => false,
        Value::List(_) => false,
        Value::Record(_, _) => false,
    }
}

fn is_wanted(wanted: Wanted, arg: &TypeArg) -> bool
    ensures { result ≡ is_wanted wanted (arg_tree_of arg.now) }
{
    match arg {
        TypeArg::Constant(value) => match wanted {
            Wanted::NumberOrStar => is_number(value),
            Wanted::Number => is_number(value),
            Wanted::Constant => true,
            Wanted::ConstantOrStar => true,
        },
        TypeArg::Any => match wanted {
            Wanted::NumberOrStar => true,
            Wanted::Number => false,
            Wanted::Constant => false,
            Wanted::ConstantOrStar => true,
        },
        TypeArg::Param(_) => match wanted {
            Wanted::NumberOrStar => true,
            Wanted::Number => true,
            Wanted::Constant => true,
            Wanted::ConstantOrStar => true,
        },
        TypeArg::Spec(_) => match wanted {
            Wanted::NumberOrStar => false,
            Wanted::Number => false,
            Wanted::Constant => false,
            Wanted::ConstantOrStar => false,
        },
        TypeArg::Names(_) => match wanted {
            Wanted::NumberOrStar => false,
            Wanted::Number => false,
            Wanted::Constant => false,
            Wanted::ConstantOrStar => false,
        },
    }
}

fn is_stray(datum: &Datum) -> bool
    ensures { result ≡ is_stray (datum_of datum.now) }
{
    match datum {
        Datum::Number(_, _) => false,
        Datum::Literal(_, _) => false,
        Datum::Word(_, _) => false,
        Datum::Quoted(_, _, _) => false,
        Datum::Stray(_) => true,
        Datum::List(_, _) => false,
    }
}

// Whether a datum may stand where such a constant is wanted. A stray quote is refused where it stands.
fn may_stand(parameters: &Names, wanted: Wanted, datum: &Datum) -> Result<bool, AllocError>
    ensures { IfOk result (λ b. b ≡ may_stand parameters.now wanted (datum_of datum.now)) }
{
    match argument_in(parameters, datum)? {
        None => Ok(is_stray(datum)),
        Some(arg) => Ok(is_wanted(wanted, &arg)),
    }
}

/// Whether all data may stand where such constants are wanted.
pub(crate) fn may_all_stand(
    parameters: &Names,
    wanted: Wanted,
    parts: &[Datum],
) -> Result<bool, AllocError>
    ensures { IfOk result (λ b. b ≡ may_all_stand parameters.now wanted (map datum_of parts.now)) }
{
    for part in parts {
        if !may_stand(parameters, wanted, part)? {
            return Ok(false);
        }
    }
    Ok(true)
}

/// The offset of the first stray quote.
pub(crate) fn first_stray(parts: &[Datum]) -> Option<u32>
    ensures { result ≡ first_stray (map datum_of parts.now) }
{
    for part in parts {
        if is_stray(part) {
            return Some(part.offset());
        }
    }
    None
}

/// The arguments among data.
pub(crate) fn arguments_in(
    alloc: Global,
    parameters: &Names,
    parts: &[Datum],
) -> Result<Vec<TypeArg>, AllocError>
    ensures { IfOk result (λ v. map arg_tree_of v.items ≡ arguments_in parameters.now (map datum_of parts.now)) }
{
    let mut args = Vec::new(alloc);
    for part in parts {
        if let Some(arg) = argument_in(parameters, part)? {
            args.push(arg)?;
        }
    }
    Ok(args)
}

// The symbols of data.
fn symbols_of(alloc: Global, parts: &[Datum]) -> Result<Names, AllocError>
    ensures { IfOk result (λ names. names ≡ map symbol_of (map datum_of parts.now)) }
{
    let mut names = Names::new(alloc);
    for part in parts {
        names.push(symbol_text(alloc, part)?)?;
    }
    Ok(names)
}

/// The tokens in a list of names.
#[tactic(auto, using(cl_forms::proofs::Data::data_in_order))]
pub(crate) fn tokens_in(alloc: Global, datum: &Datum) -> Result<Option<Names>, AllocError>
    ensures { IfOk result (λ names. names ≡ tokens_in (datum_of datum.now)) }
{
    match datum {
        Datum::List(parts, _) => {
            if are_names(parts.as_slice()) {
                Ok(Some(symbols_of(alloc, parts.as_slice())?))
            } else {
                Ok(None)
            }
        }
        Datum::Number(_, _) => Ok(None),
        Datum::Literal(_, _) => Ok(None),
        Datum::Word(_, _) => Ok(None),
        Datum::Quoted(_, _, _) => Ok(None),
        Datum::Stray(_) => Ok(None),
    }
}
