//! Values as they are written in questions.
use cl_forms::{Datum, FormRefusal};
use cl_value::{Text, Value, Values};
use std::alloc::Global;

/// The value that a datum is: a number, a text, `true`, `false`, `null`, `'SYMBOL`, `(list VALUE ...)` or `(make RECORD VALUE ...)`.
#[cycle(value)]
pub fn value_in(alloc: Global, datum: &Datum) -> Result<Value, FormRefusal> {
    match datum {
        Datum::Number(number, _) => Ok(Value::Int(*number)),
        Datum::Literal(text, _) => Ok(Value::Text(text.copy()?)),
        Datum::Quoted(name, _, _) => Ok(Value::Symbol(name.copy()?)),
        Datum::Word(word, at) => constant_in(word, *at),
        Datum::Stray(at) => Err(FormRefusal::Refused(6, *at)),
        Datum::List(parts, at) => made_value(alloc, *at, parts.as_slice()),
    }
}

fn constant_in(word: &Text, at: u32) -> Result<Value, FormRefusal> {
    match constant_named(word.as_slice()) {
        Some(value) => Ok(value),
        None => Err(FormRefusal::Refused(6, at)),
    }
}

/// The value that a word stands for: `true`, `false` or `null`.
pub(crate) fn constant_named(word: &[u8]) -> Option<Value> {
    if word == b"true".as_slice() {
        Some(Value::Bool(true))
    } else if word == b"false".as_slice() {
        Some(Value::Bool(false))
    } else if word == b"null".as_slice() {
        Some(Value::Null)
    } else {
        None
    }
}

// A list or a record, by the word at its head.
#[cycle(value)]
fn made_value(alloc: Global, at: u32, parts: &[Datum]) -> Result<Value, FormRefusal> {
    match parts {
        [] => Err(FormRefusal::Refused(6, at)),
        [head, more @ ..] => match head {
            Datum::Word(word, _) => {
                if word.as_slice() == b"list".as_slice() {
                    Ok(Value::List(values_in(alloc, more)?))
                } else if word.as_slice() == b"make".as_slice() {
                    made_record(alloc, at, more)
                } else {
                    Err(FormRefusal::Refused(6, at))
                }
            }
            _ => Err(FormRefusal::Refused(6, at)),
        },
    }
}

// A record of this name and these fields.
#[cycle(value)]
fn made_record(alloc: Global, at: u32, parts: &[Datum]) -> Result<Value, FormRefusal> {
    match parts {
        [] => Err(FormRefusal::Refused(6, at)),
        [head, fields @ ..] => match head {
            Datum::Word(name, _) => {
                let fields = values_in(alloc, fields)?;
                Ok(Value::Record(name.copy()?, fields))
            }
            _ => Err(FormRefusal::Refused(6, at)),
        },
    }
}

/// The values that data are, in their order.
#[cycle(value)]
#[tactic(auto, using(cl_forms::proofs::Data::datum_weighs))]
pub(crate) fn values_in(alloc: Global, parts: &[Datum]) -> Result<Values, FormRefusal> {
    let mut values = Vec::new(alloc);
    for part in parts {
        values.push(value_in(alloc, part)?)?;
    }
    Ok(Values::from_vec(alloc, values)?)
}
