//! Questions on texts, as texts have them.
use cl_forms::{Datum, FormRefusal, symbol_of};
use cl_questions::{specifier_in, value_in};
use cl_syntax::TypeSpec;
use cl_table::Names;
use cl_value::{Text, Value};
use std::alloc::Global;

/// A question on texts.
#[derive(Drop)]
pub enum Question {
    /// The text of the value by the type.
    Text(Value, TypeSpec),
    /// What the text reads as by the type.
    Accept(TypeSpec, Text),
}

/// The question that data are: `text VALUE SPECIFIER` or `accept SPECIFIER TEXT`.
pub fn question_in(alloc: Global, parts: &[Datum]) -> Result<Question, FormRefusal> {
    match parts {
        [asked, first, second] => match symbol_of(asked) {
            b"text" => text_question(alloc, first, second),
            b"accept" => accept_question(alloc, first, second),
            _ => Err(FormRefusal::Refused(5, asked.offset())),
        },
        _ => Err(FormRefusal::Refused(5, 0)),
    }
}

fn text_question(alloc: Global, value: &Datum, spec: &Datum) -> Result<Question, FormRefusal> {
    let value = value_in(alloc, value)?;
    let spec = specifier_in(alloc, spec, &Names::new(alloc))?;
    Ok(Question::Text(value, spec))
}

fn accept_question(alloc: Global, spec: &Datum, text: &Datum) -> Result<Question, FormRefusal> {
    let spec = specifier_in(alloc, spec, &Names::new(alloc))?;
    match text {
        Datum::Literal(text, _) => Ok(Question::Accept(spec, text.copy()?)),
        _ => Err(FormRefusal::Refused(6, text.offset())),
    }
}
