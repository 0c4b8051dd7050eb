//! Questions on types, as texts have them.
use crate::specifiers::specifier_in;
use crate::values::value_in;
use cl_forms::{Datum, FormRefusal, symbol_of, symbol_text};
use cl_syntax::TypeSpec;
use cl_table::Names;
use cl_value::{Text, Value};
use std::alloc::Global;

/// A question on types.
#[derive(Drop)]
pub enum Question {
    /// Whether the first type is a subtype of the second.
    Subtype(TypeSpec, TypeSpec),
    /// Whether the value is a member of the type.
    Member(Value, TypeSpec),
    /// The precedence list of the type of this name.
    Precedence(Text),
}

/// The question that data are: `subtype SPECIFIER SPECIFIER`, `member VALUE SPECIFIER` or `precedence NAME`.
pub fn question_in(alloc: Global, parts: &[Datum]) -> Result<Question, FormRefusal> {
    match parts {
        [asked, name] => match symbol_of(asked) {
            b"precedence" => Ok(Question::Precedence(symbol_text(alloc, name)?)),
            _ => Err(FormRefusal::Refused(5, asked.offset())),
        },
        [asked, first, second] => match symbol_of(asked) {
            b"subtype" => subtype_question(alloc, first, second),
            b"member" => member_question(alloc, first, second),
            _ => Err(FormRefusal::Refused(5, asked.offset())),
        },
        _ => Err(FormRefusal::Refused(5, 0)),
    }
}

fn subtype_question(alloc: Global, a: &Datum, b: &Datum) -> Result<Question, FormRefusal> {
    let a = specifier_in(alloc, a, &Names::new(alloc))?;
    let b = specifier_in(alloc, b, &Names::new(alloc))?;
    Ok(Question::Subtype(a, b))
}

fn member_question(alloc: Global, value: &Datum, spec: &Datum) -> Result<Question, FormRefusal> {
    let value = value_in(alloc, value)?;
    let spec = specifier_in(alloc, spec, &Names::new(alloc))?;
    Ok(Question::Member(value, spec))
}
