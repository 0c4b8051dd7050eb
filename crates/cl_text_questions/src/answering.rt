//! Answers to questions on texts.
use crate::questions::Question;
use crate::subjects::Subject;
use cl_eval::{Evaluated, Limits, Types};
use cl_host::HostType;
use cl_outside::own_steps;
use cl_print::{put_plain, put_value};
use cl_ptext::{Accepted, HostTypes, TypeBook};
use cl_syntax::TypeSpec;
use cl_value::{Text, Value};
use std::alloc::{AllocError, Global};

/// How many forms the present methods of a text may enter in all, and how many may be entered and not left.
const LIMITS: Limits = Limits {
    budget: 1_000_000,
    depth: 512,
};

/// The answer to a question with these host types. To `text` it is the text, with ` cost N` behind it where methods entered N
/// forms, or `trap KIND at COST`; to `accept` the printed form of the object, `refused` or `trap KIND`.
pub fn answer_of(
    alloc: Global,
    subject: &Subject,
    hosts: &[HostType],
    question: &Question,
) -> Result<Vec<u8>, AllocError> {
    let hosts = HostTypes { types: hosts };
    let book = TypeBook::new(alloc, &subject.app, &subject.lattice, &hosts);
    match question {
        Question::Text(value, spec) => text_of(alloc, &book, subject, value, spec),
        Question::Accept(spec, text) => object_of(alloc, &book, subject, spec, text),
    }
}

fn text_of(
    alloc: Global,
    book: &TypeBook<'_, HostTypes<'_>>,
    subject: &Subject,
    value: &Value,
    spec: &TypeSpec,
) -> Result<Vec<u8>, AllocError> {
    let mut answer = Vec::new(alloc);
    match book.text(value, spec, &subject.slots, LIMITS, &mut own_steps()) {
        Evaluated::Value(text, cost, _) => {
            put_plain(&mut answer, &text)?;
            if cost > 0 {
                answer.extend_from_slice(format!(in alloc; " cost {cost}")?.as_bytes())?;
            }
        }
        Evaluated::Trap(kind, cost) => {
            answer.extend_from_slice(format!(in alloc; "trap {kind} at {cost}")?.as_bytes())?
        }
        Evaluated::Memory => return Err(AllocError),
    }
    Ok(answer)
}

fn object_of(
    alloc: Global,
    book: &TypeBook<'_, HostTypes<'_>>,
    subject: &Subject,
    spec: &TypeSpec,
    text: &Text,
) -> Result<Vec<u8>, AllocError> {
    let mut answer = Vec::new(alloc);
    match book.accept(spec, text.as_slice(), &subject.slots) {
        Accepted::Object(value) => put_value(&mut answer, &value)?,
        Accepted::Refused => answer.extend_from_slice(b"refused")?,
        Accepted::Trap(kind) => {
            answer.extend_from_slice(format!(in alloc; "trap {kind}")?.as_bytes())?
        }
        Accepted::Memory => return Err(AllocError),
    }
    Ok(answer)
}
