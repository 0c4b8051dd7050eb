//! What the questions are asked of, and how.
use crate::{Question, answer_of, question_in, subject_in};
use cl_forms::FormRefusal;
use cl_host::{HostType, month_names, month_number, weekday_names, weekday_number};
use cl_questions::{data_in_text, specifier_in};
use cl_syntax::TypeSpec;
use cl_table::Names;
use cl_value::{Text, Value};
use std::alloc::Global;
use std::process::Abort;
use std::test::Fail;

/// A question of bytes that cannot be written in a literal, with its answer.
#[derive(Drop)]
pub enum Raw {
    /// The text of these bytes by a type.
    Text(&'static [u8], &'static str, &'static [u8]),
    /// What these bytes read as by a type.
    Accept(&'static str, &'static [u8], &'static [u8]),
}

/// A question as it is told, itself, and its answer.
#[derive(Drop)]
struct Row<'a> {
    told: &'a str,
    question: Question,
    wanted: &'a [u8],
}

/// Asks each question.
pub fn ask_all(
    rt: &(impl Abort + AllocGlobal),
    declared: &str,
    questions: &[(&str, &str)],
) -> Result<(), Fail> {
    let mut rows = Vec::new(rt.alloc());
    for (told, wanted) in questions {
        let question = question_of(rt.alloc(), told)?;
        let wanted = wanted.as_bytes();
        rows.push(Row {
            told,
            question,
            wanted,
        })?;
    }
    ask_rows(rt, declared, rows.as_slice())
}

/// Asks each question of bytes.
pub fn ask_raw(
    rt: &(impl Abort + AllocGlobal),
    declared: &str,
    questions: &[Raw],
) -> Result<(), Fail> {
    let mut rows = Vec::new(rt.alloc());
    for question in questions {
        rows.push(raw_row(rt.alloc(), question)?)?;
    }
    ask_rows(rt, declared, rows.as_slice())
}

fn question_of(alloc: Global, told: &str) -> Result<Question, FormRefusal> {
    let data = data_in_text(alloc, told.as_bytes())?;
    question_in(alloc, data.as_slice())
}

fn raw_row(alloc: Global, asked: &Raw) -> Result<Row<'static>, FormRefusal> {
    match asked {
        Raw::Text(bytes, spec, wanted) => {
            let text = Value::Text(Text::from_slice(alloc, bytes)?);
            let question = Question::Text(text, specifier_of(alloc, spec)?);
            Ok(Row {
                told: spec,
                question,
                wanted,
            })
        }
        Raw::Accept(spec, bytes, wanted) => {
            let text = Text::from_slice(alloc, bytes)?;
            let question = Question::Accept(specifier_of(alloc, spec)?, text);
            Ok(Row {
                told: spec,
                question,
                wanted,
            })
        }
    }
}

fn specifier_of(alloc: Global, spec: &str) -> Result<TypeSpec, FormRefusal> {
    let data = data_in_text(alloc, spec.as_bytes())?;
    match data.as_slice() {
        [spec] => specifier_in(alloc, spec, &Names::new(alloc)),
        _ => Err(FormRefusal::Refused(6, 0)),
    }
}

// Asks each question of what a text declares, with the host types that are shipped.
fn ask_rows(rt: &(impl Abort + AllocGlobal), declared: &str, rows: &[Row<'_>]) -> Result<(), Fail> {
    let data = data_in_text(rt.alloc(), declared.as_bytes())?;
    let subject = subject_in(rt.alloc(), data.as_slice())?;
    let day: Box<dyn Fn(&[u8]) -> Option<i64>> = Box::new(
        rt.alloc(),
        |text: &[u8]| weekday_number(text),
    )?;
    let month: Box<dyn Fn(&[u8]) -> Option<i64>> = Box::new(
        rt.alloc(),
        |text: &[u8]| month_number(text),
    )?;
    let name = Text::from_slice(rt.alloc(), b"weekday")?;
    let days = HostType::new(name, 0, 6, weekday_names(rt.alloc())?, day);
    let name = Text::from_slice(rt.alloc(), b"month")?;
    let months = HostType::new(name, 1, 12, month_names(rt.alloc())?, month);
    let hosts = [days, months];
    for row in rows {
        let answer = answer_of(rt.alloc(), &subject, &hosts, &row.question)?;
        let shown = String::from_utf8_lossy(rt.alloc(), answer.as_slice())?;
        let told = row.told;
        assert_eq!(rt; answer.as_slice(), row.wanted, "{told}: {shown}");
    }
    Ok(())
}
