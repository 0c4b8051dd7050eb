//! Answers the questions on an application.
use crate::faults::Fault;
use crate::paths::paths_in;
use crate::questions::{Question, Sheet};
use cl_application::App;
use cl_cover::{expression_reads, first_uncovered, path_text, reads};
use cl_host::{month_number, shipped_types, weekday_number};
use cl_load::load;
use cl_ptext::HostTypes;
use cl_syntax::{Path, Shape};
use std::alloc::{AllocError, Global};

/// The answers to the questions of a sheet, a line each.
pub fn answer_sheet(alloc: Global, sheet: &Sheet) -> Result<String, Fault> {
    let day = Box::new(alloc, |text: &[u8]| weekday_number(text))?;
    let month = Box::new(alloc, |text: &[u8]| month_number(text))?;
    let types = shipped_types(alloc, day, month)?;
    let hosts = HostTypes { types: &types };
    let loaded = load(alloc, sheet.application.as_bytes(), &hosts)?;
    answer_all(alloc, &loaded.app, sheet.questions.as_slice())
}

fn answer_all(alloc: Global, app: &App, questions: &[Question]) -> Result<String, Fault> {
    let mut answers = Vec::new(alloc);
    for question in questions {
        answer(alloc, app, question, &mut answers)?;
        answers.push(b'\n')?;
    }
    Ok(String::from_utf8_lossy(alloc, answers.as_slice())?)
}

// The answer to a question, as a line.
fn answer(
    alloc: Global,
    app: &App,
    question: &Question<'_>,
    answers: &mut Vec<u8>,
) -> Result<(), Fault> {
    match *question {
        Question::Display(name) => {
            let paths = reads(alloc, app, body_of(app, name)?)?;
            put_paths(alloc, paths.as_slice(), answers)?;
        }
        Question::Uncovered(name, listed) => {
            let path = uncovered(alloc, app, name, listed)?;
            put_uncovered(alloc, path, answers)?;
        }
        Question::Function(name) => {
            let paths = function_reads(alloc, app, name)?;
            put_paths(alloc, paths.as_slice(), answers)?;
        }
    }
    Ok(())
}

// The body of the display of that name.
fn body_of<'a>(app: &'a App, name: &str) -> Result<&'a [Shape], Fault> {
    match app.shape_of(name.as_bytes()) {
        Some(display) => Ok(display.body.as_slice()),
        None => Err(Fault::Wrong),
    }
}

// The first path of a display that these do not cover.
fn uncovered(alloc: Global, app: &App, name: &str, listed: &str) -> Result<Option<Path>, Fault> {
    let listed = paths_in(alloc, listed)?;
    Ok(first_uncovered(alloc, app, listed.as_slice(), body_of(app, name)?)?)
}

// The paths of the function of that name.
fn function_reads(alloc: Global, app: &App, name: &str) -> Result<Vec<Path>, Fault> {
    match app.function(name.as_bytes()) {
        Some(function) => Ok(expression_reads(alloc, app, &function.body)?),
        None => Err(Fault::Wrong),
    }
}

// The paths with one space between them.
fn put_paths(alloc: Global, paths: &[Path], answers: &mut Vec<u8>) -> Result<(), AllocError> {
    let [first, more @ ..] = paths else {
        return answers.extend_from_slice(b"nothing");
    };
    put_path(alloc, first, answers)?;
    for path in more {
        answers.push(b' ')?;
        put_path(alloc, path, answers)?;
    }
    Ok(())
}

fn put_uncovered(
    alloc: Global,
    path: Option<Path>,
    answers: &mut Vec<u8>,
) -> Result<(), AllocError> {
    match path {
        Some(path) => put_path(alloc, &path, answers),
        None => answers.extend_from_slice(b"covered"),
    }
}

fn put_path(alloc: Global, path: &Path, answers: &mut Vec<u8>) -> Result<(), AllocError> {
    let text = path_text(alloc, path)?;
    answers.extend_from_slice(text.as_slice())
}
