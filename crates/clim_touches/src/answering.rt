//! Answers the questions on an application.
ghost use Rattle.std.specs.Prelude.{◌≤◌};

use crate::faults::Fault;
use crate::questions::{Question, Sheet};
use cl_display::{History, Shown, display};
use cl_eval::{Env, Limits, Program, Slots, Types};
use cl_host::{month_number, shipped_types, weekday_number};
use cl_load::{Loaded, load};
use cl_outside::own_steps;
use cl_print::put_value;
use cl_ptext::{HostTypes, Hosts, TypeBook};
use cl_record::Touch;
use std::alloc::{AllocError, Global};

/// The answers to the questions of a sheet, a line each.
pub fn answer_sheet(alloc: Global, sheet: &Sheet) -> Result<String, Fault> {
    let day = Box::new(alloc, |text: &[u8]| weekday_number(text))?;
    let month = Box::new(alloc, |text: &[u8]| month_number(text))?;
    let types = shipped_types(alloc, day, month)?;
    let hosts = HostTypes { types: &types };
    let loaded = load(alloc, sheet.application.as_bytes(), &hosts)?;
    answer_all(alloc, &loaded, &hosts, sheet.questions.as_slice())
}

fn answer_all<H: Hosts>(
    alloc: Global,
    loaded: &Loaded,
    hosts: &H,
    questions: &[Question],
) -> Result<String, Fault> {
    let book = TypeBook::new(alloc, &loaded.app, &loaded.lattice, hosts);
    let program = Program {
        alloc,
        app: &loaded.app,
        types: &book,
        limits: Limits {
            budget: 1_000_000,
            depth: 512,
        },
    };
    let mut answers = String::new(alloc);
    for question in questions {
        answer(&program, &loaded.slots, question, &mut answers)?;
    }
    Ok(answers)
}

// The answer to a question, on the opening slots.
fn answer<T: Types>(
    program: &Program<'_, T>,
    slots: &Slots,
    question: &Question,
    answers: &mut String,
) -> Result<(), Fault>
    requires { program.now.limits.depth ≤ 512 }
{
    let Some(pane) = program.app.pane(question.pane.as_bytes()) else {
        return Err(Fault::Wrong);
    };
    let env = Env::new(program.alloc);
    let forms = program.app.forms_of(pane);
    match display(program, forms, &env, slots, &mut own_steps()) {
        Shown::Built(history) => say(program.alloc, &history, question, answers),
        Shown::Trapped(history, _) => say(program.alloc, &history, question, answers),
        Shown::Memory => Err(Fault::Memory),
    }
}

// What is touched in a history, as a line.
fn say(
    alloc: Global,
    history: &History,
    question: &Question,
    answers: &mut String,
) -> Result<(), Fault> {
    for _ in 1..question.times {
        let _ = history.touched(question.x, question.y, question.k);
    }
    let line = line_of(alloc, history.touched(question.x, question.y, question.k))?;
    answers.push_str(String::from_utf8_lossy(alloc, line.as_slice())?.as_str())?;
    answers.push('\n')?;
    Ok(())
}

fn line_of(alloc: Global, touch: Option<Touch<'_>>) -> Result<Vec<u8>, AllocError> {
    let Some(touch) = touch else {
        return Vec::from_slice(alloc, b"nothing");
    };
    let mut line = Vec::from_slice(alloc, touch.spec.name().as_slice())?;
    line.push(b' ')?;
    put_value(&mut line, touch.object)?;
    Ok(line)
}
