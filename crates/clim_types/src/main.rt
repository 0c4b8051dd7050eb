//! Answers questions on types: reads declarations and questions from standard input, and writes a line for each answer.
#![tactic(auto)]

mod faults;

use crate::faults::Fault;
use cl_forms::{Datum, symbol_of};
use cl_lattice::Lattice;
use cl_questions::{Question, answer_of, data_in_text, question_in, types_of};
use std::alloc::{AllocError, Global};
use std::io;
use std::process::ExitCode;

/// Ends with status 0 where all questions are answered, 1 where the text is refused, 2 where it cannot be read, 5 where the
/// output fails, and 7 where memory runs out.
fn main(rt: HostRuntime) -> ExitCode {
    ExitCode::from(match run(&rt) {
        Ok(()) => 0,
        Err(Fault::Refused) => 1,
        Err(Fault::Unreadable) => 2,
        Err(Fault::Output) => 5,
        Err(Fault::Memory) => 7,
    })
}

// Reads standard input, and answers its questions in their order.
fn run(rt: &(impl Input + Print + AllocGlobal)) -> Result<(), Fault> {
    let Ok(text) = io::read_to_string(rt.alloc(), rt.reader()) else {
        return Err(Fault::Unreadable);
    };
    let data = data_in_text(rt.alloc(), text.as_bytes())?;
    answer_all(rt, data.as_slice())
}

fn answer_all(rt: &(impl Print + AllocGlobal), forms: &[Datum]) -> Result<(), Fault> {
    let lattice = types_of(rt.alloc(), forms)?;
    for form in forms {
        answer_form(rt, &lattice, form.parts())?;
    }
    Ok(())
}

// Answers a form that asks: a question, or `times N QUESTION`, which is asked so many times. A declaration asks nothing.
fn answer_form(
    rt: &(impl Print + AllocGlobal),
    lattice: &Lattice,
    parts: &[Datum],
) -> Result<(), Fault> {
    match parts {
        [] => Ok(()),
        [head, ..] if symbol_of(head).starts_with(b"define-") => Ok(()),
        [head, Datum::Number(times, _), question] if symbol_of(head) == b"times".as_slice() => {
            answer_times(rt, lattice, *times, question.parts())
        }
        _ => answer_times(rt, lattice, 1, parts),
    }
}

// Asks a question so many times, and prints the last answer.
fn answer_times(
    rt: &(impl Print + AllocGlobal),
    lattice: &Lattice,
    times: i64,
    parts: &[Datum],
) -> Result<(), Fault> {
    let question = question_in(rt.alloc(), parts)?;
    let answer = last_answer(rt.alloc(), lattice, times, &question)?;
    print_line(rt, answer.as_str())
}

fn last_answer(
    alloc: Global,
    lattice: &Lattice,
    times: i64,
    question: &Question,
) -> Result<String, AllocError> {
    for _ in 1..times {
        let _ = answer_of(alloc, lattice, question)?;
    }
    answer_of(alloc, lattice, question)
}

fn print_line(rt: &impl Print, line: &str) -> Result<(), Fault> {
    if rt.println(line).is_err() {
        return Err(Fault::Output);
    }
    Ok(())
}
