//! Counts what displays over old histories ask: reads applications with questions from standard input, and writes a line for each answer.
//!
//! Lines that begin with `? ` are questions on the application in the lines before them. `? PANE COMMAND` opens the application, draws the
//! display of the pane, runs the body of a command without arguments, and draws the display twice more: over the history that it had, and over
//! an empty one. The answer tells, of each of the two, what was kept, moved, drawn and erased, or the trap; the steps; and how many times it
//! was asked whether a value is a member of a type, and for the text of a value.
#![tactic(auto)]

mod answering;
mod counting;
mod faults;
mod questions;

use crate::answering::answer_sheet;
use crate::faults::Fault;
use crate::questions::{Sheet, sheets_in};
use std::io;
use std::process::ExitCode;

/// Ends with status 0 where all questions are answered, 1 where an application is refused, 2 where the text cannot be read or a
/// question is wrong, 5 where the output fails, and 7 where memory runs out.
fn main(rt: HostRuntime) -> ExitCode {
    ExitCode::from(match run(&rt) {
        Ok(()) => 0,
        Err(Fault::Refused) => 1,
        Err(Fault::Unreadable | Fault::Wrong) => 2,
        Err(Fault::Output) => 5,
        Err(Fault::Memory) => 7,
    })
}

// Reads standard input, and answers its questions in their order.
fn run(rt: &(impl Input + Print + AllocGlobal)) -> Result<(), Fault> {
    let Ok(text) = io::read_to_string(rt.alloc(), rt.reader()) else {
        return Err(Fault::Unreadable);
    };
    for sheet in &sheets_in(rt.alloc(), text.as_str())? {
        print_answers(rt, sheet)?;
    }
    Ok(())
}

fn print_answers(rt: &(impl Print + AllocGlobal), sheet: &Sheet) -> Result<(), Fault> {
    let answers = answer_sheet(rt.alloc(), sheet)?;
    if rt.print(answers.as_str()).is_err() {
        return Err(Fault::Output);
    }
    Ok(())
}
