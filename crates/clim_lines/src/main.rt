//! Answers what lines are read as: reads applications with lines from standard input, and writes a line for each answer.
//!
//! Lines that begin with `? ` are command lines for the application in the lines before them. Each begins with a name of two
//! characters, and its arguments are those of the command `com-go`. In a line `@` and the letter behind it stand for the value of
//! the slot of that letter. The answer is `arguments` with their values, `need` with the argument's name, `bad` with the token's
//! number, or `surplus`.
#![tactic(auto)]

mod answering;
mod faults;
mod sheets;

use crate::answering::answer_sheet;
use crate::faults::Fault;
use crate::sheets::{Sheet, sheets_in};
use std::io;
use std::process::ExitCode;

/// Ends with status 0 where all lines are answered, 1 where an application is refused, 2 where the text cannot be read or a line
/// names no slot, 5 where the output fails, and 7 where memory runs out.
fn main(rt: HostRuntime) -> ExitCode {
    ExitCode::from(match run(&rt) {
        Ok(()) => 0,
        Err(Fault::Refused) => 1,
        Err(Fault::Unreadable | Fault::Wrong) => 2,
        Err(Fault::Output) => 5,
        Err(Fault::Memory) => 7,
    })
}

// Reads standard input, and answers its lines in their order.
fn run(rt: &(impl Input + Print + AllocGlobal)) -> Result<(), Fault> {
    let Ok(text) = io::read_to_string(rt.alloc(), rt.reader()) else {
        return Err(Fault::Unreadable);
    };
    for sheet in &sheets_in(rt.alloc(), text.as_str())? {
        print_answers(rt, sheet)?;
    }
    Ok(())
}

fn print_answers(rt: &(impl Print + AllocGlobal), sheet: &Sheet) -> Result<(), Fault> {
    let answers = answer_sheet(rt.alloc(), sheet)?;
    if rt.print(answers.as_str()).is_err() {
        return Err(Fault::Output);
    }
    Ok(())
}
