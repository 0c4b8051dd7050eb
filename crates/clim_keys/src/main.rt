//! Decodes keys: reads bytes of a terminal from standard input, a case on each line, and writes the keys that they make.
//!
//! A case is bytes of two hexadecimal digits each, ` # ` and its name. Its bytes are decoded at once, and then cut into two parts at
//! each place in turn. The answer is its name and its keys in words; where the parts make other keys, the first such cut follows.
#![tactic(auto)]

mod cases;
mod decoding;
mod faults;
mod wording;

use crate::cases::{Case, case_in};
use crate::decoding::{keys_of, other_cut};
use crate::faults::Fault;
use crate::wording::words_of;
use std::io;
use std::process::ExitCode;

/// Ends with status 0 where all cases are answered, 2 where the text cannot be read or a line is no case, 5 where the output
/// fails, and 7 where memory runs out.
fn main(rt: HostRuntime) -> ExitCode {
    ExitCode::from(match run(&rt) {
        Ok(()) => 0,
        Err(Fault::Unreadable | Fault::Wrong) => 2,
        Err(Fault::Output) => 5,
        Err(Fault::Memory) => 7,
    })
}

// Reads standard input, and answers its cases in their order. An empty line is none.
fn run(rt: &(impl Input + Print + AllocGlobal)) -> Result<(), Fault> {
    let Ok(text) = io::read_to_string(rt.alloc(), rt.reader()) else {
        return Err(Fault::Unreadable);
    };
    for row in text.split('\n') {
        if !row.is_empty() {
            answer(rt, &case_in(rt.alloc(), row)?)?;
        }
    }
    Ok(())
}

fn answer(rt: &(impl Print + AllocGlobal), case: &Case) -> Result<(), Fault> {
    let keys = keys_of(rt.alloc(), case.bytes.as_slice())?;
    let name = case.name;
    let words = words_of(rt.alloc(), keys.as_slice())?;
    print_line(rt, format!(in rt.alloc(); "{name}: {words}")?.as_str())?;
    if let Some(cut) = other_cut(rt.alloc(), case.bytes.as_slice(), keys.as_slice())? {
        print_line(
            rt,
            format!(in rt.alloc(); "  but not cut at {cut}")?.as_str(),
        )?;
    }
    Ok(())
}

fn print_line(rt: &impl Print, line: &str) -> Result<(), Fault> {
    if rt.println(line).is_err() {
        return Err(Fault::Output);
    }
    Ok(())
}
