//! Runs cases, which are plain text, through the program as one call, and says which of them
//! differ. Its arguments name the files of cases.
#![tactic(auto)]

mod cases;
mod comparing;
mod expanding;
mod faults;
mod headings;
mod judging;
mod marks;
mod names;
mod reading;
mod runs;
mod sections;
mod settings;

use crate::faults::Fault;
use crate::judging::{Tally, judge_file};
use std::process::ExitCode;
use std::rt::{Env, Files};
use std::{env, io};

/// Ends with status 0 where all cases agree, 1 where one differs, 2 where a file cannot be read or
/// is wrong, or no file is named, 5 where the output fails, and 7 where memory runs out.
fn main(rt: HostRuntime) -> ExitCode {
    ExitCode::from(match run(&rt) {
        Ok(tally) if tally.differing == 0 => 0,
        Ok(_) => 1,
        Err(Fault::Memory) => 7,
        Err(Fault::Output) => 5,
        Err(Fault::NoFile | Fault::Unreadable | Fault::Wrong { .. }) => 2,
    })
}

// Judges all files, and prints the sum.
fn run(rt: &(impl Files + Env + Print + AllocGlobal)) -> Result<Tally, Fault> {
    let files = arguments(rt)?;
    if files.is_empty() {
        print_line(rt, "usage: clim_cases FILE ..")?;
        return Err(Fault::NoFile);
    }
    let mut sum = Tally::new();
    for file in files.as_slice() {
        let tally = run_file(rt, file.as_str())?;
        sum = sum.plus(tally);
    }
    print_line(rt, sum.summary(rt.alloc())?.as_str())?;
    Ok(sum)
}

// Judges a file, and prints what is to be said of it.
fn run_file(rt: &(impl Files + Print + AllocGlobal), file: &str) -> Result<Tally, Fault> {
    let mut report = String::new(rt.alloc());
    let judged = judge_file(rt, file, &mut report);
    if rt.print(report.as_str()).is_err() {
        return Err(Fault::Output);
    }
    if let Err(fault) = &judged {
        print_line(rt, fault.message(rt.alloc(), file)?.as_str())?;
    }
    judged
}

fn print_line(rt: &impl Print, line: &str) -> Result<(), Fault> {
    if rt.println(line).is_err() {
        return Err(Fault::Output);
    }
    Ok(())
}

// The words behind the program's name. A word that is not UTF-8 names no file.
fn arguments(rt: &(impl Env + AllocGlobal)) -> Result<Vec<String>, Fault> {
    let mut words = Vec::new(rt.alloc());
    match env::args(rt) {
        Ok(args) => {
            for word in args.skip(1) {
                words.push(word)?;
            }
            Ok(words)
        }
        Err(error) if matches!(error.kind(), io::ErrorKind::OutOfMemory) => Err(Fault::Memory),
        Err(_) => Err(Fault::Unreadable),
    }
}
