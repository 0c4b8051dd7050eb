//! Answers what is in a region: reads lines from standard input, each of which changes one region or asks for a cell of it, and writes a
//! line for each.
//!
//! `add X1 Y1 X2 Y2` adds a rectangle, `minus X1 Y1 X2 Y2` takes one away, `holds X Y` asks whether a cell is in the region, and `clear`
//! begins with an empty region. `cells W H` begins with an empty one too, and adds H rows of W single cells each, one after another.
//! The answer to `holds` is `yes` or `no`, and to `minus` the number of cells that are left; the others answer with the number of pieces
//! and of cells.
#![tactic(auto)]

mod answering;
mod faults;
mod orders;

use crate::answering::answer;
use crate::faults::Fault;
use crate::orders::order_in;
use cl_region::Region;
use std::io;
use std::process::ExitCode;

/// Ends with status 0 where all lines are answered, 2 where the text cannot be read or a line is wrong, 5 where the output fails, and
/// 7 where memory runs out.
fn main(rt: HostRuntime) -> ExitCode {
    ExitCode::from(match run(&rt) {
        Ok(()) => 0,
        Err(Fault::Unreadable | Fault::Wrong) => 2,
        Err(Fault::Output) => 5,
        Err(Fault::Memory) => 7,
    })
}

// Reads standard input, and answers its lines in their order. An empty line is none.
fn run(rt: &(impl Input + Print + AllocGlobal)) -> Result<(), Fault> {
    let Ok(text) = io::read_to_string(rt.alloc(), rt.reader()) else {
        return Err(Fault::Unreadable);
    };
    let mut region = Region::new(rt.alloc());
    for line in text.split('\n') {
        if !line.is_empty() {
            let said = answer(rt.alloc(), &mut region, order_in(line)?)?;
            print_line(rt, said.as_str())?;
        }
    }
    Ok(())
}

fn print_line(rt: &impl Print, line: &str) -> Result<(), Fault> {
    if rt.println(line).is_err() {
        return Err(Fault::Output);
    }
    Ok(())
}
