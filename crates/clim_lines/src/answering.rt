//! Answers the lines for an application.
use crate::faults::Fault;
use crate::sheets::Sheet;
use cl_application::{ArgumentDecl, ArgumentDecls};
use cl_eval::{Slots, Types};
use cl_host::{month_number, shipped_types, weekday_number};
use cl_line::Line;
use cl_load::{Loaded, load};
use cl_parser::{Parsed, Parser};
use cl_print::put_value;
use cl_ptext::{HostTypes, Hosts, TypeBook};
use cl_value::Values;
use std::alloc::{AllocError, Global};

/// Where the name of a line ends.
const NAME_END: usize = 2;

/// The answers to the lines of a sheet, a line each.
pub fn answer_sheet(alloc: Global, sheet: &Sheet) -> Result<String, Fault> {
    let day = Box::new(alloc, |text: &[u8]| weekday_number(text))?;
    let month = Box::new(alloc, |text: &[u8]| month_number(text))?;
    let types = shipped_types(alloc, day, month)?;
    let hosts = HostTypes { types: &types };
    let loaded = load(alloc, sheet.application.as_bytes(), &hosts)?;
    answer_all(alloc, &loaded, &hosts, sheet.lines.as_slice())
}

fn answer_all<H: Hosts>(
    alloc: Global,
    loaded: &Loaded,
    hosts: &H,
    lines: &[&str],
) -> Result<String, Fault> {
    let book = TypeBook::new(alloc, &loaded.app, &loaded.lattice, hosts);
    let parser = Parser {
        alloc,
        app: &loaded.app,
        types: &book,
        slots: &loaded.slots,
    };
    let Some(command) = loaded.app.command(b"com-go") else {
        return Err(Fault::Wrong);
    };
    let mut answers = Vec::new(alloc);
    for line in lines {
        answer(&parser, &command.arguments, line, &mut answers)?;
    }
    Ok(String::from_utf8_lossy(alloc, answers.as_slice())?)
}

// What a line is read as, as a line.
fn answer<T: Types>(
    parser: &Parser<'_, T>,
    arguments: &ArgumentDecls,
    text: &str,
    answers: &mut Vec<u8>,
) -> Result<(), Fault> {
    let line = line_of(parser.alloc, text, parser.slots)?;
    match parser.parse(&line, NAME_END, arguments)? {
        Parsed::Arguments(values) => put_values(&values, answers)?,
        Parsed::Need(place) => put_need(arguments.at(place), answers)?,
        Parsed::BadArg(number) => {
            answers.extend_from_slice(format!(in parser.alloc; "bad {number}")?.as_bytes())?
        }
        Parsed::Surplus => answers.extend_from_slice(b"surplus")?,
    }
    answers.push(b'\n')?;
    Ok(())
}

// The name of an argument that is wanting.
fn put_need(argument: Option<&ArgumentDecl>, answers: &mut Vec<u8>) -> Result<(), AllocError> {
    answers.extend_from_slice(b"need ")?;
    if let Some(argument) = argument {
        answers.extend_from_slice(argument.name.as_slice())?;
    }
    Ok(())
}

fn put_values(values: &Values, answers: &mut Vec<u8>) -> Result<(), AllocError> {
    answers.extend_from_slice(b"arguments")?;
    for value in values.as_slice() {
        answers.push(b' ')?;
        put_value(answers, value)?;
    }
    Ok(())
}

// The line of a text.
fn line_of(alloc: Global, text: &str, slots: &Slots) -> Result<Line, Fault> {
    let mut line = Line::new(alloc)?;
    let mut is_object = false;
    for byte in text.as_bytes() {
        if is_object {
            push_slot(&mut line, *byte, slots)?;
            is_object = false;
        } else if *byte == b'@' {
            is_object = true;
        } else {
            let _ = line.push_text(&[*byte]);
        }
    }
    Ok(line)
}

// The value of a slot of one letter, behind the others.
fn push_slot(line: &mut Line, letter: u8, slots: &Slots) -> Result<(), Fault> {
    let Some(value) = slots.get(&[letter]) else {
        return Err(Fault::Wrong);
    };
    let end = line.elements().len();
    let _ = line.push_object(end, value.copy()?);
    Ok(())
}
