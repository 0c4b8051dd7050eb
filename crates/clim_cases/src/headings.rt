//! The line that begins a section.
use crate::faults::{Fault, Wrong};
use crate::sections::{Block, KINDS, Kind, Section, Shape};
use std::alloc::Global;

/// The section that a line with this number begins; `heading` is what stands behind its `-- `.
pub fn section_of(alloc: Global, line: usize, heading: &str) -> Result<Section, Fault> {
    let Some(kind) = kind_of(heading) else {
        return Err(Fault::at(line, Wrong::Section));
    };
    let said = said_behind(heading, kind.words()).unwrap_or("");
    Ok(Section {
        kind,
        line,
        file: file_of(alloc, line, kind.shape(), said)?,
        numbers: numbers_of(alloc, line, kind.shape(), said)?,
        block: Block::new(alloc, line.saturating_add(1)),
    })
}

// The kind of a section whose line says this.
fn kind_of(heading: &str) -> Option<Kind> {
    for kind in KINDS {
        if said_behind(heading, kind.words()).is_some() {
            return Some(kind);
        }
    }
    None
}

// What a line says behind its first words, where it begins with these.
fn said_behind<'a>(heading: &'a str, words: &str) -> Option<&'a str> {
    let said = heading.strip_prefix(words)?;
    if said.is_empty() {
        return Some(said);
    }
    said.strip_prefix(' ')
}

// The file that the line names, where it names one.
fn file_of(alloc: Global, line: usize, shape: Shape, said: &str) -> Result<Option<String>, Fault> {
    if said.is_empty() {
        return Ok(None);
    }
    match shape {
        Shape::Number | Shape::Size | Shape::Calls => Ok(None),
        Shape::Lines => Err(Fault::at(line, Wrong::Surplus)),
        Shape::LinesOrFile => match said.strip_prefix("from ") {
            Some(file) if !file.is_empty() => Ok(Some(String::from_str(alloc, file)?)),
            _ => Err(Fault::at(line, Wrong::FileName)),
        },
    }
}

// The numbers that the line says, where it is to say some.
fn numbers_of(alloc: Global, line: usize, shape: Shape, said: &str) -> Result<Vec<u64>, Fault> {
    let mut numbers = Vec::new(alloc);
    if matches!(shape, Shape::Lines | Shape::LinesOrFile) {
        return Ok(numbers);
    }
    for word in said.split_whitespace() {
        let Ok(number) = word.parse::<u64>() else {
            return Err(Fault::at(line, Wrong::Numbers));
        };
        numbers.push(number)?;
    }
    if !are_fit(shape, numbers.as_slice()) {
        return Err(Fault::at(line, Wrong::Numbers));
    }
    Ok(numbers)
}

// Whether so many numbers of this size may stand there.
fn are_fit(shape: Shape, numbers: &[u64]) -> bool {
    let positive = numbers.iter().all(|number| *number > 0);
    match shape {
        Shape::Lines | Shape::LinesOrFile => numbers.is_empty(),
        Shape::Number => numbers.len() == 1,
        Shape::Size => numbers.len() == 1 && positive,
        Shape::Calls => !numbers.is_empty() && positive,
    }
}
