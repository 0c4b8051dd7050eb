//! How what came differs from what was wanted.
use crate::runs::{Ran, run};
use crate::settings::Setting;
use std::alloc::{AllocError, Global};
use std::fmt;

// Where a run differs.
#[derive(Clone, Copy)]
enum Part {
    /// At a line of the transcript, from 1.
    Line(usize),
    Status,
    /// At a line of the wire, from 1.
    Wire(usize),
    OpeningSteps,
    /// In the steps of a line of gestures, from 1.
    Steps(usize),
}

impl fmt::Display for Part {
    fn fmt<W: fmt::Write>(&self, f: &mut fmt::Formatter<W>) -> fmt::Result {
        match *self {
            Part::Line(line) => write!(f, "at line {line}"),
            Part::Status => write!(f, "in the status"),
            Part::Wire(line) => write!(f, "at line {line} of the wire"),
            Part::OpeningSteps => write!(f, "in the steps of the opening"),
            Part::Steps(line) => write!(f, "in the steps of line {line}"),
        }
    }
}

// Whose lines are compared.
#[derive(Clone, Copy)]
enum Lines {
    Transcript,
    Wire,
}

impl Lines {
    // The line of this number.
    fn part(self, line: usize) -> Part {
        match self {
            Lines::Transcript => Part::Line(line),
            Lines::Wire => Part::Wire(line),
        }
    }
}

// The first thing in which a run differs.
#[derive(Drop)]
struct Difference {
    part: Part,
    wanted: String,
    came: String,
}

impl Difference {
    // As it is printed.
    fn said(&self, alloc: Global) -> Result<String, AllocError> {
        let Difference { part, wanted, came } = self;
        format!(in alloc; "differs {part}\nwanted: {wanted}\ncame:   {came}\n")
    }
}

/// What is said of a run of a setting: nothing where all is as it is wanted, and else the first thing
/// that is not: a line of the transcript, else the status, else a line of the wire, else the steps.
pub fn said_of(alloc: Global, setting: &Setting) -> Result<String, AllocError> {
    match difference_of(alloc, setting)? {
        Some(difference) => difference.said(alloc),
        None => Ok(String::new(alloc)),
    }
}

fn difference_of(alloc: Global, setting: &Setting) -> Result<Option<Difference>, AllocError> {
    let ran = run(alloc, setting, setting.gestures.as_slice())?;
    match difference_in(alloc, setting, &ran)? {
        Some(difference) => Ok(Some(difference)),
        None => in_steps(alloc, setting),
    }
}

// The first difference but in the steps.
fn difference_in(
    alloc: Global,
    setting: &Setting,
    ran: &Ran,
) -> Result<Option<Difference>, AllocError> {
    let wanted = setting.transcript.as_slice();
    if let Some(difference) = in_lines(
        alloc,
        Lines::Transcript,
        wanted,
        ran.transcript.as_slice(),
    )? {
        return Ok(Some(difference));
    }
    if ran.status != setting.status {
        return Ok(Some(Difference {
            part: Part::Status,
            wanted: setting.status.to_string(alloc)?,
            came: ran.status.to_string(alloc)?,
        }));
    }
    in_wire(alloc, setting, ran)
}

// Where no wire was made, it has no line.
fn in_wire(alloc: Global, setting: &Setting, ran: &Ran) -> Result<Option<Difference>, AllocError> {
    let Some(wire) = &setting.wire else {
        return Ok(None);
    };
    in_lines(
        alloc,
        Lines::Wire,
        wire.bytes.as_slice(),
        ran.wire.as_slice(),
    )
}

fn in_lines(
    alloc: Global,
    lines_of: Lines,
    wanted: &[u8],
    came: &[u8],
) -> Result<Option<Difference>, AllocError> {
    let same = wanted.iter().zip(came).take_while(|(a, b)| a == b).count();
    if same == wanted.len() && same == came.len() {
        return Ok(None);
    }
    let before = wanted.get(..same).unwrap_or(wanted);
    let lines = before.iter().filter(|byte| **byte == b'\n').count();
    let begun = before
        .iter()
        .rev()
        .take_while(|byte| **byte != b'\n')
        .count();
    let start = same.saturating_sub(begun);
    Ok(Some(Difference {
        part: lines_of.part(lines.saturating_add(1)),
        wanted: shown(alloc, wanted, start)?,
        came: shown(alloc, came, start)?,
    }))
}

/// The most bytes of a line that are printed.
const MOST_SHOWN: usize = 2000;

// The line that begins there, as it is printed.
fn shown(alloc: Global, bytes: &[u8], start: usize) -> Result<String, AllocError> {
    let rest = bytes.get(start..).unwrap_or(&[]);
    if rest.is_empty() {
        return String::from_str(alloc, "(no line)");
    }
    let end = rest.iter().take_while(|byte| **byte != b'\n').count();
    let line = rest.get(..end.min(MOST_SHOWN)).unwrap_or(rest);
    let mut text = String::from_utf8_lossy(alloc, line)?;
    if end > MOST_SHOWN {
        text.push_str(" (and more)")?;
    }
    if end == rest.len() {
        text.push_str(" (no line feed)")?;
    }
    Ok(text)
}

fn in_steps(alloc: Global, setting: &Setting) -> Result<Option<Difference>, AllocError> {
    let Some(wanted) = &setting.steps else {
        return Ok(None);
    };
    let came = steps_by_line(alloc, setting, wanted.len())?;
    in_numbers(alloc, wanted.as_slice(), came.as_slice())
}

fn in_numbers(
    alloc: Global,
    wanted: &[u64],
    came: &[u64],
) -> Result<Option<Difference>, AllocError> {
    let same = wanted.iter().zip(came).take_while(|(a, b)| a == b).count();
    if same == wanted.len() && same == came.len() {
        return Ok(None);
    }
    Ok(Some(Difference {
        part: if same == 0 {
            Part::OpeningSteps
        } else {
            Part::Steps(same)
        },
        wanted: number_shown(alloc, wanted.get(same))?,
        came: number_shown(alloc, came.get(same))?,
    }))
}

fn number_shown(alloc: Global, number: Option<&u64>) -> Result<String, AllocError> {
    match number {
        Some(number) => number.to_string(alloc),
        None => String::from_str(alloc, "(no line)"),
    }
}

// The steps of the opening, and then of the first lines of gestures, at most so many: each is what
// a run with one line more comes to.
fn steps_by_line(alloc: Global, setting: &Setting, most: usize) -> Result<Vec<u64>, AllocError> {
    let gestures = setting.gestures.as_slice();
    let mut before = run(alloc, setting, &[])?.steps;
    let mut counts = Vec::new(alloc);
    counts.push(before)?;
    let mut end = 0usize;
    for line in gestures.split_inclusive(|byte| *byte == b'\n').take(most) {
        end = end.saturating_add(line.len());
        let steps = run(alloc, setting, gestures.get(..end).unwrap_or(gestures))?.steps;
        counts.push(steps.saturating_sub(before))?;
        before = steps;
    }
    Ok(counts)
}
