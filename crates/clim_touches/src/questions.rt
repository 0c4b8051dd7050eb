//! Applications with questions on them, from a text.
use crate::faults::Fault;
use std::alloc::{AllocError, Global};

/// A question: which presentation is touched at this place of a pane, behind so many that began later; asked so many times.
#[derive(Clone, Copy)]
pub struct Question<'a> {
    pub times: u64,
    pub pane: &'a str,
    pub x: i64,
    pub y: i64,
    pub k: u32,
}

/// The text of an application, and the questions on it.
#[derive(Drop)]
pub struct Sheet<'a> {
    pub application: String,
    pub questions: Vec<Question<'a>>,
}

impl<'a> Sheet<'a> {
    fn new(alloc: Global) -> Sheet<'a> {
        Sheet {
            application: String::new(alloc),
            questions: Vec::new(alloc),
        }
    }

    fn add_line(&mut self, line: &str) -> Result<(), AllocError> {
        self.application.push_str(line)?;
        self.application.push('\n')
    }
}

/// The applications of a text with their questions, in order. Lines behind the last question are passed over.
pub fn sheets_in<'a>(alloc: Global, text: &'a str) -> Result<Vec<Sheet<'a>>, Fault> {
    let mut sheets = Vec::new(alloc);
    let mut sheet = Sheet::new(alloc);
    for line in text.split('\n') {
        if let Some(question) = line.strip_prefix("? ") {
            sheet.questions.push(question_in(question)?)?;
        } else {
            if !sheet.questions.is_empty() {
                sheets.push(std::mem::replace(&mut sheet, Sheet::new(alloc)))?;
            }
            sheet.add_line(line)?;
        }
    }
    if !sheet.questions.is_empty() {
        sheets.push(sheet)?;
    }
    Ok(sheets)
}

// `PANE X Y K`, or `times N PANE X Y K`.
fn question_in(line: &str) -> Result<Question<'_>, Fault> {
    match line.strip_prefix("times ") {
        Some(rest) => match rest.split_once(' ') {
            Some((times, rest)) => asked(times.parse().map_err(|_| Fault::Wrong)?, rest),
            None => Err(Fault::Wrong),
        },
        None => asked(1, line),
    }
}

fn asked(times: u64, line: &str) -> Result<Question<'_>, Fault> {
    let mut words = line.split(' ');
    let (Some(pane), Some(x), Some(y), Some(k), None) = (
        words.next(),
        words.next(),
        words.next(),
        words.next(),
        words.next(),
    ) else {
        return Err(Fault::Wrong);
    };
    Ok(Question {
        times,
        pane,
        x: x.parse().map_err(|_| Fault::Wrong)?,
        y: y.parse().map_err(|_| Fault::Wrong)?,
        k: k.parse().map_err(|_| Fault::Wrong)?,
    })
}
