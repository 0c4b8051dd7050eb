//! Applications with questions on them, from a text.
use crate::faults::Fault;
use std::alloc::{AllocError, Global};

/// A question: what the display of a pane keeps of its opening history after a command.
#[derive(Clone, Copy)]
pub struct Question<'a> {
    pub pane: &'a str,
    pub command: &'a str,
}

/// The text of an application, and the questions on it.
#[derive(Drop)]
pub struct Sheet<'a> {
    pub application: String,
    pub questions: Vec<Question<'a>>,
}

impl<'a> Sheet<'a> {
    fn new(alloc: Global) -> Sheet<'a> {
        Sheet {
            application: String::new(alloc),
            questions: Vec::new(alloc),
        }
    }

    fn add_line(&mut self, line: &str) -> Result<(), AllocError> {
        self.application.push_str(line)?;
        self.application.push('\n')
    }
}

/// The applications of a text with their questions, in order. Lines behind the last question are passed over.
pub fn sheets_in<'a>(alloc: Global, text: &'a str) -> Result<Vec<Sheet<'a>>, Fault> {
    let mut sheets = Vec::new(alloc);
    let mut sheet = Sheet::new(alloc);
    for line in text.split('\n') {
        if let Some(question) = line.strip_prefix("? ") {
            sheet.questions.push(question_in(question)?)?;
        } else {
            if !sheet.questions.is_empty() {
                sheets.push(std::mem::replace(&mut sheet, Sheet::new(alloc)))?;
            }
            sheet.add_line(line)?;
        }
    }
    if !sheet.questions.is_empty() {
        sheets.push(sheet)?;
    }
    Ok(sheets)
}

// `PANE COMMAND`.
fn question_in(line: &str) -> Result<Question<'_>, Fault> {
    match line.split_once(' ') {
        Some((pane, command)) => Ok(Question { pane, command }),
        None => Err(Fault::Wrong),
    }
}
