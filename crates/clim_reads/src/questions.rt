//! Applications with questions on them, from a text.
use std::alloc::{AllocError, Global};

/// What is asked of an application.
#[derive(Clone, Copy)]
pub enum Question<'a> {
    /// The paths that the body of a display reads.
    Display(&'a str),
    /// The first of these paths that the listed ones do not cover.
    Uncovered(&'a str, &'a str),
    /// The paths that the body of a function reads.
    Function(&'a str),
}

/// The text of an application, and the questions on it.
#[derive(Drop)]
pub struct Sheet<'a> {
    pub application: String,
    pub questions: Vec<Question<'a>>,
}

impl<'a> Sheet<'a> {
    fn new(alloc: Global) -> Sheet<'a> {
        Sheet {
            application: String::new(alloc),
            questions: Vec::new(alloc),
        }
    }

    fn add_line(&mut self, line: &str) -> Result<(), AllocError> {
        self.application.push_str(line)?;
        self.application.push('\n')
    }
}

/// The applications of a text with their questions, in order. Lines behind the last question are passed over.
pub fn sheets_in<'a>(alloc: Global, text: &'a str) -> Result<Vec<Sheet<'a>>, AllocError> {
    let mut sheets = Vec::new(alloc);
    let mut sheet = Sheet::new(alloc);
    for line in text.split('\n') {
        if let Some(question) = question_in(line) {
            sheet.questions.push(question)?;
        } else {
            if !sheet.questions.is_empty() {
                sheets.push(std::mem::replace(&mut sheet, Sheet::new(alloc)))?;
            }
            sheet.add_line(line)?;
        }
    }
    if !sheet.questions.is_empty() {
        sheets.push(sheet)?;
    }
    Ok(sheets)
}

// `? DISPLAY`, `? DISPLAY PATH | PATH | ...` or `! FUNCTION`.
fn question_in(line: &str) -> Option<Question<'_>> {
    if let Some(name) = line.strip_prefix("! ") {
        return Some(Question::Function(name));
    }
    match line.strip_prefix("? ") {
        Some(asked) => Some(asked_of_display(asked)),
        None => None,
    }
}

fn asked_of_display(asked: &str) -> Question<'_> {
    match asked.split_once(' ') {
        Some((name, paths)) => Question::Uncovered(name, paths),
        None => Question::Display(asked),
    }
}
