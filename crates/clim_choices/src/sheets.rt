//! Applications with their questions, from a text.
use std::alloc::{AllocError, Global};

/// The text of an application, the commands that are disabled, and the questions on it.
#[derive(Drop)]
pub struct Sheet<'a> {
    pub application: String,
    pub disabled: Vec<&'a str>,
    pub questions: Vec<&'a str>,
}

impl<'a> Sheet<'a> {
    fn new(alloc: Global) -> Sheet<'a> {
        Sheet {
            application: String::new(alloc),
            disabled: Vec::new(alloc),
            questions: Vec::new(alloc),
        }
    }

    // A line that is no question.
    fn add_line(&mut self, line: &'a str) -> Result<(), AllocError> {
        if let Some(command) = line.strip_prefix("- ") {
            self.disabled.push(command)?;
        } else {
            self.application.push_str(line)?;
            self.application.push('\n')?;
        }
        Ok(())
    }
}

/// The applications of a text with their questions, in order. Lines behind the last question are passed over.
pub fn sheets_in<'a>(alloc: Global, text: &'a str) -> Result<Vec<Sheet<'a>>, AllocError> {
    let mut sheets = Vec::new(alloc);
    let mut sheet = Sheet::new(alloc);
    for line in text.split('\n') {
        if let Some(question) = line.strip_prefix("? ") {
            sheet.questions.push(question)?;
        } else {
            if !sheet.questions.is_empty() {
                sheets.push(std::mem::replace(&mut sheet, Sheet::new(alloc)))?;
            }
            sheet.add_line(line)?;
        }
    }
    if !sheet.questions.is_empty() {
        sheets.push(sheet)?;
    }
    Ok(sheets)
}
