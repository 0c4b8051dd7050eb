//! Applications with command lines for them, from a text.
use std::alloc::{AllocError, Global};

/// The text of an application, and lines for it.
#[derive(Drop)]
pub struct Sheet<'a> {
    pub application: String,
    pub lines: Vec<&'a str>,
}

impl<'a> Sheet<'a> {
    fn new(alloc: Global) -> Sheet<'a> {
        Sheet {
            application: String::new(alloc),
            lines: Vec::new(alloc),
        }
    }

    fn add_text(&mut self, line: &str) -> Result<(), AllocError> {
        self.application.push_str(line)?;
        self.application.push('\n')
    }
}

/// The applications of a text with their lines, in order. What stands behind the last line is passed over.
pub fn sheets_in<'a>(alloc: Global, text: &'a str) -> Result<Vec<Sheet<'a>>, AllocError> {
    let mut sheets = Vec::new(alloc);
    let mut sheet = Sheet::new(alloc);
    for row in text.split('\n') {
        if let Some(line) = row.strip_prefix("? ") {
            sheet.lines.push(line)?;
        } else {
            if !sheet.lines.is_empty() {
                sheets.push(std::mem::replace(&mut sheet, Sheet::new(alloc)))?;
            }
            sheet.add_text(row)?;
        }
    }
    if !sheet.lines.is_empty() {
        sheets.push(sheet)?;
    }
    Ok(sheets)
}
