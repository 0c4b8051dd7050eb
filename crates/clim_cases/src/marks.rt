//! What stands between `{` and `}`.
use crate::cases::Text;
use crate::faults::{Fault, Wrong};
use crate::names::byte_of;
use crate::sections::Raw;
use std::alloc::AllocError;

/// What the names in marks stand for.
#[derive(Clone, Copy)]
pub struct Names<'a> {
    pub texts: &'a [Text],
    pub form: Option<Raw<'a>>,
    pub answer: Option<Raw<'a>>,
}

impl<'a> Names<'a> {
    // What a name stands for.
    fn find(&self, name: &str) -> Option<Raw<'a>> {
        match name {
            "form" => self.form,
            "answer" => self.answer,
            _ => text_named(self.texts, name),
        }
    }
}

fn text_named<'a>(texts: &'a [Text], name: &str) -> Option<Raw<'a>> {
    let text = texts.iter().find(|text| text.name.as_str() == name)?;
    Some(text.block.raw())
}

/// What a mark stands for.
#[derive(Clone, Copy)]
pub enum Mark<'a> {
    Nothing,
    Byte(u8),
    /// So many copies of a text.
    Copies(u32, &'a str),
    /// A text with marks of its own.
    Text(Raw<'a>),
}

/// What the mark on this line stands for.
pub fn mark_of<'a>(names: &Names<'a>, line: usize, mark: &'a str) -> Result<Mark<'a>, Fault> {
    if mark.is_empty() {
        return Ok(Mark::Nothing);
    }
    if mark.contains('\n') {
        return Err(Fault::at(line, Wrong::Open));
    }
    if let Some(byte) = byte_of(mark) {
        return Ok(Mark::Byte(byte));
    }
    if let Some((count, copied)) = mark.split_once('*') {
        return match count.parse() {
            Ok(count) => Ok(Mark::Copies(count, copied)),
            Err(_) => Err(Fault::at(line, Wrong::Mark)),
        };
    }
    match names.find(mark) {
        Some(raw) => Ok(Mark::Text(raw)),
        None => Err(Fault::at(line, Wrong::Mark)),
    }
}

/// The most copies that can be numbered.
pub const MOST_NUMBERED: u32 = 9000;

/// Adds the copies of a text: in each of them `~` is a line feed, and `%` its number, from 1000.
pub fn add_copies(count: u32, copied: &str, into: &mut Vec<u8>) -> Result<(), AllocError> {
    for copy in 0..count {
        add_copy(copy, copied.as_bytes(), into)?;
    }
    Ok(())
}

fn add_copy(copy: u32, copied: &[u8], into: &mut Vec<u8>) -> Result<(), AllocError> {
    for byte in copied {
        match *byte {
            b'%' => add_number(copy.saturating_add(1000), into)?,
            b'~' => into.push(b'\n')?,
            other => into.push(other)?,
        }
    }
    Ok(())
}

// Adds the last four digits of a number.
fn add_number(number: u32, into: &mut Vec<u8>) -> Result<(), AllocError> {
    let digits = [
        digit(number / 1000),
        digit(number / 100),
        digit(number / 10),
        digit(number),
    ];
    into.extend_from_slice(&digits)
}

// The last digit of a number.
fn digit(number: u32) -> u8 {
    b'0' + (number % 10) as u8
}
