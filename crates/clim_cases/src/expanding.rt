//! What lines with marks stand for.
use crate::faults::{Fault, Wrong};
use crate::marks::{MOST_NUMBERED, Mark, Names, add_copies, mark_of};
use crate::sections::{Block, Raw};
use std::alloc::Global;

/// How deep texts may stand in texts.
const DEPTH: u8 = 8;

/// The bytes of a text, which has no line feed at its end.
pub fn text_of<'a>(alloc: Global, names: &Names<'a>, block: &'a Block) -> Result<Vec<u8>, Fault> {
    line_of(alloc, names, block.raw())
}

/// The bytes of lines, each with a line feed at its end, but the last where it ends in `{}`.
pub fn lines_of<'a>(alloc: Global, names: &Names<'a>, block: &'a Block) -> Result<Vec<u8>, Fault> {
    let mut bytes = text_of(alloc, names, block)?;
    let text = block.text.as_str();
    if !text.is_empty() && !text.ends_with("{}") {
        bytes.push(b'\n')?;
    }
    Ok(bytes)
}

/// The bytes of one line, or of a part of it, with no line feed.
pub fn line_of<'a>(alloc: Global, names: &Names<'a>, raw: Raw<'a>) -> Result<Vec<u8>, Fault> {
    let mut bytes = Vec::new(alloc);
    expand(names, raw, DEPTH, &mut bytes)?;
    Ok(bytes)
}

// Adds what this stands for, where texts stand in it at most so deep.
fn expand<'a>(names: &Names<'a>, raw: Raw<'a>, depth: u8, into: &mut Vec<u8>) -> Result<(), Fault> {
    let Some((plain, marked)) = raw.text.split_once('{') else {
        into.extend_from_slice(raw.text.as_bytes())?;
        return Ok(());
    };
    into.extend_from_slice(plain.as_bytes())?;
    let mut line = raw.line.saturating_add(line_feeds(plain));
    for piece in marked.split('{') {
        let Some((mark, behind)) = piece.split_once('}') else {
            return Err(Fault::at(line, Wrong::Open));
        };
        match mark_of(names, line, mark)? {
            Mark::Nothing => {}
            Mark::Byte(byte) => into.push(byte)?,
            Mark::Copies(count, copied) => expand_copies(line, count, copied, into)?,
            Mark::Text(inner) => match depth.checked_sub(1) {
                Some(depth) => expand(names, inner, depth, into)?,
                None => return Err(Fault::at(line, Wrong::TooDeep)),
            },
        }
        into.extend_from_slice(behind.as_bytes())?;
        line = line.saturating_add(line_feeds(piece));
    }
    Ok(())
}

fn expand_copies(line: usize, count: u32, copied: &str, into: &mut Vec<u8>) -> Result<(), Fault> {
    if count > MOST_NUMBERED && copied.contains('%') {
        return Err(Fault::at(line, Wrong::TooManyNumbers));
    }
    add_copies(count, copied, into)?;
    Ok(())
}

fn line_feeds(text: &str) -> usize {
    text.bytes().filter(|byte| *byte == b'\n').count()
}
