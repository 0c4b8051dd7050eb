//! The grammar of gesture lines.
ghost use Rattle.std.specs.Prelude.{◌≡◌, option_copied, position};
ghost use Rattle.std.specs.List.{list_all};
ghost use Rattle.cl_gesture.specs.declared.answers.Gesture.TheVariants as gesture;
ghost use Rattle.cl_gesture.specs.Gesture.{is_idle, is_no_space, is_printable, is_space, is_typable, is_word, without_return};
ghost use Rattle.cl_gesture.specs.Gesture.{alone, asking, does, pointing, pressing, rest_of, says, typing, verb_of, verb_says};
ghost use Rattle.cl_gesture.specs.Said.{SaidOf, AnswerOf};

use crate::answers::{Gesture, Next};
use crate::pointing::read_point;
use cl_value::Text;
use std::alloc::Global;

/// What one line says.
#[derive(Drop)]
pub enum Said {
    /// Nothing: it is empty or a comment.
    Idle,
    /// It is no line of the grammar.
    Bad,
    Gesture(Gesture),
    /// A gesture, for which memory was wanting.
    Memory,
}

/// The line without one carriage return at its end.
fn without_return(line: &[u8]) -> &[u8]
    ensures { result.now ≡ without_return line.now }
{
    line.strip_suffix(b"\r").unwrap_or(line)
}

/// Whether the line does nothing.
fn is_idle(line: &[u8]) -> bool
    ensures { result ≡ is_idle line.now }
{
    match line {
        [] => true,
        [first, ..] => *first == b'#',
    }
}

/// Whether a byte is a printable character of ASCII.
fn is_printable(byte: u8) -> bool
    ensures { result ≡ is_printable byte }
{
    32 <= byte && byte <= 126
}

/// Whether all bytes are printable.
fn are_printable(text: &[u8]) -> bool
    ensures { result ≡ list_all is_printable text.now }
{
    text.iter().all(|byte| is_printable(*byte))
}

/// Whether these bytes can be typed at once.
fn is_typable(text: &[u8]) -> bool
    ensures { result ≡ is_typable text.now }
{
    !text.is_empty() && are_printable(text)
}

/// Whether a byte is a space, which ends a verb and no word holds.
fn is_space(byte: u8) -> bool
    ensures { result ≡ is_space byte }
{
    byte == b' '
}

/// Whether these bytes are one word.
pub fn is_word(bytes: &[u8]) -> bool
    ensures { result ≡ is_word bytes.now }
{
    !bytes.is_empty() && have_no_space(bytes)
}

/// Whether no byte is a space.
fn have_no_space(bytes: &[u8]) -> bool
    ensures { result ≡ list_all is_no_space bytes.now }
{
    bytes.iter().all(|byte| !is_space(*byte))
}

/// Where the first space of a line stands.
fn first_space(line: &[u8]) -> Option<usize>
    ensures { result ≡ position is_space line.now }
{
    line.iter().position(|byte| is_space(*byte))
}

/// The verb of a line, and what stands behind its first space.
pub fn cut_verb(line: &[u8]) -> (&[u8], Option<&[u8]>)
    ensures verb { result.0.now ≡ verb_of line.now }
    ensures rest { option_copied result.1 ≡ rest_of line.now }
{
    match first_space(line) {
        Some(at) => (&line[..at], Some(&line[at + 1..])),
        None => (line, None),
    }
}

/// What a verb says that stands alone.
fn read_alone(gesture: Gesture, rest: Option<&[u8]>) -> Said
    ensures { SaidOf (alone gesture (option_copied rest.entry)) result }
{
    match rest {
        None => Said::Gesture(gesture),
        Some(_) => Said::Bad,
    }
}

/// What `history` says of the pane of this name.
fn asked(alloc: Global, name: &[u8]) -> Said
    ensures { SaidOf (does (gesture.History name.now)) result }
{
    match Text::from_slice(alloc, name) {
        Ok(name) => Said::Gesture(Gesture::History(name)),
        Err(_) => Said::Memory,
    }
}

/// What `history` says with what stands behind it.
fn read_history(alloc: Global, rest: Option<&[u8]>) -> Said
    ensures { SaidOf (asking (option_copied rest.entry)) result }
{
    match rest {
        Some(name) if is_word(name) => asked(alloc, name),
        _ => Said::Bad,
    }
}

/// What `stroke` says of the keystroke of this name.
fn pressed(alloc: Global, name: &[u8]) -> Said
    ensures { SaidOf (does (gesture.Stroke name.now)) result }
{
    match Text::from_slice(alloc, name) {
        Ok(name) => Said::Gesture(Gesture::Stroke(name)),
        Err(_) => Said::Memory,
    }
}

/// What `stroke` says with what stands behind it.
fn read_stroke(alloc: Global, rest: Option<&[u8]>) -> Said
    ensures { SaidOf (pressing (option_copied rest.entry)) result }
{
    match rest {
        Some(name) if is_word(name) => pressed(alloc, name),
        _ => Said::Bad,
    }
}

/// What `type` says with this text.
fn typed(alloc: Global, text: &[u8]) -> Said
    ensures { SaidOf (does (gesture.«Type» text.now)) result }
{
    match Text::from_slice(alloc, text) {
        Ok(text) => Said::Gesture(Gesture::Type(text)),
        Err(_) => Said::Memory,
    }
}

/// What `type` says with what stands behind it.
fn read_type(alloc: Global, rest: Option<&[u8]>) -> Said
    ensures { SaidOf (typing (option_copied rest.entry)) result }
{
    match rest {
        Some(text) if is_typable(text) => typed(alloc, text),
        _ => Said::Bad,
    }
}

/// What a verb says, with what stands behind it.
fn read_verb(alloc: Global, verb: &[u8], rest: Option<&[u8]>) -> Said
    ensures { SaidOf (verb_says verb.now (option_copied rest.entry)) result }
{
    if verb == b"return".as_slice() {
        read_alone(Gesture::Return, rest)
    } else if verb == b"rubout".as_slice() {
        read_alone(Gesture::Rubout, rest)
    } else if verb == b"clear".as_slice() {
        read_alone(Gesture::Clear, rest)
    } else if verb == b"frame".as_slice() {
        read_alone(Gesture::Frame, rest)
    } else if verb == b"inks".as_slice() {
        read_alone(Gesture::Inks, rest)
    } else if verb == b"force".as_slice() {
        read_alone(Gesture::Force, rest)
    } else if verb == b"history".as_slice() {
        read_history(alloc, rest)
    } else if verb == b"stroke".as_slice() {
        read_stroke(alloc, rest)
    } else if verb == b"type".as_slice() {
        read_type(alloc, rest)
    } else if verb == b"point".as_slice() {
        read_point(alloc, rest)
    } else {
        Said::Bad
    }
}

/// What a line says, a carriage return at its end left out.
pub fn read_line(alloc: Global, line: &[u8]) -> Said
    ensures { SaidOf (says (without_return line.now)) result }
{
    let line = without_return(line);
    if is_idle(line) {
        return Said::Idle;
    }
    let (verb, rest) = cut_verb(line);
    read_verb(alloc, verb, rest)
}

/// The answer for a line of this number; None: the line does nothing.
pub fn answer(said: Said, number: u32) -> Option<Next>
    ensures { AnswerOf said number result }
{
    match said {
        Said::Idle => None,
        Said::Bad => Some(Next::Bad(number)),
        Said::Gesture(gesture) => Some(Next::Gesture(gesture)),
        Said::Memory => Some(Next::Memory),
    }
}
