//! The place in a line that is being typed.
ghost use Rattle.std.specs.Prelude.{◌≡◌, ◌≤◌, length};
ghost use Rattle.cl_line.specs.Places.{half_start, is_half, is_unended, line_slot, number_typed, slot_of};
ghost use Rattle.cl_line.specs.Tokens.{tokens_behind};

use crate::elements::Element;
use crate::tokens::{Token, TokenKind, next_token};

/// The name of a line: where it ends, in elements from the line's start, and how many arguments its command takes.
#[derive(Clone, Copy, PartialEq, Eq, Debug)]
pub struct Named {
    pub end: usize,
    pub arguments: usize,
}

/// The place in a line: what is typed next belongs there.
#[derive(Clone, Copy, PartialEq, Eq, Debug)]
pub enum LineSlot {
    /// The command's name.
    Name,
    /// The argument of this number, from 1.
    Arg(usize),
    /// Behind the last argument.
    Past,
}

impl Token {
    /// Whether it is the token that is being typed, in a line of so many elements.
    fn is_half(&self, count: usize) -> bool
        ensures { result ≡ is_half count self.now }
    {
        self.kind.is_unended() && self.end == count
    }
}

impl TokenKind {
    // Whether neither an object nor a closing quote ends it.
    fn is_unended(self) -> bool
        ensures { result ≡ is_unended self }
    {
        match self {
            TokenKind::Plain => true,
            TokenKind::Quoted => false,
            TokenKind::Open => true,
            TokenKind::Object => false,
        }
    }
}

/// The number of the token that is being typed, else of the next one, where tokens begin at an element.
pub(crate) fn number_typed(elements: &[Element], from: usize) -> usize
    ensures { result ≡ number_typed (length elements.now) (tokens_behind from elements.now) }
{
    let mut at = from;
    let mut number = 1;
    while let Some(token) = next_token(elements, at) {
        if token.is_half(elements.len()) {
            return number;
        }
        number += 1;
        at = token.end;
    }
    number
}

/// Where the token that is being typed begins, or the line's end.
pub(crate) fn half_start(elements: &[Element], from: usize) -> usize
    ensures start { result ≡ half_start (length elements.now) (tokens_behind from elements.now) }
    ensures within { result ≤ length elements.now }
{
    let mut at = from;
    while let Some(token) = next_token(elements, at) {
        if token.is_half(elements.len()) {
            return token.start;
        }
        at = token.end;
    }
    elements.len()
}

/// The argument of this number, of so many.
fn slot_of(number: usize, arguments: usize) -> LineSlot
    ensures { result ≡ slot_of number arguments }
{
    if number <= arguments {
        LineSlot::Arg(number)
    } else {
        LineSlot::Past
    }
}

/// The place of a line with this name.
pub(crate) fn line_slot(name: Option<Named>, elements: &[Element]) -> LineSlot
    ensures { result ≡ line_slot name elements.now }
{
    match name {
        None => LineSlot::Name,
        Some(named) => {
            if elements.len() == named.end {
                LineSlot::Name
            } else {
                slot_of(number_typed(elements, named.end), named.arguments)
            }
        }
    }
}
