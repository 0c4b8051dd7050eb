//! The tokens of a line.
ghost use Rattle.std.specs.Prelude.{◌≡◌, ◌≤◌, ◌<◌, ◌+◌, ◌^◌, IfSome, false, length};
ghost use Rattle.cl_line.specs.Tokens.{LiesBehind, lexeme, quote_length, quote_lexeme, token_at, tokens_behind, with_rest};

use crate::elements::{Element, count_characters, count_word};

/// What a token is.
#[derive(Clone, Copy, PartialEq, Eq, Debug)]
pub enum TokenKind {
    /// Characters outside of quotes.
    Plain,
    /// Characters between two quotes, these included.
    Quoted,
    /// A quote without its end: it reads as nothing.
    Open,
    /// One object.
    Object,
}

/// A token: the elements of a line from `start` to `end` (excluded), counted from 0.
#[derive(Clone, Copy, PartialEq, Eq, Debug)]
pub struct Token {
    pub kind: TokenKind,
    pub start: usize,
    pub end: usize,
}

// How many elements stand in quotes, with the closing one; `None` where that does not come.
fn quote_length(elements: &[Element]) -> Option<usize>
    ensures length { result ≡ quote_length false elements.now }
    ensures within { IfSome result (λ n. n ≤ length elements.now) }
{
    let mut escaped = false;
    let mut count = 0;
    for element in elements {
        let Element::Char(byte) = element else {
            return None;
        };
        count += 1;
        if !escaped && *byte == b'"' {
            return Some(count);
        }
        escaped = !escaped && *byte == b'\\';
    }
    None
}

// The token that a quote opens at a place, before these elements.
fn quote_token(at: usize, rest: &[Element]) -> Token
    requires { at + length rest.now < 2 ^ 63 }
    ensures token { result ≡ token_at at (quote_lexeme (quote_length false rest.now) rest.now) }
    ensures within { LiesBehind at (at + 1 + length rest.now) result }
{
    match quote_length(rest) {
        Some(count) => Token {
            kind: TokenKind::Quoted,
            start: at,
            end: at + 1 + count,
        },
        None => Token {
            kind: TokenKind::Open,
            start: at,
            end: at + 1 + count_characters(rest),
        },
    }
}

// The token that begins at a place with this element, before these.
fn token_at(at: usize, first: &Element, rest: &[Element]) -> Token
    requires { at + length rest.now < 2 ^ 63 }
    ensures token { result ≡ token_at at (lexeme first.now rest.now) }
    ensures within { LiesBehind at (at + 1 + length rest.now) result }
{
    match first {
        Element::Object(_) => Token {
            kind: TokenKind::Object,
            start: at,
            end: at + 1,
        },
        Element::Char(b'"') => quote_token(at, rest),
        Element::Char(_) => Token {
            kind: TokenKind::Plain,
            start: at,
            end: at + 1 + count_word(rest),
        },
    }
}

/// The first token of a line from an element on.
pub(crate) fn next_token(elements: &[Element], from: usize) -> Option<Token>
    ensures tokens { tokens_behind from elements.now ≡ with_rest elements.now result }
    ensures lies { IfSome result (LiesBehind from (length elements.now)) }
{
    let mut at = from;
    while let Some(first) = elements.get(at) {
        if !first.is_space() {
            return Some(token_at(at, first, &elements[at + 1..]));
        }
        at += 1;
    }
    None
}
