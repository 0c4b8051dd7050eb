//! What a token gives to be read.
ghost use Rattle.std.specs.Prelude.{◌≡◌, ◌≤◌, ◌-◌, false, drop, take, length, option_map};
ghost use Rattle.cl_line.specs.Elements.{characters};
ghost use Rattle.cl_line.specs.Texts.{elements_of, first_object, object_of, text_of, unquoted};

use crate::elements::Element;
use crate::tokens::{Token, TokenKind};
use arrayvec::ArrayVec;
use cl_value::Value;

/// Characters of a line, as their bytes: they take no memory.
pub type Characters = ArrayVec<u8, 256>;

/// The characters before the first object.
pub(crate) fn characters(elements: &[Element]) -> Characters
    requires { length elements.now ≤ 256 }
    ensures { result.items ≡ characters elements.now }
{
    let mut bytes = ArrayVec::new();
    for element in elements {
        let Element::Char(byte) = element else {
            return bytes;
        };
        bytes.push(*byte);
    }
    bytes
}

/// What stands before the closing quote, without each `\` that gives the character behind it.
fn unquoted(bytes: &[u8]) -> Characters
    requires { length bytes.now ≤ 256 }
    ensures { result.items ≡ unquoted false bytes.now }
{
    let mut inside = ArrayVec::new();
    let mut escaped = false;
    for byte in bytes {
        if !escaped && *byte == b'"' {
            return inside;
        }
        escaped = !escaped && *byte == b'\\';
        if !escaped {
            inside.push(*byte);
        }
    }
    inside
}

/// The elements of a token.
fn elements_of(elements: &[Element], token: Token) -> &[Element]
    ensures elements { result.now ≡ elements_of elements.now token }
    ensures within { length result.now ≤ length elements.now }
{
    let start = token.start.min(elements.len());
    let end = token.end.min(elements.len()).max(start);
    &elements[start..end]
}

/// The text of a token; `None` of an open one and of an object.
pub(crate) fn text_of(elements: &[Element], token: Token) -> Option<Characters>
    requires { length elements.now ≤ 256 }
    ensures { option_map (λ t. t.items) result ≡ text_of elements.now token }
{
    let bytes = characters(elements_of(elements, token));
    match token.kind {
        TokenKind::Plain => Some(bytes),
        TokenKind::Quoted => match bytes.as_slice() {
            [] => Some(ArrayVec::new()),
            [_, quoted @ ..] => Some(unquoted(quoted)),
        },
        TokenKind::Open => None,
        TokenKind::Object => None,
    }
}

/// The object of a token that is one.
pub(crate) fn object_of(elements: &[Element], token: Token) -> Option<&Value>
    ensures { option_map (λ v. v.now) result ≡ object_of elements.now token }
{
    match token.kind {
        TokenKind::Object => first_object(elements_of(elements, token)),
        TokenKind::Plain => None,
        TokenKind::Quoted => None,
        TokenKind::Open => None,
    }
}

// The first of elements, where it is an object.
fn first_object(elements: &[Element]) -> Option<&Value>
    ensures { option_map (λ v. v.now) result ≡ first_object elements.now }
{
    match elements {
        [Element::Object(value), ..] => Some(value),
        _ => None,
    }
}
