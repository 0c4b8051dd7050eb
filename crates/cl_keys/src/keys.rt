//! Keys that one byte stands for, or a letter behind an escape.
ghost use Rattle.std.specs.Prelude.{◌≡◌};
ghost use Rattle.cl_keys.specs.Keys.{is_stroke, plain_key, stroke_of};

/// A button of the pointer.
#[derive(Clone, Copy, PartialEq, Eq, Debug)]
pub enum Button {
    Left,
    Middle,
    Right,
}

/// A button of the pointer went down at a cell of the screen, counted from 0.
#[derive(Clone, Copy, PartialEq, Eq, Debug)]
pub struct Press {
    pub button: Button,
    pub column: u16,
    pub row: u16,
}

/// What a person did at the keyboard or with the pointer.
#[derive(Clone, Copy, PartialEq, Eq, Debug)]
pub enum Key {
    /// A character from 32 to 126.
    Typed(u8),
    Return,
    Rubout,
    /// Control with U: takes the line away.
    Clear,
    /// Control with L: shows all anew.
    Force,
    /// Alt with a letter other than the capital O, as a small letter.
    Stroke(u8),
    Press(Press),
    /// Control with D: the end.
    End,
}

/// The key that a byte at rest stands for.
pub(crate) fn plain_key(byte: u8) -> Option<Key>
    ensures { result ≡ plain_key byte }
{
    match byte {
        32..=126 => Some(Key::Typed(byte)),
        13 | 10 => Some(Key::Return),
        127 | 8 => Some(Key::Rubout),
        21 => Some(Key::Clear),
        12 => Some(Key::Force),
        4 => Some(Key::End),
        _ => None,
    }
}

// Whether a byte behind an escape is a stroke: a letter, but not `O`, which begins a sequence.
fn is_stroke(byte: u8) -> bool
    ensures { result ≡ is_stroke byte }
{
    byte.is_ascii_alphabetic() && byte != b'O'
}

/// The key that a byte behind an escape stands for.
pub(crate) fn stroke_of(byte: u8) -> Option<Key>
    ensures { result ≡ stroke_of byte }
{
    if is_stroke(byte) {
        Some(Key::Stroke(byte.to_ascii_lowercase()))
    } else {
        None
    }
}
