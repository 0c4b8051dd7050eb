//! The elements of a line.
ghost use Rattle.std.specs.Prelude.{◌≡◌, ◌≤◌, length};
ghost use Rattle.std.specs.List.{prefix_len};
ghost use Rattle.cl_line.specs.Elements.{is_character, is_in_word, is_space};

use cl_value::Value;

/// One element of a line.
#[derive(Drop)]
pub enum Element {
    /// A character that was typed, as its byte.
    Char(u8),
    /// An object that was pointed at.
    Object(Value),
}

impl Element {
    // Whether it parts words.
    pub(crate) fn is_space(&self) -> bool
        ensures { result ≡ is_space self.now }
    {
        match self {
            Element::Char(byte) => *byte == b' ',
            Element::Object(_) => false,
        }
    }

    // Whether it can stand in a word.
    fn is_in_word(&self) -> bool
        ensures { result ≡ is_in_word self.now }
    {
        match self {
            Element::Char(byte) => *byte != b' ',
            Element::Object(_) => false,
        }
    }

    // Whether it is a character.
    fn is_character(&self) -> bool
        ensures { result ≡ is_character self.now }
    {
        match self {
            Element::Char(_) => true,
            Element::Object(_) => false,
        }
    }
}

/// How many spaces stand first.
pub(crate) fn count_spaces(elements: &[Element]) -> usize
    ensures count { result ≡ prefix_len is_space elements.now }
    ensures within { result ≤ length elements.now }
{
    let mut count = 0;
    for element in elements {
        if !element.is_space() {
            return count;
        }
        count += 1;
    }
    count
}

/// How many elements of a word stand first.
pub(crate) fn count_word(elements: &[Element]) -> usize
    ensures count { result ≡ prefix_len is_in_word elements.now }
    ensures within { result ≤ length elements.now }
{
    let mut count = 0;
    for element in elements {
        if !element.is_in_word() {
            return count;
        }
        count += 1;
    }
    count
}

/// How many characters stand before the first object.
pub(crate) fn count_characters(elements: &[Element]) -> usize
    ensures count { result ≡ prefix_len is_character elements.now }
    ensures within { result ≤ length elements.now }
{
    let mut count = 0;
    for element in elements {
        if !element.is_character() {
            return count;
        }
        count += 1;
    }
    count
}
