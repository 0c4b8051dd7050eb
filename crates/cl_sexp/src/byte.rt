//! The kinds of bytes of an application text.
ghost use Rattle.std.specs.Prelude.{◌≡◌, ◌≤◌, length};
ghost use Rattle.std.specs.List.{prefix_len};
ghost use Rattle.cl_sexp.specs.Bytes.{is_space, in_comment, is_word, is_text};

pub fn is_space(byte: u8) -> bool
    ensures { result ≡ is_space byte }
{
    matches!(byte, 9 | 10 | 13 | 32)
}

/// Whether a byte may stand in a word: a printable one that is none of `(`, `)`, `'`, `"` and `;`.
pub fn is_word(byte: u8) -> bool
    ensures { result ≡ is_word byte }
{
    byte.is_ascii_graphic() && !matches!(byte, b'(' | b')' | b'\'' | b'"' | b';')
}

pub fn is_text(byte: u8) -> bool
    ensures { result ≡ is_text byte }
{
    byte >= 32 && byte != 127
}

/// The length of the word that the bytes begin with, 0 where they begin with none.
pub fn word_len(bytes: &[u8]) -> usize
    ensures value { result ≡ prefix_len is_word bytes.now }
    ensures within { result ≤ length bytes.now }
{
    bytes.iter().take_while(|byte| is_word(**byte)).count()
}

/// How many bytes of a comment these begin with.
pub fn comment_len(bytes: &[u8]) -> usize
    ensures value { result ≡ prefix_len in_comment bytes.now }
    ensures within { result ≤ length bytes.now }
{
    bytes.iter().take_while(|byte| **byte != b'\n').count()
}
