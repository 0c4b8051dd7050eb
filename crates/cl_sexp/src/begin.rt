//! What begins at a place of a text.
ghost use Rattle.std.specs.Prelude.{◌≡◌, ◌<◌, ◌≤◌, length};
ghost use Rattle.cl_sexp.specs.Tokens.{begins};
ghost use Rattle.cl_sexp.specs.Reads.{BeginsWithin, BeginsNested};

use crate::Kind;
use crate::byte::{comment_len, is_space, is_word, word_len};
use crate::quoted::text_begins;
use crate::word::word_begins;

/// With its length in bytes.
#[derive(Clone, Copy)]
pub enum Begins {
    /// White space, or a comment.
    Gap(usize),
    Lexeme(Kind, usize),
    /// A refusal so many bytes on.
    Fault(u8, usize),
}

/// What the bytes begin with, where `depth` forms are open.
pub fn what_begins(bytes: &[u8], depth: u8) -> Begins
    requires some { 0 < length bytes.now }
    requires nested { depth ≤ 64 }
    ensures value { result ≡ begins depth bytes.now }
    ensures within { BeginsWithin result (length bytes.now) }
    ensures nested { BeginsNested result depth }
{
    let [first, rest @ ..] = bytes else {
        unreachable!()
    };
    match *first {
        b if is_space(b) => Begins::Gap(1),
        b';' => Begins::Gap(comment_len(rest) + 1),
        b'(' if depth == 64 => Begins::Fault(3, 0),
        b'(' => Begins::Lexeme(Kind::Open, 1),
        b')' if depth == 0 => Begins::Fault(2, 0),
        b')' => Begins::Lexeme(Kind::Close, 1),
        b'\'' => Begins::Lexeme(Kind::Quote, 1),
        b'"' => text_begins(rest),
        b if is_word(b) => word_begins(&bytes[..word_len(bytes)]),
        _ => Begins::Fault(1, 0),
    }
}
