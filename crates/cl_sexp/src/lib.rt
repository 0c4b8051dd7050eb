//! The tokens of an application text. Its form, the refusals and their numbers are our own profile.
#![tactic(auto)]

ghost use Rattle.std.specs.Prelude.{◌≡◌, ◌≤◌, IfOk, All, length};
ghost use Rattle.cl_sexp.specs.Tokens.{tokens_of, Nests, InText, depth_after, KeepsNest};
ghost use Rattle.cl_sexp.specs.Reads.{Gives};

use begin::{Begins, what_begins};
use std::alloc::{AllocFailed, Global};
use thiserror::Error;

mod begin;
mod byte;
mod laws;
mod quoted;
mod word;

pub use byte::is_word;
pub use laws::{first_fault_is_told, tokens_are_read, tokens_join, tokens_lie, tokens_rise};
pub use word::{is_number, number_in};

/// A word of an optional `-` and digits is a number; any other word is a symbol.
#[derive(Clone, Copy, PartialEq, Eq, Debug)]
pub enum Kind {
    Open,
    Close,
    Quote,
    Int(i64),
    /// With its two quotes, and each `\` still in it.
    Text,
    /// As it is written, large letters included.
    Symbol,
}

/// A token is the slice of the text from `start` to `end` (excluded), in bytes.
#[derive(Clone, Copy, PartialEq, Eq, Debug)]
pub struct Token {
    pub kind: Kind,
    pub start: u32,
    pub end: u32,
}

/// Why a text has no tokens.
#[derive(Clone, Copy, PartialEq, Eq, Debug, Error)]
pub enum ReadRefusal {
    /// The number of the refusal, and its offset in bytes. 1: a byte that is not allowed where it stands.
    /// 2: the text ends inside a form or a text (the offset is its length), or a `)` closes nothing.
    /// 3: a `(` opens a 65th form. 4: a number does not fit in 64 bits.
    #[error("refused {0} at {1}")]
    Refused(u8, u32),
    #[error("out of memory")]
    Memory,
}

impl From<AllocFailed<Token>> for ReadRefusal {
    ghost use Rattle.std.specs.Prelude.{◌≡◌};
    ghost use Rattle.cl_sexp.specs.declared.ReadRefusal.TheVariants.{Memory};

    ghost from_gives = { λ _ e. e ≡ Memory };

    fn from(_: AllocFailed<Token>) -> Self {
        ReadRefusal::Memory
    }
}

/// The tokens of an application text in their order, or the refusal that comes first in the text.
pub fn read_forms(alloc: Global, text: &[u8]) -> Result<Vec<Token>, ReadRefusal>
    requires { length text.now ≤ 1048576 }
    ensures value { Gives result (tokens_of text.now) }
    ensures nested { IfOk result (λ tokens. Nests 0 tokens.items) }
    ensures inside { IfOk result (λ tokens. All (InText (length text.now)) tokens.items) }
{
    let mut tokens = Vec::new(alloc);
    let mut at: usize = 0;
    let mut depth: u8 = 0;
    while at < text.len() {
        match what_begins(&text[at..], depth) {
            Begins::Gap(n) => at += n,
            Begins::Lexeme(kind, n) => {
                tokens.push(Token {
                    kind,
                    start: at as u32,
                    end: (at + n) as u32,
                })?;
                depth = behind(kind, depth);
                at += n;
            }
            Begins::Fault(number, n) => return Err(ReadRefusal::Refused(number, (at + n) as u32)),
        }
    }
    if depth == 0 {
        Ok(tokens)
    } else {
        Err(ReadRefusal::Refused(2, text.len() as u32))
    }
}

/// How many forms are open behind a token.
fn behind(kind: Kind, depth: u8) -> u8
    requires { KeepsNest kind depth }
    ensures { result ≡ depth_after kind depth }
{
    match kind {
        Kind::Open => depth + 1,
        Kind::Close => depth - 1,
        Kind::Quote => depth,
        Kind::Int(_) => depth,
        Kind::Text => depth,
        Kind::Symbol => depth,
    }
}
