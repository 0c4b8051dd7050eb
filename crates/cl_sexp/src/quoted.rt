//! Texts between quotes.
ghost use Rattle.std.specs.Prelude.{◌≡◌, ℕ, ◌+◌, ◌^◌, ◌<◌, length, false};
ghost use Rattle.cl_sexp.specs.Tokens.{text_begins};
ghost use Rattle.cl_sexp.specs.Reads.{BeginsWithin, BeginsNested};

use crate::Kind;
use crate::begin::Begins;
use crate::byte::is_text;

/// The text of which these bytes follow the opening quote.
pub fn text_begins(bytes: &[u8]) -> Begins
    requires { length bytes.now + 1 < 2 ^ 64 }
    ensures value { result ≡ text_begins false 1 bytes.now }
    ensures within { BeginsWithin result (length bytes.now + 1) }
    ensures nested { (depth : ℕ) → BeginsNested result depth }
{
    let mut escaped = false;
    for (i, byte) in bytes.iter().enumerate() {
        if !is_text(*byte) {
            return Begins::Fault(1, i + 1);
        }
        if *byte == b'"' && !escaped {
            return Begins::Lexeme(Kind::Text, i + 2);
        }
        escaped = *byte == b'\\' && !escaped;
    }
    Begins::Fault(2, bytes.len() + 1)
}
