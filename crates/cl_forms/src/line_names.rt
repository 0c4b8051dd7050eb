//! Command-line names.
ghost use Rattle.std.specs.Prelude.{◌≡◌, IfOk, true};
ghost use Rattle.cl_forms.specs.LineNames.{words_of, line_name_of, line_byte};

use cl_value::Text;
use std::alloc::{AllocError, Global};

/// The command-line name that is made from a symbol.
pub fn line_name_of(alloc: Global, symbol: &[u8]) -> Result<Text, AllocError>
    ensures { IfOk result (λ t. t ≡ line_name_of symbol.now) }
{
    words_of(alloc, symbol.strip_prefix(b"com-").unwrap_or(symbol))
}

fn words_of(alloc: Global, symbol: &[u8]) -> Result<Text, AllocError>
    ensures { IfOk result (λ t. t ≡ words_of true symbol.now) }
{
    let mut line = Vec::new(alloc);
    let mut first = true;
    for byte in symbol {
        line.push(line_byte(first, *byte))?;
        first = *byte == b'-';
    }
    Text::from_vec(alloc, line)
}

fn line_byte(first: bool, byte: u8) -> u8
    ensures { result ≡ line_byte first byte }
{
    match byte {
        b'-' => b' ',
        b'a'..=b'z' if first => byte - 32,
        _ => byte,
    }
}
