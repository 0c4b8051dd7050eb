//! Cases from a text.
ghost use Rattle.std.specs.Prelude.{◌<◌, IfOk};

use crate::faults::Fault;
use std::alloc::Global;

/// The bytes of a terminal, and what they show.
#[derive(Drop)]
pub struct Case<'a> {
    pub bytes: Vec<u8>,
    pub name: &'a str,
}

/// The case of a line.
pub fn case_in<'a>(alloc: Global, row: &'a str) -> Result<Case<'a>, Fault> {
    let Some((digits, name)) = row.split_once(" # ") else {
        return Err(Fault::Wrong);
    };
    let mut bytes = Vec::new(alloc);
    for word in digits.split(' ') {
        bytes.push(byte_of(word.as_bytes())?)?;
    }
    Ok(Case { bytes, name })
}

// The byte that two hexadecimal digits write.
fn byte_of(word: &[u8]) -> Result<u8, Fault> {
    match word {
        [high, low] => Ok(digit_of(*high)? * 16 + digit_of(*low)?),
        _ => Err(Fault::Wrong),
    }
}

// The value of a hexadecimal digit.
fn digit_of(digit: u8) -> Result<u8, Fault>
    ensures { IfOk result (λ value. value < 16) }
{
    match digit {
        b'0'..=b'9' => Ok(digit - b'0'),
        b'a'..=b'f' => Ok(digit - b'a' + 10),
        _ => Err(Fault::Wrong),
    }
}
