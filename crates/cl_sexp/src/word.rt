//! Words: numbers and symbols.
ghost use Rattle.std.specs.Prelude.{◌≡◌, ◌<◌, ℕ, ◌+◌, ◌-◌, ◌^◌, ℤ, pos, neg_ℤ, min, length, Some, None, if◌then◌else◌};
ghost use Rattle.std.specs.Char.{is_ascii_digit};
ghost use Rattle.std.specs.List.{list_all};
ghost use Rattle.cl_sexp.specs.Tokens.{word_begins};
ghost use Rattle.cl_sexp.specs.Reads.{BeginsWithin, BeginsNested};
ghost use Rattle.cl_sexp.specs.Numbers.{are_digits, decimal_after, digits_of, fits_i64, is_negative, is_number, number_of};

use crate::Kind;
use crate::begin::Begins;

/// The token that a whole word is.
pub fn word_begins(word: &[u8]) -> Begins
    requires { 0 < length word.now }
    ensures value { result ≡ word_begins word.now (length word.now) }
    ensures within { BeginsWithin result (length word.now) }
    ensures nested { (depth : ℕ) → BeginsNested result depth }
{
    if !is_number(word) {
        return Begins::Lexeme(Kind::Symbol, word.len());
    }
    match number_in(word) {
        Some(number) => Begins::Lexeme(Kind::Int(number), word.len()),
        None => Begins::Fault(4, 0),
    }
}

/// Whether a word is a number: an optional `-`, and one or more digits.
pub fn is_number(word: &[u8]) -> bool
    ensures { result ≡ is_number word.now }
{
    are_digits(digits_in(word))
}

/// The word without the `-` that it may begin with.
fn digits_in(word: &[u8]) -> &[u8]
    ensures { result.now ≡ digits_of word.now }
{
    match word {
        [b'-', digits @ ..] => digits,
        _ => word,
    }
}

fn are_digits(bytes: &[u8]) -> bool
    ensures { result ≡ are_digits bytes.now }
{
    !bytes.is_empty() && all_digits(bytes)
}

fn all_digits(bytes: &[u8]) -> bool
    ensures { result ≡ list_all is_ascii_digit bytes.now }
{
    bytes.iter().all(|byte| byte.is_ascii_digit())
}

/// The number that a sign and digits write, where it fits. What is no number is read as if it were one.
pub fn number_in(word: &[u8]) -> Option<i64>
    ensures { result ≡ (if fits_i64 (number_of word.now) then Some (number_of word.now) else None) }
{
    let magnitude = magnitude_of(digits_in(word));
    match word {
        [b'-', ..] => below_zero(magnitude),
        _ => i64::try_from(magnitude).ok(),
    }
}

/// The number that digits write. It stands still at 2^64 - 1.
#[tactic(auto, using(crate::proofs::Decimals::magnitude_next, crate::proofs::Decimals::magnitude_end))]
fn magnitude_of(digits: &[u8]) -> u64
    ensures { result ≡ min (decimal_after 0 digits.now) (2 ^ 64 - 1) }
{
    let mut value: u64 = 0;
    for digit in digits {
        value = value
            .saturating_mul(10)
            .saturating_add(u64::from(digit.saturating_sub(48)));
    }
    value
}

/// The number below zero of this magnitude, where it fits.
fn below_zero(magnitude: u64) -> Option<i64>
    ensures { result ≡ (if fits_i64 (neg_ℤ (pos magnitude)) then Some (neg_ℤ (pos magnitude)) else None) }
{
    0i64.checked_sub_unsigned(magnitude)
}
