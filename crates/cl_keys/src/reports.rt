//! What a terminal reports of its pointer.
ghost use Rattle.std.specs.Prelude.{◌≡◌, position, true};
ghost use Rattle.std.specs.Char.{is_ascii_digit};
ghost use Rattle.std.specs.List.{list_all};
ghost use Rattle.std.specs.Str.Parse.{digits_value};
ghost use Rattle.cl_keys.specs.Reports.{button_of, coordinate_of, is_number, is_semicolon, press_in, press_of};

use crate::keys::{Button, Press};

/// The button of this code.
fn button_of(code: u8) -> Option<Button>
    ensures { result ≡ button_of code }
{
    match code {
        b'0' => Some(Button::Left),
        b'1' => Some(Button::Middle),
        b'2' => Some(Button::Right),
        _ => None,
    }
}

/// Whether all bytes are decimal digits.
fn are_digits(bytes: &[u8]) -> bool
    ensures { result ≡ list_all is_ascii_digit bytes.now }
{
    bytes.iter().all(|byte| byte.is_ascii_digit())
}

/// Whether these bytes are 1 to 5 decimal digits.
fn is_number(bytes: &[u8]) -> bool
    ensures { result ≡ is_number bytes.now }
{
    1 <= bytes.len() && bytes.len() <= 5 && are_digits(bytes)
}

/// The value of 1 to 5 decimal digits.
fn value_of(digits: &[u8]) -> u32
    requires { is_number digits.now ≡ true }
    ensures { result ≡ digits_value 10 digits.now }
{
    let mut value = 0;
    for digit in digits {
        value = value * 10 + u32::from(*digit - b'0');
    }
    value
}

/// The column or the row that these bytes write, counted from 0 where they count from 1; None: they write none.
fn coordinate_of(bytes: &[u8]) -> Option<u16>
    ensures { result ≡ coordinate_of bytes.now }
{
    if !is_number(bytes) {
        return None;
    }
    let value = value_of(bytes);
    if 1 <= value && value <= 65_535 {
        Some((value - 1) as u16)
    } else {
        None
    }
}

/// Where the first `;` stands.
fn first_semicolon(bytes: &[u8]) -> Option<usize>
    ensures { result ≡ position is_semicolon bytes.now }
{
    bytes.iter().position(|byte| *byte == b';')
}

/// The press of the button of this code at this place, a column, `;` and a row.
fn press_of(code: u8, place: &[u8]) -> Option<Press>
    ensures { result ≡ press_of code place.now }
{
    let button = button_of(code)?;
    let at = first_semicolon(place)?;
    let column = coordinate_of(&place[..at])?;
    let row = coordinate_of(&place[at + 1..])?;
    Some(Press {
        button,
        column,
        row,
    })
}

/// The press that a sequence with these bytes before its `M` reports; None: it reports none.
pub(crate) fn press_in(bytes: &[u8]) -> Option<Press>
    ensures { result ≡ press_in bytes.now }
{
    match bytes {
        [b'<', code, b';', place @ ..] => press_of(*code, place),
        _ => None,
    }
}
