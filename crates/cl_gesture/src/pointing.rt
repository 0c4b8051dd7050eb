//! The grammar of what stands behind `point`.
ghost use Rattle.std.specs.Prelude.{◌≡◌, option_copied, option_map, true};
ghost use Rattle.std.specs.List.{list_all};
ghost use Rattle.std.specs.Char.{is_ascii_digit};
ghost use Rattle.std.specs.Str.{str_eq_ignore_ascii_case};
ghost use Rattle.std.specs.Str.Parse.{digits_value};
ghost use Rattle.cl_gesture.specs.declared.answers.Gesture.TheVariants as gesture;
ghost use Rattle.cl_gesture.specs.Gesture.{does, point_in, pointing};
ghost use Rattle.cl_gesture.specs.Pointing.{coordinate_of, gesture_named, is_number, number_of};
ghost use Rattle.cl_gesture.specs.Said.{SaidOf};

use crate::answers::{Gesture, PointAt};
use crate::grammar::{Said, cut_verb, is_word};
use cl_translators::GestureName;
use cl_value::Text;
use std::alloc::Global;

/// A place of a pane as it was written, and how it is pointed at.
#[derive(Clone, Copy)]
struct Place<'a> {
    pane: &'a [u8],
    gesture: GestureName,
    x: i64,
    y: i64,
}

/// Whether two words are one but for the case of their letters.
fn is_same_word(word: &[u8], other: &[u8]) -> bool
    ensures { result ≡ str_eq_ignore_ascii_case word.now other.now }
{
    word.eq_ignore_ascii_case(other)
}

/// The gesture of the pointer that this word names.
fn gesture_named(word: &[u8]) -> Option<GestureName>
    ensures { result ≡ gesture_named word.now }
{
    if is_same_word(word, b"select") {
        Some(GestureName::Select)
    } else if is_same_word(word, b"describe") {
        Some(GestureName::Describe)
    } else if is_same_word(word, b"menu") {
        Some(GestureName::Menu)
    } else if is_same_word(word, b"edit") {
        Some(GestureName::Edit)
    } else if is_same_word(word, b"delete") {
        Some(GestureName::Delete)
    } else {
        None
    }
}

/// Whether all bytes are decimal digits.
fn are_digits(bytes: &[u8]) -> bool
    ensures { result ≡ list_all is_ascii_digit bytes.now }
{
    bytes.iter().all(|byte| byte.is_ascii_digit())
}

/// Whether these bytes are 1 to 6 decimal digits.
fn is_number(bytes: &[u8]) -> bool
    ensures { result ≡ is_number bytes.now }
{
    1 <= bytes.len() && bytes.len() <= 6 && are_digits(bytes)
}

/// The value of 1 to 6 decimal digits.
fn value_of(digits: &[u8]) -> u32
    requires { is_number digits.now ≡ true }
    ensures { result ≡ digits_value 10 digits.now }
{
    let mut value = 0;
    for digit in digits {
        value = value * 10 + u32::from(*digit - b'0');
    }
    value
}

/// The number that these bytes write; None: they write none.
fn number_of(bytes: &[u8]) -> Option<u32>
    ensures { result ≡ number_of bytes.now }
{
    if is_number(bytes) {
        Some(value_of(bytes))
    } else {
        None
    }
}

/// The coordinate that a word writes; None: it writes none.
fn coordinate_of(word: &[u8]) -> Option<i64>
    ensures { result ≡ coordinate_of word.now }
{
    match word {
        [b'-', digits @ ..] => Some(-i64::from(number_of(digits)?)),
        _ => Some(i64::from(number_of(word)?)),
    }
}

/// The place that these words write; None: they write none.
fn place_in(rest: Option<&[u8]>) -> Option<Place>
    ensures { option_map (λ place. record { pane = place.pane.now; gesture = place.gesture; x = place.x; y = place.y }) result
        ≡ point_in (option_copied rest.entry) }
{
    let (pane, behind) = cut_verb(rest?);
    let (word, numbers) = cut_verb(behind?);
    let (column, row) = cut_verb(numbers?);
    let row = row?;
    let gesture = gesture_named(word)?;
    let x = coordinate_of(column)?;
    let y = coordinate_of(row)?;
    if is_word(pane) {
        Some(Place {
            pane,
            gesture,
            x,
            y,
        })
    } else {
        None
    }
}

/// What `point` says of this place.
fn pointed(alloc: Global, place: Place) -> Said
    ensures { SaidOf (does (gesture.Point (record { pane = place.entry.pane.now; gesture = place.entry.gesture; x = place.entry.x; y = place.entry.y }))) result }
{
    let Place {
        pane,
        gesture,
        x,
        y,
    } = place;
    match Text::from_slice(alloc, pane) {
        Ok(pane) => Said::Gesture(Gesture::Point(PointAt {
            pane,
            gesture,
            x,
            y,
        })),
        Err(_) => Said::Memory,
    }
}

/// What `point` says with what stands behind it.
pub fn read_point(alloc: Global, rest: Option<&[u8]>) -> Said
    ensures { SaidOf (pointing (option_copied rest.entry)) result }
{
    match place_in(rest) {
        Some(place) => pointed(alloc, place),
        None => Said::Bad,
    }
}
