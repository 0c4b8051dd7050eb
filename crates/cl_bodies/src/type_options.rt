//! The options of a type specifier.
ghost use Rattle.std.specs.Prelude.{◌≡◌, IfOk, map, option_map};
ghost use Rattle.cl_forms.specs.DatumView.{datum_of};
ghost use Rattle.cl_forms.specs.KeyedView.{keyed_of};
ghost use Rattle.cl_bodies.specs.TypeArguments.{is_separator, options_in, options_of, separator_in, separator_of, text_behind};

use cl_forms::{Datum, Key, Keyed, keyed_pairs, values_of};
use cl_syntax::TypeOptions;
use cl_value::Text;
use std::alloc::{AllocError, Global};

/// The keys of the options that a type may have.
const OPTION_KEYS: [Key; 2] = [Key::Description, Key::Separator];

// Whether a byte may stand between the parts of a text.
fn is_separator(byte: u8) -> bool
    ensures { result ≡ is_separator byte }
{
    byte.is_ascii_graphic() && !byte.is_ascii_alphanumeric() && byte != b'"' && byte != b'\\'
}

// The separator that these bytes are.
fn separator_in(bytes: &[u8]) -> Option<u8>
    ensures { result ≡ separator_in bytes.now }
{
    match bytes {
        [byte] => {
            if is_separator(*byte) {
                Some(*byte)
            } else {
                None
            }
        }
        [] => None,
        [_, _, ..] => None,
    }
}

/// The text behind a key, where the key stands; `None` where something else stands behind it.
pub fn text_behind<'a>(values: Option<&'a [Datum]>) -> Option<Option<&'a Text>>
    ensures { option_map (λ o. option_map (λ t. t.now) o) result
        ≡ text_behind (option_map (λ v. map datum_of v.now) values.entry) }
{
    match values {
        None => Some(None),
        Some(values) => match values {
            [Datum::Literal(text, _)] => Some(Some(text)),
            _ => None,
        },
    }
}

// The separator that the text behind a key is, where the key stands.
fn separator_of(text: Option<&Text>) -> Option<Option<u8>>
    ensures { result ≡ separator_of (option_map (λ t. t.now) text.entry) }
{
    match text {
        None => Some(None),
        Some(text) => separator_in(text.as_slice()).map(Some),
    }
}

// The options of keys; `None` where the value of one is wrong.
fn options_of(keyed: &[Keyed]) -> Result<Option<TypeOptions>, AllocError>
    ensures { IfOk result (λ o. o ≡ options_of (map keyed_of keyed.now)) }
{
    let Some(description) = text_behind(values_of(Key::Description, keyed)) else {
        return Ok(None);
    };
    let Some(separator) = text_behind(values_of(Key::Separator, keyed)) else {
        return Ok(None);
    };
    let Some(separator) = separator_of(separator) else {
        return Ok(None);
    };
    let description = match description {
        Some(text) => Some(text.copy()?),
        None => None,
    };
    Ok(Some(TypeOptions {
        description,
        separator,
    }))
}

/// The options that data are: each known, once, with a value of its kind; `None` where they are not.
pub(crate) fn options_in(alloc: Global, parts: &[Datum]) -> Result<Option<TypeOptions>, AllocError>
    ensures { IfOk result (λ o. o ≡ options_in (map datum_of parts.now)) }
{
    match keyed_pairs(alloc, &OPTION_KEYS, parts)? {
        Some(keyed) => options_of(keyed.as_slice()),
        None => Ok(None),
    }
}
