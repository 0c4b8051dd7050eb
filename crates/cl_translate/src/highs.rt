//! The high parts of the priorities of translators.
ghost use Rattle.std.specs.Prelude.{◌≡◌, ◌++◌, IfOk, OnOk, filter};
ghost use Rattle.std.specs.List.{list_any};
ghost use Rattle.cl_translate.specs.Highs.{has_high, highs_of};

use cl_translators::{GestureName, TranslatorPlace};
use std::alloc::{AllocError, Global};

/// The digits, the greatest first.
const DIGITS: [u8; 10] = [9, 8, 7, 6, 5, 4, 3, 2, 1, 0];

/// The high parts that translators of a gesture have, the greatest first.
pub(crate) fn highs_of(
    alloc: Global,
    gesture: GestureName,
    translators: &[TranslatorPlace],
) -> Result<Vec<u8>, AllocError>
    ensures { IfOk result (λ hs. hs.items ≡ highs_of gesture translators.now) }
{
    let mut highs = Vec::new(alloc);
    add_highs(gesture, translators, &DIGITS, &mut highs)?;
    Ok(highs)
}

// Adds those of these digits that translators of a gesture have as high parts.
fn add_highs(
    gesture: GestureName,
    translators: &[TranslatorPlace],
    digits: &[u8],
    highs: &mut Vec<u8>,
) -> Result<(), AllocError>
    ensures { OnOk result (highs.new.items ≡ highs.old.items ++ filter (λ high. list_any (has_high gesture high) translators.now) digits.now) }
{
    for high in digits {
        if is_had(gesture, *high, translators) {
            highs.push(*high)?;
        }
    }
    Ok(())
}

// Whether one of the translators has this gesture and this high part.
fn is_had(gesture: GestureName, high: u8, translators: &[TranslatorPlace]) -> bool
    ensures { result ≡ list_any (has_high gesture high) translators.now }
{
    translators
        .iter()
        .any(|translator| has_high(gesture, high, translator))
}

fn has_high(gesture: GestureName, high: u8, translator: &TranslatorPlace) -> bool
    ensures { result ≡ has_high gesture high translator.now }
{
    translator.gesture == gesture && translator.priority / 10 == high
}
