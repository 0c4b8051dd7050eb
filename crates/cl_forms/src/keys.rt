//! The keys that forms have, with what stands behind each.
ghost use Rattle.std.specs.Prelude.{◌≡◌, ◌++◌, ◌∷◌, [], IfOk, map, option_map};
ghost use Rattle.std.specs.List.{list_any};
ghost use Rattle.cl_forms.specs.DatumView.{datum_of};
ghost use Rattle.cl_forms.specs.KeyedView.{keyed_of};
ghost use Rattle.cl_forms.specs.Keys.{key_named, section_key, value_key, translator_key, update_key, dialog_key, same_key, is_among, key_in, has_key, is_key, values_behind, section_values, section_of, section_in, pair_in, keyed_sections, keyed_pairs, values_of};

use crate::datum::Datum;
use crate::naming::symbol_of;
use std::alloc::{AllocError, Global};

/// The keys of declarations, of arguments, of types, of presentations, of translators, of updates and of
/// dialogs.
#[derive(Clone, Copy, PartialEq, Eq)]
pub enum Key {
    Size,
    Slots,
    Panes,
    CommandTable,
    Name,
    Keystroke,
    InheritFrom,
    Satisfies,
    Description,
    Separator,
    SingleBox,
    Default,
    Prompt,
    Gesture,
    Priority,
    Documentation,
    Tester,
    UniqueId,
    CacheValue,
    Command,
    Pane,
    When,
    Else,
}

/// A key with what stands behind it.
#[derive(Clone, Copy)]
pub struct Keyed<'a> {
    pub key: Key,
    /// The offset of the key.
    pub at: u32,
    pub values: &'a [Datum],
}

/// The key that a word is.
pub fn key_named(word: &[u8]) -> Option<Key>
    ensures { result ≡ key_named word.now }
{
    if let Some(key) = section_key(word) {
        return Some(key);
    }
    if let Some(key) = value_key(word) {
        return Some(key);
    }
    if let Some(key) = translator_key(word) {
        return Some(key);
    }
    if let Some(key) = update_key(word) {
        return Some(key);
    }
    dialog_key(word)
}

/// The key that a word is, if it begins a section of a frame.
fn section_key(word: &[u8]) -> Option<Key>
    ensures { result ≡ section_key word.now }
{
    if word == b":size".as_slice() {
        Some(Key::Size)
    } else if word == b":slots".as_slice() {
        Some(Key::Slots)
    } else if word == b":panes".as_slice() {
        Some(Key::Panes)
    } else if word == b":command-table".as_slice() {
        Some(Key::CommandTable)
    } else {
        None
    }
}

/// The key that a word is, if one value stands behind it.
fn value_key(word: &[u8]) -> Option<Key>
    ensures { result ≡ value_key word.now }
{
    if word == b":name".as_slice() {
        Some(Key::Name)
    } else if word == b":keystroke".as_slice() {
        Some(Key::Keystroke)
    } else if word == b":inherit-from".as_slice() {
        Some(Key::InheritFrom)
    } else if word == b":satisfies".as_slice() {
        Some(Key::Satisfies)
    } else if word == b":description".as_slice() {
        Some(Key::Description)
    } else if word == b":separator".as_slice() {
        Some(Key::Separator)
    } else if word == b":single-box".as_slice() {
        Some(Key::SingleBox)
    } else if word == b":default".as_slice() {
        Some(Key::Default)
    } else if word == b":prompt".as_slice() {
        Some(Key::Prompt)
    } else {
        None
    }
}

/// The key that a word is, if a translator alone may have it.
fn translator_key(word: &[u8]) -> Option<Key>
    ensures { result ≡ translator_key word.now }
{
    if word == b":gesture".as_slice() {
        Some(Key::Gesture)
    } else if word == b":priority".as_slice() {
        Some(Key::Priority)
    } else if word == b":documentation".as_slice() {
        Some(Key::Documentation)
    } else if word == b":tester".as_slice() {
        Some(Key::Tester)
    } else {
        None
    }
}

/// The key that a word is, if an update alone may have it.
fn update_key(word: &[u8]) -> Option<Key>
    ensures { result ≡ update_key word.now }
{
    if word == b":unique-id".as_slice() {
        Some(Key::UniqueId)
    } else if word == b":cache-value".as_slice() {
        Some(Key::CacheValue)
    } else {
        None
    }
}

/// The key that a word is, if a dialog or a query of one alone may have it.
fn dialog_key(word: &[u8]) -> Option<Key>
    ensures { result ≡ dialog_key word.now }
{
    if word == b":command".as_slice() {
        Some(Key::Command)
    } else if word == b":pane".as_slice() {
        Some(Key::Pane)
    } else if word == b":when".as_slice() {
        Some(Key::When)
    } else if word == b":else".as_slice() {
        Some(Key::Else)
    } else {
        None
    }
}

fn same_key(one: Key, other: Key) -> bool
    ensures { result ≡ same_key one other }
{
    one == other
}

fn is_among(keys: &[Key], key: Key) -> bool
    ensures { result ≡ is_among keys.now key }
{
    keys.iter().any(|other| same_key(key, *other))
}

/// The key that a datum is, if the form may have it.
fn key_in(may_have: &[Key], datum: &Datum) -> Option<Key>
    ensures { result ≡ key_in may_have.now (datum_of datum.now) }
{
    let key = key_named(symbol_of(datum))?;
    if is_among(may_have, key) {
        Some(key)
    } else {
        None
    }
}

/// What stands behind this key.
pub fn values_of<'a>(key: Key, keyed: &[Keyed<'a>]) -> Option<&'a [Datum]>
    ensures { option_map (λ values. map datum_of values.now) result ≡ values_of key (map keyed_of keyed.now) }
{
    for one in keyed {
        if same_key(key, one.key) {
            return Some(one.values);
        }
    }
    None
}

fn has_key(key: Key, keyed: &[Keyed<'_>]) -> bool
    ensures { result ≡ has_key key (map keyed_of keyed.now) }
{
    values_of(key, keyed).is_some()
}

/// What stands behind this key in a section, which is a list that begins with its key; nothing where
/// another begins it.
pub fn section_values(key: Key, section: &Datum) -> &[Datum]
    ensures { map datum_of result.now ≡ section_values key (datum_of section.now) }
{
    values_behind(key, section.parts())
}

fn values_behind(key: Key, parts: &[Datum]) -> &[Datum]
    ensures { map datum_of result.now ≡ values_behind key (map datum_of parts.now) }
{
    match parts {
        [] => &[],
        [first, values @ ..] => {
            if is_key(key, key_named(symbol_of(first))) {
                values
            } else {
                &[]
            }
        }
    }
}

fn is_key(key: Key, found: Option<Key>) -> bool
    ensures { result ≡ is_key key found }
{
    match found {
        Some(found) => same_key(key, found),
        None => false,
    }
}

/// `(KEY VALUE ...)`
fn section_in<'a>(may_have: &[Key], section: &'a Datum) -> Option<Keyed<'a>>
    ensures { option_map keyed_of result ≡ section_in may_have.now (datum_of section.now) }
{
    section_of(may_have, section.parts())
}

fn section_of<'a>(may_have: &[Key], parts: &'a [Datum]) -> Option<Keyed<'a>>
    ensures { option_map keyed_of result ≡ section_of may_have.now (map datum_of parts.now) }
{
    match parts {
        [] => None,
        [key, values @ ..] => {
            let at = key.offset();
            let key = key_in(may_have, key)?;
            Some(Keyed { key, at, values })
        }
    }
}

/// `KEY VALUE`
fn pair_in<'a>(may_have: &[Key], key: &Datum, value: &'a Datum) -> Option<Keyed<'a>>
    ensures { option_map keyed_of result ≡ pair_in may_have.now (datum_of key.now) (datum_of value.now) }
{
    let at = key.offset();
    let key = key_in(may_have, key)?;
    let values = std::slice::from_ref(value);
    Some(Keyed { key, at, values })
}

/// The keys of sections `(KEY VALUE ...)`, in the order of the text; None where a part is no section
/// with a key that the form may have, or a key stands twice.
pub fn keyed_sections<'a>(
    alloc: Global,
    may_have: &[Key],
    sections: &'a [Datum],
) -> Result<Option<Vec<Keyed<'a>>>, AllocError>
    ensures { IfOk result (λ r. option_map (λ v. map keyed_of v.items) r
        ≡ keyed_sections may_have.now [] (map datum_of sections.now)) }
{
    let mut keyed = Vec::new(alloc);
    for section in sections {
        let Some(one) = section_in(may_have, section) else {
            return Ok(None);
        };
        if has_key(one.key, keyed.as_slice()) {
            return Ok(None);
        }
        keyed.push(one)?;
    }
    Ok(Some(keyed))
}

/// The keys of pairs `KEY VALUE ...`, in the order of the text; None where the form may have no such key,
/// or a key stands twice or has no value.
pub fn keyed_pairs<'a>(
    alloc: Global,
    may_have: &[Key],
    parts: &'a [Datum],
) -> Result<Option<Vec<Keyed<'a>>>, AllocError>
    ensures { IfOk result (λ r. option_map (λ v. map keyed_of v.items) r
        ≡ keyed_pairs may_have.now [] (map datum_of parts.now)) }
{
    let mut keyed = Vec::new(alloc);
    let mut rest = parts;
    while let Some((key, behind)) = rest.split_first() {
        let Some((value, behind)) = behind.split_first() else {
            return Ok(None);
        };
        let Some(one) = pair_in(may_have, key, value) else {
            return Ok(None);
        };
        if has_key(one.key, keyed.as_slice()) {
            return Ok(None);
        }
        keyed.push(one)?;
        rest = behind;
    }
    Ok(Some(keyed))
}
