//! What may be the name of a shared text, and the byte that a mark names.

/// Whether a text may have this name: a letter, and then letters, digits, `-` and `_`; none of the
/// names that stand for something else.
pub fn is_text_name(name: &str) -> bool {
    let begins = name.bytes().next().is_some_and(|b| b.is_ascii_alphabetic());
    let plain = name.bytes().all(is_name_byte);
    begins && plain && name != "form" && name != "answer" && byte_of(name).is_none()
}

fn is_name_byte(byte: u8) -> bool {
    byte.is_ascii_alphanumeric() || byte == b'-' || byte == b'_'
}

/// The byte of a mark of an `x` and two hexadecimal digits.
pub fn byte_of(mark: &str) -> Option<u8> {
    match mark.as_bytes() {
        [b'x', high, low] => {
            let high = char::from(*high).to_digit(16)?;
            let low = char::from(*low).to_digit(16)?;
            u8::try_from(high * 16 + low).ok()
        }
        _ => None,
    }
}
