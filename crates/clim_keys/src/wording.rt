//! Keys in words.
use cl_keys::{Button, Key, Press};
use std::alloc::{AllocError, Global};

/// Keys in words, with a comma between each two; `none` where there are none.
pub fn words_of(alloc: Global, keys: &[Key]) -> Result<String, AllocError> {
    let mut words = String::new(alloc);
    if keys.is_empty() {
        words.push_str("none")?;
    }
    for (number, key) in keys.iter().enumerate() {
        if number > 0 {
            words.push_str(", ")?;
        }
        push_key(alloc, &mut words, *key)?;
    }
    Ok(words)
}

fn push_key(alloc: Global, words: &mut String, key: Key) -> Result<(), AllocError> {
    match key {
        Key::Typed(b' ') => words.push_str("typed space"),
        Key::Typed(byte) => push_byte(words, "typed ", byte),
        Key::Return => words.push_str("return"),
        Key::Rubout => words.push_str("rubout"),
        Key::Clear => words.push_str("clear"),
        Key::Force => words.push_str("force"),
        Key::Stroke(byte) => push_byte(words, "stroke ", byte),
        Key::Press(press) => push_press(alloc, words, press),
        Key::End => words.push_str("end"),
    }
}

fn push_byte(words: &mut String, what: &str, byte: u8) -> Result<(), AllocError> {
    words.push_str(what)?;
    words.push(char::from(byte))
}

fn push_press(alloc: Global, words: &mut String, press: Press) -> Result<(), AllocError> {
    let button = match press.button {
        Button::Left => "left",
        Button::Middle => "middle",
        Button::Right => "right",
    };
    let column = press.column;
    let row = press.row;
    words.push_str(format!(in alloc; "press {button} {column} {row}")?.as_str())
}
