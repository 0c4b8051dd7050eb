//! Keys of a terminal.
use crate::{Button, Decoder, Key, Press};
use std::test::Fail;

// The last key of bytes.
fn last_key(bytes: &[u8]) -> Option<Key> {
    let mut decoder = Decoder::new();
    let mut last = None;
    for byte in bytes {
        last = decoder.take(*byte);
    }
    last
}

#[test]
fn keys(rt: HostRuntime) -> Result<(), Fail> {
    assert!(rt; last_key(b"a") == Some(Key::Typed(b'a')));
    assert!(rt; last_key(b"\x1bQ") == Some(Key::Stroke(b'q')));
    assert!(rt; last_key(b"\x1b[A").is_none());
    let press = Press {
        button: Button::Right,
        column: 9,
        row: 0,
    };
    assert!(rt; last_key(b"\x1b[<2;10;1M") == Some(Key::Press(press)));
    Ok(())
}
