//! What a person does at a terminal: the bytes that it sends are decoded one by one, each key as soon as its last byte is there,
//! however the bytes are cut into reads.
//!
//! A terminal in raw mode sends the byte of a character that is typed; 13 or 10 for the return key, 127 or 8 for rubout, and a byte
//! below 32 for a letter with the control key. Alt with a letter is sent as an escape, the byte 27, and the letter. An escape and
//! `[` begin a control sequence, which the first byte outside of 32 to 63 ends: the arrow keys are sent so, and so is the pointer, `ESC [ < B ; X ; Y M`
//! where a button went down. An escape and `O` begin a sequence of one byte more.
//!
//! In an application a key makes a gesture. A press points at a pane: the left button selects, the middle one describes, and the
//! right one asks for the menu.
#![tactic(auto)]

mod decoder;
mod gestures;
mod keys;
mod laws;
mod reports;

pub use decoder::Decoder;
pub use gestures::gesture_of;
pub use keys::{Button, Key, Press};
pub use laws::{
    cuts_are_free, keys_are_spelled, one_pane_is_pointed_at, other_sequences_do_nothing,
    spellings_give_all_keys, spellings_give_keys,
};

#[cfg(test)]
mod tests;
