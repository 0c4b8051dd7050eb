//! The decoder of keys.
ghost use Rattle.std.specs.Prelude.{◌≡◌, ℕ, List, []};
ghost use Rattle.cl_keys.specs.Decoding.{at_rest, begun, collecting, passing, is_part, key_ended, rested, step, with_part};
ghost use Rattle.cl_keys.specs.Phases.{state_of};

use crate::keys::{Key, plain_key, stroke_of};
use crate::reports::press_in;
use arrayvec::ArrayVec;
use std::marker::Model;

/// How many bytes of a control sequence are kept.
const ROOM: usize = 16;

/// The byte that begins all keys of more than one byte.
const ESCAPE: u8 = 27;

// Where a decoder stands.
#[derive(Clone, Copy, PartialEq, Eq, Debug)]
enum Phase {
    // No key has begun.
    Rest,
    // Behind an escape.
    Escape,
    // Behind an escape and `O`.
    Shifted,
    // In a control sequence, whose bytes so far are all kept.
    Sequence,
    // In a control sequence with more bytes than are kept.
    Long,
}

/// Makes keys of bytes, which it takes one by one. It is seen as the state in which it stands, and takes no memory.
#[derive(Drop)]
pub struct Decoder {
    phase: Phase,
    kept: ArrayVec<u8, ROOM>,
}

impl Model for Decoder {
    ghost use Rattle.cl_keys.specs.Decoding.{State};
    ghost use Rattle.cl_keys.specs.Phases.{state_of};

    ghost Value = { State };

    ghost view = { λ d. state_of d.phase d.kept.items };
}

impl Decoder {
    /// A decoder at rest.
    pub fn new() -> Decoder
        ensures { result ≡ at_rest }
    {
        Decoder {
            phase: Phase::Rest,
            kept: ArrayVec::new(),
        }
    }

    /// Takes the next byte, and answers the key that it ends, if it ends one.
    pub fn take(&mut self, byte: u8) -> Option<Key>
        ensures state { self.new ≡ (step self.old byte).state }
        ensures key { result ≡ (step self.old byte).key }
    {
        match self.phase {
            Phase::Rest => {
                self.phase = rested(byte);
                plain_key(byte)
            }
            Phase::Escape => {
                self.kept.clear();
                self.phase = begun(byte);
                stroke_of(byte)
            }
            Phase::Shifted => {
                self.phase = Phase::Rest;
                None
            }
            Phase::Sequence => self.take_collecting(byte),
            Phase::Long => {
                self.phase = passed(byte);
                None
            }
        }
    }

    // The same in a control sequence whose bytes are all kept.
    fn take_collecting(&mut self, byte: u8) -> Option<Key>
        requires { (kept : List ℕ) × (self.old ≡ collecting kept) }
        ensures state { self.new ≡ (step self.old byte).state }
        ensures key { result ≡ (step self.old byte).key }
    {
        if is_part(byte) {
            self.phase = with_part(&mut self.kept, byte);
            return None;
        }
        self.phase = rested(byte);
        key_ended(self.kept.as_slice(), byte)
    }
}

// The phase after a byte that begins no key but an escape.
fn rested(byte: u8) -> Phase
    ensures { (kept : List ℕ) → state_of result kept ≡ rested byte }
{
    if byte == ESCAPE {
        Phase::Escape
    } else {
        Phase::Rest
    }
}

// The phase after an escape and a byte.
fn begun(byte: u8) -> Phase
    ensures { state_of result [] ≡ begun byte }
{
    match byte {
        b'[' => Phase::Sequence,
        b'O' => Phase::Shifted,
        _ => rested(byte),
    }
}

// Whether a byte stands within a control sequence.
fn is_part(byte: u8) -> bool
    ensures { result ≡ is_part byte }
{
    32 <= byte && byte <= 63
}

// The phase after a byte in a control sequence that is too long to be kept.
fn passed(byte: u8) -> Phase
    ensures { (kept : List ℕ) → state_of result kept ≡ (step passing byte).state }
{
    if is_part(byte) {
        Phase::Long
    } else {
        rested(byte)
    }
}

// Keeps one byte more of a control sequence, where there is room.
fn with_part(kept: &mut ArrayVec<u8, ROOM>, byte: u8) -> Phase
    ensures { state_of result kept.new.items ≡ with_part kept.old.items byte }
{
    if kept.is_full() {
        return Phase::Long;
    }
    kept.push(byte);
    Phase::Sequence
}

// The key of a control sequence that a byte ends.
fn key_ended(kept: &[u8], byte: u8) -> Option<Key>
    ensures { result ≡ key_ended kept.now byte }
{
    if byte == b'M' {
        Some(Key::Press(press_in(kept)?))
    } else {
        None
    }
}
