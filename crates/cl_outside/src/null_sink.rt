//! A sink that keeps nothing.
ghost use Rattle.std.specs.Prelude.{◌≡◌, ◌<◌, length, None};

use crate::answers::Took;
use crate::sinks::Sink;

/// A sink that takes every byte, keeps and tells none, and never fails.
#[derive(Clone, Copy, Default, Debug)]
pub struct NullSink;

impl NullSink {
    pub fn new() -> NullSink
        ensures { result ≡ record {} }
    {
        NullSink
    }
}

impl Sink for NullSink {
    ghost taken = { λ _. None };

    ghost faults = { λ _. 0 };

    fn write(&mut self, bytes: &[u8]) -> Took
        requires { 0 < length bytes.now }
        ensures { result ≡ Took.Bytes (length bytes.now) }
    {
        Took::Bytes(bytes.len())
    }
}
