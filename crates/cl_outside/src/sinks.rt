//! What a caller may rest on of a sink.
ghost use Rattle.std.specs.Prelude.{◌≡◌, ℕ, ◌<◌, List, Option, length};
ghost use Rattle.cl_outside.specs.Lent.{Lent, nothing_lent};
ghost use Rattle.cl_outside.specs.Outside.{WriteTook, FailedRose};

use crate::answers::Took;

/// A sink of bytes, with a count of its faults.
pub trait Sink {
    // the bytes that were taken so far; None: not told
    ghost taken: { Self → Option (List ℕ) };

    // how often a write failed; never falls, and stands still at 2^64 - 1
    ghost faults: { Self → ℕ };

    // whether it tells its bytes at all times, and what one that lends a place keeps of that; no call
    // changes it
    ghost lent: { Self → Lent } = { λ _. nothing_lent };

    /// Takes bytes from the front of `bytes`, at least one.
    fn write(&mut self, bytes: &[u8]) -> Took
        requires { 0 < length bytes.now }
        ensures lent { lent self.new ≡ lent self.old }
        ensures bytes { WriteTook (taken self.old) (taken self.new) bytes.now result }
        ensures cause { FailedRose (faults self.old) (faults self.new) result };
}
