//! What a caller may rest on of a source.
ghost use Rattle.std.specs.Prelude.{◌≡◌, ℕ, ◌+◌, ◌<◌, List, [], Option, length};
ghost use Rattle.cl_outside.specs.Outside.{ReadTook, FailedRose};

use crate::answers::Took;

/// A source of bytes, with a count of its faults.
pub trait Source {
    // the bytes that are still to come; None: not told
    ghost left: { Self → Option (List ℕ) };

    // how often it was read
    ghost calls: { Self → ℕ };

    // how often a read failed; never falls, and stands still at 2^64 - 1
    ghost faults: { Self → ℕ };

    // the names of the references that it holds, where it only lends another one: its own first; no call
    // changes them
    ghost lent: { Self → List ℕ } = { λ _. [] };

    /// Hands over the next bytes at the front of `buf`; what stands behind them in `buf` is not said.
    fn read(&mut self, buf: &mut [u8]) -> Took
        requires { 0 < length buf.old }
        ensures lent { lent self.new ≡ lent self.old }
        ensures calls { calls self.new ≡ calls self.old + 1 }
        ensures bytes { ReadTook (left self.old) (left self.new) buf.new result }
        ensures cause { FailedRose (faults self.old) (faults self.new) result };
}
