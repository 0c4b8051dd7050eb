//! Counts that proofs alone see.
ghost use Rattle.std.specs.Prelude.{◌≡◌, ℕ, ◌+◌};

use std::marker::Model;

/// A number that proofs alone see; it takes no memory.
#[derive(Drop)]
pub(crate) struct Tally {
    pub ghost count: { ℕ },
}

impl Model for Tally {
    ghost use base.Fml.{ftrue};

    ghost also_owns = { λ _. ftrue };
}

impl Tally {
    /// Nothing counted.
    pub(crate) fn new() -> Tally
        ensures { result.count ≡ 0 }
    {
        Tally {}
    }

    /// Counts one more.
    pub(crate) fn up(&mut self)
        ensures { self.new.count ≡ self.old.count + 1 }
    {}
}
