//! The greatest numbers of bytes that the writes to come take.
ghost use Rattle.std.specs.Prelude.{◌≡◌, ℕ, ◌+◌, ◌≤◌, ◌<◌, drop};
ghost use Rattle.cl_outside.specs.Memory.{AllPositive, next_piece, later_pieces};

use std::marker::Model;

// The greatest numbers of bytes that the writes to come take.
#[derive(Drop)]
pub(crate) struct Pieces {
    sizes: Vec<usize>,
    at: usize,
}

impl Model for Pieces {
    ghost use Rattle.std.specs.Prelude.{List, ℕ, drop, length, ◌≤◌};
    ghost use Rattle.cl_outside.specs.Memory.{AllPositive};

    ghost Value = { List ℕ };

    ghost view = { λ p. drop p.at p.sizes.items };

    ghost invariant = { λ p. (p.at ≤ length p.sizes.items) × AllPositive p.sizes.items };
}

impl Pieces {
    pub(crate) fn new(sizes: Vec<usize>) -> Pieces
        requires { AllPositive sizes.items }
        ensures { result ≡ sizes.items }
    {
        Pieces { sizes, at: 0 }
    }

    // How many of so many bytes the next write takes; the piece is used up.
    pub(crate) fn next(&mut self, offered: usize) -> usize
        requires { 0 < offered }
        ensures amount { result ≡ next_piece self.old offered }
        ensures some { 0 < result }
        ensures within { result ≤ offered }
        ensures later { self.new ≡ later_pieces self.old }
    {
        if self.at == self.sizes.len() {
            return offered;
        }
        let size = self.sizes[self.at];
        self.at += 1;
        size.min(offered)
    }
}
