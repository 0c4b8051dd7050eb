//! A source in memory that never fails.
ghost use Rattle.std.specs.Prelude.{◌≡◌};

use cl_outside::{MemSource, Source, Took};
use std::alloc::Global;
use std::marker::Model;

/// A source over bytes in memory. None of its reads is to fail.
#[derive(Drop)]
pub struct SureSource {
    source: MemSource,
}

impl Model for SureSource {
    ghost use Rattle.std.specs.Prelude.{◌≡◌, []};
    ghost use Rattle.cl_program.specs.SureBytes.{SureBytes};

    ghost Value = { SureBytes };

    ghost view = { λ s. record { left = s.source.left; reads = s.source.reads } };

    ghost invariant = { λ s. s.source.plan.numbers ≡ [] };
}

impl SureSource {
    /// A source over these bytes, of which none was read.
    pub fn new(alloc: Global, bytes: Vec<u8>) -> SureSource
        ensures { result.left ≡ bytes.items }
    {
        SureSource {
            source: MemSource::new(bytes, Vec::new(alloc)),
        }
    }
}

impl Source for SureSource {
    ghost use Rattle.std.specs.Prelude.{Some};

    ghost left = { λ s. Some s.left };

    ghost calls = { λ s. s.reads };

    ghost faults = { λ _. 0 };

    fn read(&mut self, buf: &mut [u8]) -> Took {
        self.source.read(buf)
    }
}
