//! A reader of the system as a source.
ghost use Rattle.std.specs.Prelude.{◌≡◌};

use crate::answers::Took;
use crate::sources::Source;
use crate::tallies::Tally;
use std::io::Read;
use std::marker::Model;

/// A source over a reader, as standard input. It tells the bytes that the reader tells; a file, a
/// pipe or a terminal tells none. It takes no memory.
#[derive(Drop)]
pub struct ReaderSource<R: Read + Drop> {
    reader: R,
    faults: u64,
    reads: Tally,
}

impl<R: Read + Drop> Model for ReaderSource<R> {
    ghost use Rattle.cl_outside.specs.Adapters.{Reading};

    ghost Value = { Reading };

    ghost view = { λ s. record { bytes = R.remaining s.reader; faults = s.faults; reads = s.reads.count } };
}

impl<R: Read + Drop> ReaderSource<R> {
    pub fn new(reader: R) -> ReaderSource<R>
        ensures bytes { result.bytes ≡ R.remaining reader }
        ensures faults { result.faults ≡ 0 }
        ensures reads { result.reads ≡ 0 }
    {
        ReaderSource {
            reader,
            faults: 0,
            reads: Tally::new(),
        }
    }
}

impl<R: Read + Drop> Source for ReaderSource<R> {
    ghost left = { λ s. s.bytes };

    ghost calls = { λ s. s.reads };

    ghost faults = { λ s. s.faults };

    fn read(&mut self, buf: &mut [u8]) -> Took {
        self.reads.up();
        match self.reader.read(buf) {
            Ok(n) => Took::Bytes(n),
            Err(_) => {
                self.faults = self.faults.saturating_add(1);
                Took::Failed
            }
        }
    }
}
