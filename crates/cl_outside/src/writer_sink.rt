//! A writer of the system as a sink.
ghost use Rattle.std.specs.Prelude.{◌≡◌};

use crate::answers::Took;
use crate::sinks::Sink;
use std::io::Write;
use std::marker::Model;

/// A sink over a writer, as standard output. It tells the bytes that the writer tells; a file, a
/// pipe or a terminal tells none. A write that takes nothing is a fault.
#[derive(Drop)]
pub struct WriterSink<W: Write + Drop> {
    writer: W,
    faults: u64,
}

impl<W: Write + Drop> Model for WriterSink<W> {
    ghost use Rattle.cl_outside.specs.Adapters.{Adapter};

    ghost Value = { Adapter };

    ghost view = { λ s. record { bytes = W.contents s.writer; faults = s.faults } };
}

impl<W: Write + Drop> WriterSink<W> {
    pub fn new(writer: W) -> WriterSink<W>
        ensures bytes { result.bytes ≡ W.contents writer }
        ensures faults { result.faults ≡ 0 }
    {
        WriterSink { writer, faults: 0 }
    }
}

impl<W: Write + Drop> Sink for WriterSink<W> {
    ghost taken = { λ s. s.bytes };

    ghost faults = { λ s. s.faults };

    fn write(&mut self, bytes: &[u8]) -> Took {
        match self.writer.write(bytes) {
            Ok(n) if n > 0 => Took::Bytes(n),
            _ => {
                self.faults = self.faults.saturating_add(1);
                Took::Failed
            }
        }
    }
}
