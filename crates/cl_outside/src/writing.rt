//! Bytes that are written whole, by repeated writes.
ghost use Rattle.std.specs.Prelude.{◌≡◌, ◌≤◌, map};
ghost use Rattle.cl_outside.specs.Writing.{Says, joined};

use crate::answers::Took;
use crate::sinks::Sink;

/// Writes bytes by repeated writes; false where the sink failed, and then at least one byte is lost. It
/// takes no memory.
pub fn write_all<O: Sink>(out: &mut O, bytes: &[u8]) -> bool
    ensures lent { O.lent out.new ≡ O.lent out.old }
    ensures says { Says result (O.taken out.old) (O.taken out.new) bytes.now (O.faults out.old)
        (O.faults out.new) }
    ensures later { O.faults out.old ≤ O.faults out.new }
{
    let mut at = 0;
    while at < bytes.len() {
        match out.write(&bytes[at..]) {
            Took::Bytes(count) => at += count,
            Took::Failed => return false,
        }
    }
    true
}

/// Writes pieces, one behind the other; false where the sink failed, and then nothing more is written. It
/// takes no memory.
pub fn write_pieces<O: Sink>(out: &mut O, pieces: &[&[u8]]) -> bool
    ensures lent { O.lent out.new ≡ O.lent out.old }
    ensures says { Says result (O.taken out.old) (O.taken out.new)
        (joined (map (λ p. p.now) pieces.now)) (O.faults out.old) (O.faults out.new) }
    ensures later { O.faults out.old ≤ O.faults out.new }
{
    for piece in pieces {
        if !write_all(out, piece) {
            return false;
        }
    }
    true
}
