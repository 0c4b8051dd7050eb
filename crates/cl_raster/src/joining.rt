//! Pieces that are joined before they are written, so that they go out in one write.
ghost use Rattle.std.specs.Prelude.{◌≡◌, ◌↔◌, ◌≤◌, IsTrue, length, map, take};
ghost use Rattle.cl_outside.specs.Writing.{Says, joined};

use cl_outside::{Sink, write_all, write_pieces};

/// How many bytes are joined at most.
const ROOM: usize = 1024;

/// Writes pieces, one behind the other; false where the sink failed, and then nothing more is written. They
/// go out in one write where they are at most 1,024 bytes together and the sink takes them at once, and
/// else by repeated writes. It takes no memory.
pub(crate) fn write_joined<S: Sink>(sink: &mut S, pieces: &[&[u8]]) -> bool
    ensures lent { S.lent sink.new ≡ S.lent sink.old }
    ensures says { Says result (S.taken sink.old) (S.taken sink.new)
        (joined (map (λ p. p.now) pieces.now)) (S.faults sink.old) (S.faults sink.new) }
    ensures later { S.faults sink.old ≤ S.faults sink.new }
{
    if !fits(pieces, ROOM) {
        return write_pieces(sink, pieces);
    }
    let mut line = [0; ROOM];
    let end = join(&mut line, pieces);
    write_all(sink, &line[..end])
}

// Whether the pieces have room together.
fn fits(pieces: &[&[u8]], room: usize) -> bool
    ensures { IsTrue result ↔ (length (joined (map (λ p. p.now) pieces.now)) ≤ room) }
{
    let mut left = room;
    for piece in pieces {
        if piece.len() > left {
            return false;
        }
        left -= piece.len();
    }
    true
}

// Joins the pieces at the front of the buffer, and says where they end.
fn join(buffer: &mut [u8], pieces: &[&[u8]]) -> usize
    requires room { length (joined (map (λ p. p.now) pieces.now)) ≤ length buffer.old }
    ensures front { take result buffer.new ≡ joined (map (λ p. p.now) pieces.now) }
    ensures end { result ≡ length (joined (map (λ p. p.now) pieces.now)) }
{
    let mut at = 0;
    for piece in pieces {
        let end = at + piece.len();
        buffer[at..end].copy_from_slice(piece);
        at = end;
    }
    at
}
