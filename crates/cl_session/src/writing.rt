//! Bytes that wait to be written, and how they are.
ghost use Rattle.std.specs.Prelude.{◌≡◌, ◌+◌, ◌≤◌, ◌++◌, [], length, map};
ghost use Rattle.cl_outside.specs.Writing.{Says, joined};
ghost use Rattle.cl_session.specs.Writing.{Puts};

use cl_outside::{Sink, write_all};
use std::marker::Model;

/// How many bytes wait at most before they are written.
const ROOM: usize = 8192;

/// Bytes that wait to be written, so that the replies to a gesture go out in few writes. It takes no
/// memory. Contracts see it as their list.
#[derive(Drop)]
pub struct Outgoing {
    bytes: [u8; ROOM],
    count: usize,
}

impl Model for Outgoing {
    ghost use Rattle.std.specs.Prelude.{ℕ, List, ◌≤◌, take};

    ghost Value = { List ℕ };

    ghost view = { λ o. take o.count o.bytes };

    ghost invariant = { λ o. o.count ≤ 8192 };
}

impl Outgoing {
    /// No bytes wait.
    pub fn new() -> Outgoing
        ensures { result ≡ [] }
    {
        Outgoing {
            bytes: [0; ROOM],
            count: 0,
        }
    }

    /// Lets bytes wait, or writes them where they are too many; false where the sink failed.
    pub fn put<O: Sink>(&mut self, out: &mut O, bytes: &[u8]) -> bool
        ensures lent { O.lent out.new ≡ O.lent out.old }
        ensures puts { Puts result (O.taken out.old) (O.taken out.new) (self.old ++ bytes.now)
            self.new (O.faults out.old) (O.faults out.new) }
        ensures later { O.faults out.old ≤ O.faults out.new }
    {
        if bytes.len() <= ROOM - self.count {
            self.keep(bytes);
            return true;
        }
        if !self.flush(out) {
            return false;
        }
        if bytes.len() <= ROOM {
            self.keep(bytes);
            return true;
        }
        write_all(out, bytes)
    }

    // Lets bytes wait that have room.
    fn keep(&mut self, bytes: &[u8])
        requires { length self.old + length bytes.now ≤ 8192 }
        ensures { self.new ≡ self.old ++ bytes.now }
    {
        let end = self.count + bytes.len();
        self.bytes[self.count..end].copy_from_slice(bytes);
        self.count = end;
    }

    /// Lets pieces wait, one after another.
    pub fn put_all<O: Sink>(&mut self, out: &mut O, pieces: &[&[u8]]) -> bool
        ensures lent { O.lent out.new ≡ O.lent out.old }
        ensures puts { Puts result (O.taken out.old) (O.taken out.new)
            (self.old ++ joined (map (λ p. p.now) pieces.now)) self.new (O.faults out.old)
            (O.faults out.new) }
        ensures later { O.faults out.old ≤ O.faults out.new }
    {
        for piece in pieces {
            if !self.put(out, piece) {
                return false;
            }
        }
        true
    }

    /// Writes all that waits; false where the sink failed, and then what was not written is lost.
    pub fn flush<O: Sink>(&mut self, out: &mut O) -> bool
        ensures lent { O.lent out.new ≡ O.lent out.old }
        ensures says { Says result (O.taken out.old) (O.taken out.new) self.old (O.faults out.old)
            (O.faults out.new) }
        ensures none { self.new ≡ [] }
        ensures later { O.faults out.old ≤ O.faults out.new }
    {
        let done = write_all(out, &self.bytes[..self.count]);
        self.count = 0;
        done
    }
}
