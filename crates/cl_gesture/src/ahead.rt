//! Bytes of a stream that were read and are not answered yet.
ghost use Rattle.std.specs.Prelude.{◌≡◌, ◌+◌, ◌<◌, ◌≤◌, ◌-◌, [], length, take, drop, IfOk};
ghost use Rattle.cl_outside.specs.Outside.{ReadTook, FailedRose};
ghost use Rattle.cl_gesture.specs.Ahead.{FillTook};

use cl_outside::{Source, Took};
use std::alloc::{AllocError, Global};
use std::marker::Model;

/// How many bytes are kept ahead at most.
pub const ROOM: usize = 8192;

/// Bytes that the source handed over and that no line has taken yet, seen as their list.
#[derive(Drop)]
pub struct Ahead {
    bytes: Vec<u8>,
    start: usize,
    end: usize,
}

impl Model for Ahead {
    ghost use Rattle.std.specs.Prelude.{◌≡◌, ◌≤◌, ◌-◌, ℕ, List, take, drop, vec_len};

    ghost Value = { List ℕ };

    ghost view = { λ a. take (a.end - a.start) (drop a.start a.bytes.items) };

    ghost invariant = { λ a. (a.start ≤ a.end) × (a.end ≤ 8192) × (vec_len a.bytes ≡ 8192) };
}

impl Ahead {
    /// No bytes ahead, and room for them.
    pub fn new(alloc: Global) -> Result<Ahead, AllocError>
        ensures { IfOk result (λ a. a ≡ []) }
    {
        let bytes = vec![in alloc; 0; ROOM]?;
        Ok(Ahead {
            bytes,
            start: 0,
            end: 0,
        })
    }

    /// The bytes ahead.
    pub fn as_slice(&self) -> &[u8]
        ensures { result.now ≡ self.now }
    {
        &self.bytes.as_slice()[self.start..self.end]
    }

    /// How many bytes are ahead.
    pub fn len(&self) -> usize
        ensures { result ≡ length self.now }
    {
        self.end - self.start
    }

    /// Takes the first `count` bytes away.
    pub fn skip(&mut self, count: usize)
        requires { count ≤ length self.old }
        ensures { self.new ≡ drop count self.old }
    {
        self.start += count;
    }

    /// Takes all bytes away.
    pub fn clear(&mut self)
        ensures { self.new ≡ [] }
    {
        self.start = self.end;
    }

    /// Reads once, behind the bytes ahead.
    pub fn fill<G: Source>(&mut self, source: &mut G) -> Took
        requires { length self.old ≤ 4096 }
        ensures lent { G.lent source.new ≡ G.lent source.old }
        ensures calls { G.calls source.new ≡ G.calls source.old + 1 }
        ensures bytes { FillTook (G.left source.old) (G.left source.new) self.old self.new result }
        ensures cause { FailedRose (G.faults source.old) (G.faults source.new) result }
    {
        let took = read_behind(source, self.bytes.as_mut_slice(), self.start, self.end);
        self.end -= self.start;
        self.start = 0;
        if let Took::Bytes(count) = took {
            self.end += count;
        }
        took
    }
}

/// Moves what stands from `start` to `end` to the front, and reads once behind it.
fn read_behind<G: Source>(source: &mut G, bytes: &mut [u8], start: usize, end: usize) -> Took
    requires ordered { start ≤ end }
    requires within { end ≤ length bytes.old }
    requires room { end - start < length bytes.old }
    ensures kept { take (end - start) bytes.new ≡ take (end - start) (drop start bytes.old) }
    ensures lent { G.lent source.new ≡ G.lent source.old }
    ensures calls { G.calls source.new ≡ G.calls source.old + 1 }
    ensures bytes { ReadTook (G.left source.old) (G.left source.new)
        (drop (end - start) bytes.new) result }
    ensures cause { FailedRose (G.faults source.old) (G.faults source.new) result }
{
    bytes.copy_within(start..end, 0);
    source.read(&mut bytes[end - start..])
}
