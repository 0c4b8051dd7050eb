//! Bytes that are handed over into a buffer.
ghost use Rattle.std.specs.Prelude.{◌+◌, ◌≤◌, ◌<◌, length, drop, Some};
ghost use Rattle.cl_outside.specs.Outside.{ReadTook};
ghost use Rattle.cl_outside.specs.declared.answers.Took.{Took};
ghost use Rattle.cl_outside.specs.Memory.{ReadsAll};

// Copies as much as there is room for, and says how much that is.
pub(crate) fn hand_over(content: &[u8], at: usize, buf: &mut [u8]) -> usize
    requires room { 0 < length buf.old }
    requires within { at ≤ length content.now }
    ensures within { at + result ≤ length content.now }
    ensures bytes { ReadTook (Some (drop at content.now)) (Some (drop (at + result) content.now))
        buf.new (Took.Bytes result) }
    ensures amount { ReadsAll (drop at content.now) buf.new (Took.Bytes result) }
{
    let rest = &content[at..];
    let n = rest.len().min(buf.len());
    buf[..n].copy_from_slice(&rest[..n]);
    n
}
