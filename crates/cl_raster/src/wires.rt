//! A device over a wire: each operation is written on a sink, as a line.
ghost use Rattle.std.specs.Prelude.{◌≡◌, ◌≤◌, false};
ghost use Rattle.cl_outside.specs.Device.{IsSpan};
ghost use Rattle.cl_outside.specs.Operations.{clears, mended, op_bytes, shows};
ghost use Rattle.cl_outside.specs.Writing.{Says};
ghost use Rattle.cl_raster.specs.Wires.{IsInStep, IsUnused, wire_picture};

use crate::joining::write_joined;
use cl_outside::{Device, Sent, Sink};
use itoa::Buffer;

/// Writes each operation whole on a sink, or the sink failed and a first part of the operation stands
/// there. A line of at most 1,024 bytes goes out in one write, where the sink takes them at once. It
/// takes no memory. Where the sink tells its bytes at all times, and nothing failed since the last
/// `clear`, it shows the picture of these bytes.
#[derive(Drop)]
pub struct WireDevice<S: Sink> {
    pub sink: S,
    pub broken: bool,
    pub cleared: bool,
    pub ghost in_step: { IsInStep (S.lent sink).told broken cleared (S.taken sink) },
}

impl<S: Sink> WireDevice<S> {
    /// A device that is not yet cleared, over a sink that took nothing yet.
    pub fn new(sink: S) -> WireDevice<S>
        requires unused { IsUnused (S.lent sink).told (S.taken sink) }
        ensures sink { result.sink ≡ sink }
        ensures whole { result.broken ≡ false }
        ensures blank { result.cleared ≡ false }
    {
        WireDevice {
            sink,
            broken: false,
            cleared: false,
        }
    }
}

impl<S: Sink> Device for WireDevice<S> {
    ghost use Rattle.cl_raster.specs.Tied.{tied_wire};

    ghost picture = { λ d. wire_picture (S.lent d.sink).told d.broken (S.taken d.sink) };

    ghost broken = { λ d. d.broken };

    ghost cleared = { λ d. d.cleared };

    ghost faults = { λ d. S.faults d.sink };

    ghost lent = { λ d. S.lent d.sink };

    ghost wire = { λ d. S.taken d.sink };

    ghost tied = { λ d. tied_wire (S.lent d.sink).told d.broken (S.taken d.sink) };

    fn clear(&mut self, width: u16, height: u16) -> Sent {
        let broken = self.broken;
        self.broken = true;
        if !write_clear(&mut self.sink, broken, width, height) {
            return Sent::Failed;
        }
        self.cleared = true;
        self.broken = false;
        Sent::Done
    }

    fn span(&mut self, x: u16, y: u16, ink: u8, glyphs: &[u8]) -> Sent {
        self.broken = true;
        if !write_span(&mut self.sink, x, y, ink, glyphs) {
            return Sent::Failed;
        }
        self.broken = false;
        Sent::Done
    }
}

// Writes the line of a `clear`, behind a line feed where the last operation broke off.
fn write_clear<S: Sink>(sink: &mut S, broken: bool, width: u16, height: u16) -> bool
    ensures lent { S.lent sink.new ≡ S.lent sink.old }
    ensures says { Says result (S.taken sink.old) (S.taken sink.new)
        (mended broken (op_bytes (clears width height))) (S.faults sink.old) (S.faults sink.new) }
    ensures later { S.faults sink.old ≤ S.faults sink.new }
{
    let mut columns = Buffer::new();
    let mut rows = Buffer::new();
    let width = columns.format(width).as_bytes();
    let height = rows.format(height).as_bytes();
    if broken {
        return write_joined(sink, &[b"\nC ", width, b" ", height, b"\n"]);
    }
    write_joined(sink, &[b"C ", width, b" ", height, b"\n"])
}

// Writes the line of a `span`.
fn write_span<S: Sink>(sink: &mut S, x: u16, y: u16, ink: u8, glyphs: &[u8]) -> bool
    ensures lent { S.lent sink.new ≡ S.lent sink.old }
    ensures says { Says result (S.taken sink.old) (S.taken sink.new)
        (op_bytes (shows x y ink glyphs.now)) (S.faults sink.old) (S.faults sink.new) }
    ensures later { S.faults sink.old ≤ S.faults sink.new }
{
    let mut columns = Buffer::new();
    let mut rows = Buffer::new();
    let mut inks = Buffer::new();
    let column = columns.format(x).as_bytes();
    let row = rows.format(y).as_bytes();
    let digit = inks.format(ink).as_bytes();
    write_joined(
        sink,
        &[b"S ", column, b" ", row, b" ", digit, b" ", glyphs, b"\n"],
    )
}
