//! A terminal over a sink: each operation is written as control sequences.
ghost use Rattle.std.specs.Prelude.{◌≡◌, ◌≤◌, None, false, length, map, take};
ghost use Rattle.cl_outside.specs.Device.{IsSpan, ClearSent, SpanSent, SentRose};
ghost use Rattle.cl_outside.specs.Operations.{clears, mended, op_bytes, shows};
ghost use Rattle.cl_outside.specs.Sending.{Sends};
ghost use Rattle.cl_outside.specs.Writing.{Says, joined};
ghost use Rattle.cl_ansi.specs.Sequences.{enter_bytes, leave_bytes, span_bytes};
ghost use Rattle.cl_ansi.specs.Terminal.{Clears, IsTelling, Writes, new_terminal, picture_of, shown_bytes};

use cl_outside::{Device, Sent, Sink, write_pieces};
use itoa::Buffer;
use std::marker::Model;

/// A terminal that is at least as large as its picture, which is what it shows of all bytes that its sink
/// took, the caller's own among them. It takes no memory, and its wire is not told. A sequence that broke off is given up by the terminal at the next one, which begins
/// with an escape.
#[derive(Drop)]
pub struct AnsiDevice<S: Sink> {
    sink: S,
    broken: bool,
    cleared: bool,
    width: u16,
    height: u16,
}

impl<S: Sink> Model for AnsiDevice<S> {
    ghost use Rattle.cl_ansi.specs.Terminal.{IsTelling, Terminal};

    ghost Value = { Terminal };

    ghost view = { λ d. record {
      told = (S.lent d.sink).told;
      taken = S.taken d.sink;
      faults = S.faults d.sink;
      broken = d.broken;
      cleared = d.cleared;
      width = d.width;
      height = d.height;
    } };

    ghost invariant = { λ d. IsTelling (S.lent d.sink).told (S.taken d.sink) };
}

impl<S: Sink> AnsiDevice<S> {
    /// A terminal that is not yet cleared. Nothing is sent.
    pub fn new(sink: S) -> AnsiDevice<S>
        requires tells { IsTelling (S.lent sink).told (S.taken sink) }
        ensures { result ≡ new_terminal (S.lent sink).told (S.taken sink) (S.faults sink) }
    {
        AnsiDevice {
            sink,
            broken: false,
            cleared: false,
            width: 1,
            height: 1,
        }
    }

    /// The sink, behind what it took.
    pub fn into_sink(self) -> S
        ensures taken { S.taken result ≡ self.taken }
        ensures faults { S.faults result ≡ self.faults }
    {
        let AnsiDevice { sink, .. } = self;
        sink
    }

    /// Whether an operation failed since it was last cleared. Then it is to be cleared before a span.
    pub fn is_broken(&self) -> bool
        ensures { result ≡ self.now.broken }
    {
        self.broken
    }

    /// Takes the terminal over: its other screen, blank, with reports of the pointer. It is to be cleared
    /// before it shows a span.
    pub fn enter(&mut self) -> Sent
        ensures { Writes self.old self.new enter_bytes result }
    {
        self.send(&[b"\x1b[?1049h\x1b[?1000h\x1b[?1006h\x1b[2J\x1b[H"])
    }

    /// Gives the terminal back: its own ink, no reports of the pointer, and its first screen.
    pub fn leave(&mut self) -> Sent
        ensures { Writes self.old self.new leave_bytes result }
    {
        self.send(&[b"\x1b[0m\x1b[?1006l\x1b[?1000l\x1b[?1049l"])
    }

    /// Sends bytes of the caller's own.
    pub fn write(&mut self, bytes: &[u8]) -> Sent
        ensures { Writes self.old self.new bytes.now result }
    {
        self.send(&[bytes])
    }

    // Sends pieces, one behind the other.
    fn send(&mut self, pieces: &[&[u8]]) -> Sent
        ensures { Writes self.old self.new (joined (map (λ p. p.now) pieces.now)) result }
    {
        if !write_pieces(&mut self.sink, pieces) {
            self.broken = true;
            return Sent::Failed;
        }
        Sent::Done
    }

    // Sends the glyphs of a span that lie in the picture.
    fn send_shown(&mut self, x: u16, y: u16, ink: u8, glyphs: &[u8]) -> Sent
        requires ink { ink ≤ 7 }
        ensures { Writes self.old self.new (shown_bytes self.old x y ink glyphs.now) result }
    {
        if !self.cleared || x >= self.width || y >= self.height {
            return Sent::Done;
        }
        self.send_span(x, y, ink, front(glyphs, self.width - x))
    }

    // Sends a span whole.
    fn send_span(&mut self, x: u16, y: u16, ink: u8, glyphs: &[u8]) -> Sent
        requires ink { ink ≤ 7 }
        ensures { Writes self.old self.new (span_bytes x y ink glyphs.now) result }
    {
        let mut rows = Buffer::new();
        let mut columns = Buffer::new();
        let mut colours = Buffer::new();
        let row = rows.format(u32::from(y) + 1).as_bytes();
        let column = columns.format(u32::from(x) + 1).as_bytes();
        let colour = if ink == 0 { 39 } else { 30 + ink };
        let colour = colours.format(colour).as_bytes();
        self.send(&[
            b"\x1b[", row, b";", column, b"H\x1b[", colour, b"m", glyphs, b"\x1b[0m",
        ])
    }
}

impl<S: Sink> Device for AnsiDevice<S> {
    ghost use Rattle.cl_outside.specs.Untied.{untied};

    ghost picture = { λ d. picture_of d };

    ghost broken = { λ d. d.broken };

    ghost cleared = { λ d. d.cleared };

    ghost faults = { λ d. d.faults };

    ghost tied = { λ d. untied None d.broken (picture_of d) };

    fn clear(&mut self, width: u16, height: u16) -> Sent
        requires columns { (1 ≤ width) × (width ≤ 512) }
        requires rows { (1 ≤ height) × (height ≤ 256) }
        ensures shows { ClearSent width height (picture_of self.new) self.new.broken
            self.new.cleared result }
        ensures sends { Sends result None None
            (mended self.old.broken (op_bytes (clears width height))) self.old.faults
            self.new.faults }
        ensures cause { SentRose self.old.faults self.new.faults result }
        ensures clears { Clears self.old self.new width height result }
    {
        match self.send(&[b"\x1b[0m\x1b[2J\x1b[H"]) {
            Sent::Done => {
                self.width = width;
                self.height = height;
                self.cleared = true;
                self.broken = false;
                Sent::Done
            }
            Sent::Failed => Sent::Failed,
        }
    }

    fn span(&mut self, x: u16, y: u16, ink: u8, glyphs: &[u8]) -> Sent
        requires whole { self.old.broken ≡ false }
        requires span { IsSpan ink glyphs.now }
        ensures cleared { self.new.cleared ≡ self.old.cleared }
        ensures shows { SpanSent self.old.cleared (picture_of self.old) (picture_of self.new) x y ink
            glyphs.now self.new.broken result }
        ensures sends { Sends result None None (op_bytes (shows x y ink glyphs.now))
            self.old.faults self.new.faults }
        ensures cause { SentRose self.old.faults self.new.faults result }
        ensures writes { Writes self.old self.new (shown_bytes self.old x y ink glyphs.now) result }
    {
        self.send_shown(x, y, ink, glyphs)
    }
}

// The first glyphs, at most so many.
fn front(glyphs: &[u8], most: u16) -> &[u8]
    ensures { result.now ≡ take most glyphs.now }
{
    &glyphs[..glyphs.len().min(usize::from(most))]
}
