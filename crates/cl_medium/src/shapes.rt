//! What is drawn in an area.
ghost use Rattle.std.specs.Prelude.{◌≡◌, ◌↔◌, IsTrue};

use cl_value::Text;

/// The way of a line.
#[derive(Clone, Copy, PartialEq, Eq, Debug)]
pub enum Direction {
    /// To the right, of the glyph `-`.
    Horizontal,
    /// Down, of the glyph `|`.
    Vertical,
}

/// What an item paints in its area. A byte outside 32 to 126 is drawn as `#`.
#[derive(PartialEq, Eq, Drop)]
pub enum LeafShape {
    /// Bytes in a row of cells, from the left end on. The text that has them is shared.
    Text(Text),
    /// One byte in one cell.
    Point(u8),
    /// A line of cells.
    Line(Direction),
    /// Corners `+`, sides `-` and `|`, and nothing inside. Where a side has one cell the corners win.
    Outline,
    /// One byte all over.
    Fill(u8),
}

impl LeafShape {
    // Whether both are the same.
    pub(crate) fn same(&self, other: &LeafShape) -> bool
        ensures { IsTrue result ↔ (self.now ≡ other.now) }
    {
        match (self, other) {
            (LeafShape::Text(a), LeafShape::Text(b)) => a == b,
            (LeafShape::Point(a), LeafShape::Point(b)) => a == b,
            (LeafShape::Line(a), LeafShape::Line(b)) => a == b,
            (LeafShape::Outline, LeafShape::Outline) => true,
            (LeafShape::Fill(a), LeafShape::Fill(b)) => a == b,
            _ => false,
        }
    }
}
