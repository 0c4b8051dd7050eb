//! A cell of a screen: its glyph and its ink.
ghost use Rattle.std.specs.Prelude.{◌≤◌};

/// One character cell: a glyph, a byte from 32 to 126, and one of eight inks, 0 to 7.
#[derive(Clone, Copy, PartialEq, Eq, Debug)]
pub struct Cell {
    pub glyph: u8,
    pub ink: u8,
    pub ghost first_glyph: { 32 ≤ glyph },
    pub ghost last_glyph: { glyph ≤ 126 },
    pub ghost last_ink: { ink ≤ 7 },
}

impl Cell {
    /// A space with ink 0.
    pub const BLANK: Cell = Cell { glyph: 32, ink: 0 };
}
