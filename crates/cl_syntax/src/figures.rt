//! The figures that drawing forms draw.
/// What a drawing form draws, from the origin on. X and Y are its left column and its top row there.
#[derive(Clone, Copy, PartialEq, Eq, Debug)]
pub enum Figure {
    /// `(draw-point X Y TEXT)`: the one byte of the text in one cell.
    Point,
    /// `(draw-hline X Y LENGTH)`: to the right.
    HorizontalLine,
    /// `(draw-vline X Y LENGTH)`: down.
    VerticalLine,
    /// `(draw-box X Y WIDTH HEIGHT)`: its outline.
    Outline,
    /// `(fill-box X Y WIDTH HEIGHT TEXT)`: the one byte of the text all over it.
    Filled,
}
