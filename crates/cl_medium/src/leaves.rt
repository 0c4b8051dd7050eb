//! What records and painting may rest on of a drawn thing.
ghost use Rattle.std.specs.Prelude.{◌≡◌, ◌↔◌, ◌+ℤ◌, pos, IsTrue, length, option_map};
ghost use Rattle.cl_region.specs.Places.{IsInRange, IsNear, move_rect};
ghost use Rattle.cl_medium.specs.Items.{AreCells, painted_of};

use cl_outside::Cell;
use cl_region::{Rect, Shift};

/// A drawn thing of a record. It keeps a place of its own; `cell_at` is told how far it stands from there.
/// The laws say that it paints in its bounds alone, and that a move moves bounds and cells and
/// changes nothing else.
pub trait Leaf: Drop {
    ghost use Rattle.std.specs.Prelude.{◌≡◌, ℤ, pos, ◌+ℤ◌, true, Option, Some};
    ghost use Rattle.cl_region.specs.Places.{holds, move_rect};
    ghost use Rattle.cl_region.specs.declared.rects.Rect.{Rect};
    ghost use Rattle.cl_region.specs.declared.rects.Shift.{Shift};
    ghost use Rattle.cl_medium.specs.Items.{Painted};

    // the rectangle that holds what it paints
    ghost bounds: { Self → Rect };
    // what it paints in a column of a row
    ghost cell: { Self → ℤ → ℤ → Option Painted };
    // the same thing elsewhere
    ghost moved_by: { Shift → Self → Self };

    /// The rectangle that holds what it paints.
    fn bounds(&self) -> Rect
        ensures value { result ≡ bounds self.now }
        ensures range { IsInRange result };

    /// What it paints in this column and row, moved by `at`; None where it paints nothing.
    fn cell_at(&self, at: Shift, x: i64, y: i64) -> Option<Cell>
        requires { IsInRange (move_rect at (bounds self.now)) }
        ensures { option_map painted_of result ≡ cell (moved_by at self.now) x y };

    /// Gives each place of a stretch of row `y`, from column `x` on, what it paints there, moved by `at`;
    /// None where it paints nothing. It takes one step for each place.
    fn put_row(&self, at: Shift, x: i64, y: i64, cells: &mut [Option<Cell>])
        requires range { IsInRange (move_rect at (bounds self.now)) }
        requires first { IsNear x }
        requires last { IsNear (x +ℤ pos (length cells.old)) }
        ensures { AreCells (cell (moved_by at self.now)) x y cells.old cells.new };

    /// Moves it.
    fn shift(&mut self, by: Shift)
        requires { IsInRange (move_rect by (bounds self.old)) }
        ensures { self.new ≡ moved_by by self.old };

    /// Whether both are the same thing at the same place, and so have the same bounds and cells.
    fn same(&self, other: &Self) -> bool
        ensures { IsTrue result ↔ (self.now ≡ other.now) };

    ghost within: { (l : Self) (x y : ℤ) (c : Painted) → cell l x y ≡ Some c
        → holds (bounds l) x y ≡ true };

    ghost moves_bounds: { (v : Shift) (l : Self) → bounds (moved_by v l) ≡ move_rect v (bounds l) };

    ghost moves_cells: { (v : Shift) (l : Self) (x y : ℤ)
        → cell (moved_by v l) (x +ℤ v.dx) (y +ℤ v.dy) ≡ cell l x y };

    ghost moves_twice: { (v w : Shift) (l : Self)
        → moved_by w (moved_by v l)
        ≡ moved_by (record { dx = v.dx +ℤ w.dx; dy = v.dy +ℤ w.dy }) l };

    ghost stays: { (l : Self) → moved_by (record { dx = pos 0; dy = pos 0 }) l ≡ l };
}
