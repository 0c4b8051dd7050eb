//! What records are painted on.
ghost use Rattle.cl_region.specs.Places.{IsInRange, move_rect};
ghost use Rattle.std.specs.Prelude.{◌∷◌, []};
ghost use Rattle.cl_record.specs.Replays.{Paints};

use cl_medium::Leaf;
use cl_region::Shift;

/// Cells in columns and rows, of which it may show some alone. It may hold other things beside its
/// cells, as a reference to a larger screen: what painting leaves of these is its own to say.
pub trait Canvas<L: Leaf> {
    ghost use Rattle.std.specs.Prelude.{ℤ, Bool};
    ghost use Rattle.cl_medium.specs.Items.{Painted};

    // whether it shows a column of a row
    ghost shows: { Self → ℤ → ℤ → Bool };
    // the cell there
    ghost cell: { Self → ℤ → ℤ → Painted };
    // what any number of calls leaves of one canvas in another one
    ghost keeps: { Self → Self → Type 0 };

    /// Gives each place that it shows, and that the leaf, moved by `at`, paints, the leaf's cell.
    fn paint(&mut self, leaf: &L, at: Shift)
        requires { IsInRange (move_rect at (L.bounds leaf.now)) }
        ensures { Paints shows cell keeps L.cell self.old self.new (L.moved_by at leaf.now ∷ []) };

    ghost keeps_itself: { (canvas : Self) → keeps canvas canvas };

    ghost keeps_through: { (first second third : Self) → keeps first second → keeps second third
        → keeps first third };
}
