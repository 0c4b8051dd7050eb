//! Laws of the touched places. The contracts are the laws.
ghost use Rattle.std.specs.Prelude.{◌≡◌, Bool, true, false, ℤ, []};
ghost use Rattle.cl_region.specs.Places.{one_holds};
ghost use Rattle.cl_region.specs.declared.rects.Shift.{Shift};
ghost use Rattle.cl_medium.specs.Items.{Painted};
ghost use Rattle.cl_record.specs.Marks.{marks_of_all, move_marks};
ghost use Rattle.cl_record.specs.Replays.{cell_after, items_drawn};
ghost use Rattle.cl_record.specs.Trees.{Trees};
ghost use Rattle.cl_damage.specs.Agreement.{Agree, AreEqual};
ghost use Rattle.cl_damage.specs.Children.{Children, children_before, items_at, items_in, list_of, none};
ghost use Rattle.cl_damage.specs.Touched.{touched};

use cl_medium::Leaf;

/// A place that is not touched is painted by the same items in the same order in the old records and in the new ones, so it shows the same
/// cell, where updates that are kept in place hold the same items. Nothing else is asked of what is kept, and of items no more than that those which count as the
/// same are equal.
pub fn places_that_are_not_touched_show_the_same<L: Leaf>()
    ensures items { (same : L → L → Bool) → ((a b : L) → same a b ≡ true → a ≡ b) → (old new : Children L) → Agree new (list_of old)
        → (x y : ℤ) → one_holds (touched L.bounds same old new) x y ≡ false
        → items_at L.bounds x y (items_in old) ≡ items_at L.bounds x y (items_in new) }
    ensures cells { (same : L → L → Bool) → ((a b : L) → same a b ≡ true → a ≡ b) → (old new : Children L) → Agree new (list_of old)
        → (x y : ℤ) → one_holds (touched L.bounds same old new) x y ≡ false
        → (under : Painted) → cell_after L.cell (items_in old) x y under ≡ cell_after L.cell (items_in new) x y under }
{}

/// Where the old children and the new ones are equal, one by one, nothing is touched.
pub fn equal_children_touch_nothing<L: Leaf>()
    ensures { (same : L → L → Bool) (old new : Children L) → AreEqual same (list_of old) (list_of new) → touched L.bounds same old new ≡ [] }
{}

/// The children that records are hold the items that the records draw, at the places where these are drawn.
pub fn children_hold_what_records_draw<L: Leaf>()
    ensures { (at : Shift) (ts : Trees L) → items_in (children_before L.moved_by at ts none)
        ≡ items_drawn (move_marks L.moved_by at (marks_of_all L.moved_by ts)) }
{}
