//! What the definitions of this crate say. The contracts are the laws.
ghost use Rattle.std.specs.Prelude.{◌≡◌, ◌↔◌, ◌∷◌, ℤ, [], List, false, if◌then◌else◌, true};
ghost use Rattle.cl_region.specs.Places.{IsInRange, move_rect};
ghost use Rattle.cl_region.specs.declared.rects.Shift.{Shift};
ghost use Rattle.cl_record.specs.Boxes.{items_box};
ghost use Rattle.cl_record.specs.Heads.{HeadAt};
ghost use Rattle.cl_record.specs.Labels.{LabelAt};
ghost use Rattle.cl_record.specs.Marks.{move_marks, marks_of, marks_of_all};
ghost use Rattle.cl_record.specs.Ranges.{AreInRange, IsSound, StaysInRange};
ghost use Rattle.cl_record.specs.Replays.{items_drawn};
ghost use Rattle.cl_record.specs.Shifts.{join_shifts};
ghost use Rattle.cl_record.specs.Touches.{box_holds, touched_labels, touches};
ghost use Rattle.cl_record.specs.Trees.{Tree, Trees, presentation, update};

use cl_medium::Leaf;

/// Records may be moved so far if, and only if, each item and the extent of each update, at any depth,
/// is in the range then.
pub fn moves_keep_all_in_range<L: Leaf>()
    ensures { (v : Shift) (t : Tree L) → StaysInRange L.bounds L.moved_by v t
        ↔ AreInRange L.bounds (move_marks L.moved_by v (marks_of L.moved_by t)) }
{}

/// An update may be moved so far if, and only if, its own extent is in the range then.
pub fn updates_move_by_their_extent<L: Leaf>()
    ensures { (v p : Shift) (h : HeadAt) (ts : Trees L) → IsSound L.bounds L.moved_by (update h p ts)
        → StaysInRange L.bounds L.moved_by v (update h p ts)
        ↔ IsInRange (move_rect (join_shifts p v) h.measures.extent) }
{}

/// A place touches a presentation only where the box of all its items holds the place. So it touches
/// none that is empty.
pub fn touches_lie_in_boxes<L: Leaf>()
    ensures { (x y : ℤ) (l : LabelAt) (items : List L) → touches L.bounds x y l items ≡ true
        → box_holds (items_box L.bounds items) x y ≡ true }
{}

/// A presentation is touched by what it draws, and begins before those inside it.
pub fn presentations_are_touched_by_what_they_draw<L: Leaf>()
    ensures { (x y : ℤ) (l : LabelAt) (p : Shift) (ts : Trees L)
        → touched_labels L.bounds x y (marks_of L.moved_by (presentation l p ts))
        ≡ (if touches L.bounds x y l (items_drawn (marks_of L.moved_by (presentation l p ts)))
        then l ∷ touched_labels L.bounds x y (move_marks L.moved_by p (marks_of_all L.moved_by ts))
        else touched_labels L.bounds x y (move_marks L.moved_by p (marks_of_all L.moved_by ts))) }
{}

/// Where the box of all items of records does not hold a place, the place touches no presentation among
/// these, at any depth.
pub fn nothing_is_touched_outside_of_the_box<L: Leaf>()
    ensures { (x y : ℤ) (ts : Trees L)
        → box_holds (items_box L.bounds (items_drawn (marks_of_all L.moved_by ts))) x y ≡ false
        → touched_labels L.bounds x y (marks_of_all L.moved_by ts) ≡ [] }
{}
