//! Laws of what displays leave as it was. The contracts are the laws.
ghost use Rattle.std.specs.Prelude.{◌≡◌, Bool, List, ℕ, ℤ, false, true};
ghost use Rattle.cl_syntax.specs.ShapeTree.{ShapeTree, shape_trees_of};
ghost use Rattle.cl_application.specs.declared.applications.App.{App};
ghost use Rattle.cl_eval.specs.Slots.{Env, Slots};
ghost use Rattle.cl_cover.specs.Updates.{AreCovered};
ghost use Rattle.cl_eval.specs.declared.metering.Limits.{Limits};
ghost use Rattle.cl_eval.specs.Outcome.{Gives};
ghost use Rattle.cl_eval.specs.TypeMeanings.{AreTexts, TypeMeanings};
ghost use Rattle.cl_medium.specs.Items.{Item, Painted, item_bounds, item_cell, move_item};
ghost use Rattle.cl_region.specs.Places.{one_holds};
ghost use Rattle.cl_record.specs.Marks.{history_marks};
ghost use Rattle.cl_record.specs.Replays.{cell_after, items_drawn};
ghost use Rattle.cl_record.specs.Shifts.{still};
ghost use Rattle.cl_record.specs.Trees.{Tree, trees_of};
ghost use Rattle.cl_damage.specs.Agreement.{Agree};
ghost use Rattle.cl_damage.specs.Children.{items_at, list_of};
ghost use Rattle.cl_damage.specs.Touched.{touched};
ghost use Rattle.cl_display.specs.Drawings.{DrawingAt};
ghost use Rattle.cl_display.specs.Outcomes.{DrawOutcome};
ghost use Rattle.cl_display.specs.Script.{fresh, history_of};
ghost use Rattle.cl_reuse.specs.Once.{IsNamedOnce};
ghost use Rattle.cl_reuse.specs.ReadValues.{SeesReads, scene_on};
ghost use Rattle.cl_reuse.specs.Recorded.{IsFaithfulHistory};
ghost use Rattle.cl_reuse.specs.Sited.{AreApart, AreOwn};
ghost use Rattle.cl_untouched.specs.Among.{if_ended, keeps_among, touched_between, touched_by};
ghost use Rattle.cl_untouched.specs.Keeps.{keeps_of};
ghost use Rattle.cl_damage.specs.Keeps.{Keeps};
ghost use Rattle.cl_damage.specs.SameItems.{same_item};
ghost use Rattle.cl_damage.specs.NewChildren.{new_children, old_children};

/// The children of a history that a display left agree with those of the faithful old history over which it was drawn: an update that may be kept
/// where it stands holds the items that its old one does, and one that is not kept agrees with its old one inside, at every depth. The new history is
/// any that has the marks of the display.
pub fn what_is_kept_agrees_with_the_old_history()
    ensures { (limits : Limits) (app : App) (types : TypeMeanings) (slots : Slots) (forms : List ShapeTree) (env : Env)
        → AreTexts app types.presents → SeesReads app types.presents → AreCovered app → AreApart app → AreOwn app (shape_trees_of forms)
        → (old : List (Tree Item)) → IsFaithfulHistory app types old → IsNamedOnce old
        → (s : DrawingAt) (cost reach : ℕ) → (fresh limits (scene_on app slots types) forms env).outcome ≡ Gives s cost reach
        → (new : List (Tree Item)) → history_marks move_item new ≡ s.part.marks
        → Agree (new_children move_item new (keeps_of still (trees_of old) (fresh limits (scene_on app slots types) forms env).walk)) (list_of (old_children move_item old)) }
{}

/// A place that a display does not touch is painted by the same items in the same order in the old history and in the new one, and shows the same
/// cell. What is touched is told by both histories and by what may be kept.
pub fn untouched_places_show_the_same()
    ensures items { (limits : Limits) (app : App) (types : TypeMeanings) (slots : Slots) (forms : List ShapeTree) (env : Env)
        → AreTexts app types.presents → SeesReads app types.presents → AreCovered app → AreApart app → AreOwn app (shape_trees_of forms)
        → (old : List (Tree Item)) → IsFaithfulHistory app types old → IsNamedOnce old
        → (s : DrawingAt) (cost reach : ℕ) → (fresh limits (scene_on app slots types) forms env).outcome ≡ Gives s cost reach
        → (new : List (Tree Item)) → history_marks move_item new ≡ s.part.marks
        → (same : Item → Item → Bool) → ((a b : Item) → same a b ≡ true → a ≡ b) → (x y : ℤ)
        → one_holds (touched item_bounds same (old_children move_item old)
        (new_children move_item new (keeps_of still (trees_of old) (fresh limits (scene_on app slots types) forms env).walk))) x y ≡ false
        → items_at item_bounds x y (items_drawn (history_marks move_item old)) ≡ items_at item_bounds x y (items_drawn s.part.marks) }
    ensures cells { (limits : Limits) (app : App) (types : TypeMeanings) (slots : Slots) (forms : List ShapeTree) (env : Env)
        → AreTexts app types.presents → SeesReads app types.presents → AreCovered app → AreApart app → AreOwn app (shape_trees_of forms)
        → (old : List (Tree Item)) → IsFaithfulHistory app types old → IsNamedOnce old
        → (s : DrawingAt) (cost reach : ℕ) → (fresh limits (scene_on app slots types) forms env).outcome ≡ Gives s cost reach
        → (new : List (Tree Item)) → history_marks move_item new ≡ s.part.marks
        → (same : Item → Item → Bool) → ((a b : Item) → same a b ≡ true → a ≡ b) → (x y : ℤ)
        → one_holds (touched item_bounds same (old_children move_item old)
        (new_children move_item new (keeps_of still (trees_of old) (fresh limits (scene_on app slots types) forms env).walk))) x y ≡ false
        → (under : Painted) → cell_after item_cell (items_drawn (history_marks move_item old)) x y under
        ≡ cell_after item_cell (items_drawn s.part.marks) x y under }
{}

/// What is kept of an old history and what is touched where a new one takes its place are told by the marks of both: histories with the same marks keep and
/// touch the same.
pub fn marks_tell_what_is_touched()
    ensures kept { (old : List (Tree Item)) (drawn : DrawOutcome)
        → keeps_among (history_marks move_item old) drawn ≡ if_ended drawn.outcome (keeps_of still (trees_of old) drawn.walk) }
    ensures touched { (old new : List (Tree Item)) (ks : Keeps)
        → touched_between (history_marks move_item old) (history_marks move_item new) ks
        ≡ touched item_bounds same_item (old_children move_item old) (new_children move_item new ks) }
{}

/// A place that is not touched where a display takes the place of a history is painted by the same items in the same order before and after, and shows the
/// same cell, whether the display ended or trapped.
pub fn untouched_places_of_a_pane_show_the_same()
    ensures items { (limits : Limits) (app : App) (types : TypeMeanings) (slots : Slots) (forms : List ShapeTree) (env : Env)
        → AreTexts app types.presents → SeesReads app types.presents → AreCovered app → AreApart app → AreOwn app (shape_trees_of forms)
        → (old : List (Tree Item)) → IsFaithfulHistory app types old → IsNamedOnce old → (x y : ℤ)
        → one_holds (touched_by (history_marks move_item old) (fresh limits (scene_on app slots types) forms env)) x y ≡ false
        → items_at item_bounds x y (items_drawn (history_marks move_item old))
        ≡ items_at item_bounds x y (items_drawn (history_of (fresh limits (scene_on app slots types) forms env).outcome)) }
    ensures cells { (limits : Limits) (app : App) (types : TypeMeanings) (slots : Slots) (forms : List ShapeTree) (env : Env)
        → AreTexts app types.presents → SeesReads app types.presents → AreCovered app → AreApart app → AreOwn app (shape_trees_of forms)
        → (old : List (Tree Item)) → IsFaithfulHistory app types old → IsNamedOnce old → (x y : ℤ)
        → one_holds (touched_by (history_marks move_item old) (fresh limits (scene_on app slots types) forms env)) x y ≡ false
        → (under : Painted) → cell_after item_cell (items_drawn (history_marks move_item old)) x y under
        ≡ cell_after item_cell (items_drawn (history_of (fresh limits (scene_on app slots types) forms env).outcome)) x y under }
{}
