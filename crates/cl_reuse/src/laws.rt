//! What the definitions of this crate say. The contracts are the laws.
ghost use Rattle.std.specs.Prelude.{◌≡◌, ◌+◌, ◌-◌, ◌≤◌, IfSome, List, [], length, max, true, ℕ};
ghost use Rattle.cl_value.specs.Data.{Data};
ghost use Rattle.cl_syntax.specs.ShapeTree.{ShapeTree, ShapeTrees, shape_trees_of};
ghost use Rattle.cl_application.specs.App.{forms_of};
ghost use Rattle.cl_application.specs.declared.applications.App.{App};
ghost use Rattle.cl_application.specs.declared.declarations.PaneDecl.{PaneDecl};
ghost use Rattle.cl_eval.specs.Slots.{Env, Slots};
ghost use Rattle.cl_cover.specs.Updates.{AreCovered};
ghost use Rattle.cl_eval.specs.declared.metering.Limits.{Limits};
ghost use Rattle.cl_eval.specs.Outcome.{Gives, cost_of};
ghost use Rattle.cl_eval.specs.TypeMeanings.{AreTexts, TypeMeanings};
ghost use Rattle.cl_medium.specs.Ambients.{AmbientAt};
ghost use Rattle.cl_medium.specs.Items.{Item, item_bounds, move_item};
ghost use Rattle.cl_region.specs.Places.{IsInRange, move_rect};
ghost use Rattle.cl_region.specs.declared.rects.Shift.{Shift};
ghost use Rattle.cl_record.specs.Counts.{count_of};
ghost use Rattle.cl_record.specs.Heads.{HeadAt, move_head};
ghost use Rattle.cl_record.specs.Marks.{Mark, history_marks, move_marks};
ghost use Rattle.cl_record.specs.Ranges.{AreSound};
ghost use Rattle.cl_record.specs.Trees.{Tree, move_tree, trees_of};
ghost use Rattle.cl_display.specs.Drawings.{DrawingAt};
ghost use Rattle.cl_display.specs.Fresh.{Allowance, Scene, bodies_on, closes, draws, draws_body, in_order};
ghost use Rattle.cl_display.specs.Outcomes.{DrawOutcome};
ghost use Rattle.cl_display.specs.Script.{fresh, script};
ghost use Rattle.cl_display.specs.Updates.{KeyAt, leave_update, opening_at};
ghost use Rattle.cl_display.specs.Walks.{OpeningAt};
ghost use Rattle.cl_reuse.specs.Bodies.{body_from, motion_between};
ghost use Rattle.cl_reuse.specs.Keeping.{EndsAs, kept_head, kept_part, may_keep, shift_at};
ghost use Rattle.cl_reuse.specs.Kept.{IsReport, KeptAt, ReportAt, costs, count_moved, count_still, items_kept, kept, report_of, work};
ghost use Rattle.cl_reuse.specs.Once.{IsNamedOnce, OpensOnce};
ghost use Rattle.cl_reuse.specs.Motions.{FitsThere, Motion, move_drawing};
ghost use Rattle.cl_reuse.specs.ReadValues.{AgreeOnForms, SeesReads, scene_on};
ghost use Rattle.cl_reuse.specs.Recorded.{HasFaithfulHistory, IsFaithful, IsFaithfulHistory, IsRecorded};
ghost use Rattle.cl_reuse.specs.Records.{kept_among};
ghost use Rattle.cl_reuse.specs.Sited.{AreApart, AreOwn, HoldCache, IsUpdateOf, Sited};

/// What display forms draw depends on the values at the paths that they read alone: where each has the same value in both, or none, they come
/// from one drawing to the same end or trap, cost and reach, and they open the same updates on the way.
pub fn read_values_alone_matter_to_displays()
    ensures { (depth : ℕ) (allowed : Allowance) (level : ℕ) (app : App) (types : TypeMeanings) (forms : ShapeTrees)
        (slots : Slots) (env : Env) (other_slots : Slots) (other_env : Env)
        → SeesReads app types.presents → AgreeOnForms app forms slots env other_slots other_env → (s : DrawingAt) (cost deepest : ℕ)
        → in_order (draws depth allowed (scene_on app slots types)) level env forms s cost deepest
        ≡ in_order (draws depth allowed (scene_on app other_slots types)) level other_env forms s cost deepest }
{}

/// Forms that end without a trap from some drawing, end from that drawing moved, with the end moved, the same cost and the same reach,
/// where the end fits there: its cost, reach and weight are allowed, its extent, moved, is in the range, and a margin and an origin that
/// were used are moved as the cursor is. So does a body from elsewhere in the same ink, where the paths that it reads have the same
/// values. Only the end of the first is asked for all this, and a margin and an origin that were not used may stand anywhere.
pub fn a_body_moved_is_the_body_drawn_anew()
    ensures forms { (m : Motion) (left more : ℕ) (allowed wider : Allowance) (scene : Scene) → AreTexts scene.app scene.types.presents
        → (level : ℕ) (env : Env) (forms : ShapeTrees) (s end : DrawingAt) (cost deepest c d : ℕ)
        → (in_order (draws left allowed scene) level env forms s cost deepest).outcome ≡ Gives end c d
        → c ≤ wider.budget → d ≤ level + more → FitsThere m wider.weight end
        → (in_order (draws more wider scene) level env forms (move_drawing m s) cost deepest).outcome ≡ Gives (move_drawing m end) c d }
    ensures bodies { (depth more : ℕ) (allowed wider : Allowance) (app : App) (types : TypeMeanings) (body : ShapeTrees)
        (slots : Slots) (env : Env) (other_slots : Slots) (other_env : Env) (a b : AmbientAt)
        → AreTexts app types.presents → SeesReads app types.presents
        → AgreeOnForms app body slots env other_slots other_env → b.ink ≡ a.ink → (end : DrawingAt) (cost reach : ℕ)
        → (body_from depth allowed (scene_on app slots types) env body a).outcome ≡ Gives end cost reach
        → cost ≤ wider.budget → reach ≤ more → FitsThere (motion_between a b) wider.weight end
        → (body_from more wider (scene_on app other_slots types) other_env body b).outcome
        ≡ Gives (move_drawing (motion_between a b) end) cost reach }
{}

/// A history without records is faithful, and what is faithful stays so where it is moved: nothing is asked of the place of a branch.
pub fn moved_records_stay_faithful()
    ensures none { (app : App) (types : TypeMeanings) → IsFaithfulHistory app types [] }
    ensures moved { (app : App) (types : TypeMeanings) (v : Shift) (t : Tree Item)
        → IsFaithful app types t → IsFaithful app types (move_tree move_item v t) }
{}

/// Whether a history is faithful is told by its marks, where it holds together: a branch stands wherever its records were put together, and what
/// it holds may be moved the other way. So a history with the marks of a faithful one is faithful, and one with the marks that a display leaves,
/// through a trap too. What an update says of itself and its marks are recorded wherever they are moved within the range of coordinates, since
/// its body may be drawn there.
pub fn faithfulness_is_told_by_the_marks()
    ensures histories { (app : App) (types : TypeMeanings) → AreTexts app types.presents → (a b : List (Tree Item))
        → history_marks move_item a ≡ history_marks move_item b → AreSound item_bounds move_item (trees_of b)
        → IsFaithfulHistory app types a → IsFaithfulHistory app types b }
    ensures displays { (limits : Limits) (app : App) (types : TypeMeanings) (slots : Slots) (forms : List ShapeTree) (env : Env)
        → AreTexts app types.presents → AreOwn app (shape_trees_of forms) → (b : List (Tree Item)) → AreSound item_bounds move_item (trees_of b)
        → history_marks move_item b ≡ script limits (scene_on app slots types) forms env → IsFaithfulHistory app types b }
    ensures updates { (app : App) (types : TypeMeanings) → AreTexts app types.presents
        → (v : Shift) (h : HeadAt) (inside : List (Mark Item)) (values : List Data) → IsRecorded app types h inside values
        → IsInRange (move_rect v h.measures.extent) → IsRecorded app types (move_head v h) (move_marks move_item v inside) values }
{}

/// Where an old update of faithful records may be kept at an opening of its site, the body that would be drawn there ends as the update says
/// of itself, moved from the old start to the new one, and draws the old marks, moved. So its records may stand for the body, unlooked at.
/// The second clause says that it is this body that an update draws which is opened, and the third what the display then goes on from: it is
/// given by the old head, the old marks and the opening.
pub fn a_kept_update_ends_as_recorded()
    ensures body { (app : App) (types : TypeMeanings)
        → AreTexts app types.presents → SeesReads app types.presents → AreCovered app → AreApart app
        → (h : HeadAt) (inside : List (Mark Item)) (o : OpeningAt) → IfSome h.cache (IsRecorded app types h inside) → may_keep h o ≡ true
        → (u : Sited) → IsUpdateOf app u → u.site ≡ h.site → (slots : Slots) (env : Env) → IfSome o.cache (HoldCache app slots env u.cache)
        → EndsAs h inside (shift_at h o) o.ambient
        (body_from o.depth (record { budget = o.budget; weight = o.weight }) (scene_on app slots types) env u.body o.ambient).outcome }
    ensures opened { (allowed : Allowance) (depth level : ℕ) (scene : Scene) (env : Env) (body : ShapeTrees) (key : KeyAt) (s : DrawingAt) (cost deepest : ℕ)
        (o : OpeningAt) → o ≡ opening_at key s (allowed.budget - cost) (allowed.weight - s.weight) depth
        → draws_body allowed (bodies_on depth scene) level env body key s cost deepest
        ≡ closes key level s o (body_from o.depth (record { budget = o.budget; weight = o.weight }) scene env body o.ambient) cost deepest }
    ensures joined { (h : HeadAt) (inside : List (Mark Item)) (v : Shift) (key : KeyAt) (level : ℕ) (s : DrawingAt) (o : OpeningAt) (b : DrawOutcome)
        (cost deepest : ℕ) → EndsAs h inside v s.ambient b.outcome
        → (closes key level s o b cost deepest).outcome
        ≡ Gives (leave_update (kept_head v key h) (kept_part v h inside) s) (cost + h.measures.cost) (max deepest (level + h.measures.reach)) }
{}

/// The history of a display is faithful: its marks are those of records each of which is recorded as its body was drawn. The updates of the
/// forms of a pane stand in a display of the application, as this asks.
pub fn displays_are_faithful()
    ensures drawn { (limits : Limits) (app : App) (types : TypeMeanings) (slots : Slots) (forms : List ShapeTree) (env : Env) → AreOwn app (shape_trees_of forms)
        → (s : DrawingAt) (cost reach : ℕ) → (fresh limits (scene_on app slots types) forms env).outcome ≡ Gives s cost reach
        → HasFaithfulHistory app types s.part.marks }
    ensures panes { (app : App) (pane : PaneDecl) → AreOwn app (shape_trees_of (forms_of pane app)) }
{}

/// No level of the history that a display leaves has two updates of one site and id, however its records are put together: so has none whose
/// marks are those of the display, through a trap too. A level is what a history or an update holds, with what the presentations in it hold.
/// So an update that is found by its site and id is the only one of its level.
pub fn histories_name_updates_once()
    ensures none { IsNamedOnce [] }
    ensures marks { (a b : List (Tree Item)) → history_marks move_item a ≡ history_marks move_item b → IsNamedOnce a → IsNamedOnce b }
    ensures drawn { (limits : Limits) (app : App) (types : TypeMeanings) (slots : Slots) (forms : List ShapeTree) (env : Env)
        → AreOwn app (shape_trees_of forms) → (b : List (Tree Item))
        → history_marks move_item b ≡ script limits (scene_on app slots types) forms env → IsNamedOnce b }
{}

/// Over no old records nothing is kept. Over faithful ones the costs of what is kept do not pass the cost of the display, up to its trap where
/// it traps: its work and these are together its cost. What is kept stands where it stood or is moved.
pub fn what_is_kept_costs_no_more_than_the_display()
    ensures none { (o : DrawOutcome) → kept [] o ≡ [] }
    ensures pays { (limits : Limits) (app : App) (types : TypeMeanings) (slots : Slots) (forms : List ShapeTree) (env : Env)
        → AreTexts app types.presents → SeesReads app types.presents → AreCovered app → AreApart app → AreOwn app (shape_trees_of forms)
        → (old : List (Tree Item)) → IsFaithfulHistory app types old
        → costs (kept old (fresh limits (scene_on app slots types) forms env)) ≤ cost_of (fresh limits (scene_on app slots types) forms env).outcome }
    ensures work { (limits : Limits) (app : App) (types : TypeMeanings) (slots : Slots) (forms : List ShapeTree) (env : Env)
        → AreTexts app types.presents → SeesReads app types.presents → AreCovered app → AreApart app → AreOwn app (shape_trees_of forms)
        → (old : List (Tree Item)) → IsFaithfulHistory app types old → (o : DrawOutcome) → o ≡ fresh limits (scene_on app slots types) forms env
        → work old o + costs (kept old o) ≡ cost_of o.outcome }
    ensures counts { (ks : List KeptAt) → count_still ks + count_moved ks ≡ length ks }
{}

/// What is kept of an old history is told by its marks: the records that its marks tell, each branch of which stands at no place of its own, are
/// kept where those of the history are, and as those. So two histories with the same marks keep the same.
pub fn what_is_kept_is_told_by_the_marks()
    ensures { (old : List (Tree Item)) (o : DrawOutcome) → kept_among (history_marks move_item old) o ≡ kept old o }
{}

/// A display that ended has exactly one report over a faithful old history: the items of what is kept are no more than those that it drew, nor
/// than those of the old history, so what is left of each is a number. The first holds since what is kept is what a body would draw at its
/// opening, and the second since no level of a display opens two updates of one site and id, so that no old update is kept twice.
pub fn reports_add_up()
    ensures once { (limits : Limits) (scene : Scene) (forms : List ShapeTree) (env : Env) → OpensOnce (fresh limits scene forms env).walk }
    ensures gone { (old : List (Tree Item)) (o : DrawOutcome) → OpensOnce o.walk → items_kept (kept old o) ≤ count_of (history_marks move_item old) }
    ensures new { (limits : Limits) (app : App) (types : TypeMeanings) (slots : Slots) (forms : List ShapeTree) (env : Env)
        → AreTexts app types.presents → SeesReads app types.presents → AreCovered app → AreApart app → AreOwn app (shape_trees_of forms)
        → (old : List (Tree Item)) → IsFaithfulHistory app types old
        → (s : DrawingAt) (cost reach : ℕ) → (fresh limits (scene_on app slots types) forms env).outcome ≡ Gives s cost reach
        → items_kept (kept old (fresh limits (scene_on app slots types) forms env)) ≤ count_of s.part.marks }
    ensures report { (limits : Limits) (app : App) (types : TypeMeanings) (slots : Slots) (forms : List ShapeTree) (env : Env)
        → AreTexts app types.presents → SeesReads app types.presents → AreCovered app → AreApart app → AreOwn app (shape_trees_of forms)
        → (old : List (Tree Item)) → IsFaithfulHistory app types old
        → (s : DrawingAt) (cost reach : ℕ) → (fresh limits (scene_on app slots types) forms env).outcome ≡ Gives s cost reach
        → IsReport (report_of old (fresh limits (scene_on app slots types) forms env) s.part.marks) old
        (fresh limits (scene_on app slots types) forms env) s.part.marks }
    ensures only { (r : ReportAt) (old : List (Tree Item)) (o : DrawOutcome) (marks : List (Mark Item)) → IsReport r old o marks → r ≡ report_of old o marks }
{}
