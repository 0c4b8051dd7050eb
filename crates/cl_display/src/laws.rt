//! What the definitions of this crate say. The contracts are the laws.
ghost use Rattle.std.specs.Prelude.{◌≡◌, ◌+◌, ◌≤◌, ◌↔◌, ◌&&◌, ◌||◌, false, ℕ, ℤ, pos, List, [], ◌∷◌, Err};
ghost use Rattle.cl_value.specs.Data as value;
ghost use Rattle.cl_value.specs.Data.{Data, order_of};
ghost use Rattle.cl_syntax.specs.ExprTree.{ExprTree, ExprTrees};
ghost use Rattle.cl_syntax.specs.ShapeTree as shape;
ghost use Rattle.cl_syntax.specs.ShapeTree.{ShapeTree, ShapeTrees};
ghost use Rattle.cl_syntax.specs.declared.figures.Figure.{Figure};
ghost use Rattle.cl_syntax.specs.declared.figures.Figure.TheVariants as figure;
ghost use Rattle.cl_eval.specs.declared.metering.Limits.{Limits};
ghost use Rattle.cl_eval.specs.Meaning.{Go};
ghost use Rattle.cl_eval.specs.Outcome.{Gives};
ghost use Rattle.cl_eval.specs.Slots.{Env};
ghost use Rattle.cl_eval.specs.TypeMeanings.{AreTexts};
ghost use Rattle.cl_medium.specs.Drawing.{shape_area, point_leaf, hline_leaf, vline_leaf, box_leaf, fill_leaf};
ghost use Rattle.cl_record.specs.Replays.{items_drawn};
ghost use Rattle.cl_display.specs.Drawings.{DrawingAt, cursor_box};
ghost use Rattle.cl_display.specs.Figures.{IsFigure, draw_figure, draw_shape};
ghost use Rattle.cl_display.specs.Settings.{enter_room};
ghost use Rattle.cl_display.specs.Fresh.{Allowance, Bodies, Draws, Scene, draws, in_order, shape_parts};
ghost use Rattle.cl_display.specs.Presentations.{Texts};
ghost use Rattle.cl_display.specs.Script.{fresh};
ghost use Rattle.std.specs.Ordering.{is_eq};
ghost use Rattle.cl_syntax.specs.declared.sites.Site.{Site};
ghost use Rattle.cl_display.specs.Siblings.{Siblings, is_taken, note, same_site};
ghost use Rattle.cl_display.specs.Sums.{AddsUp, AreMembers, Holds, HoldsAll, lowest_of};
ghost use Rattle.cl_display.specs.Uses.{EndsWith, HasUsedMargin, IsPlain, NoBodyUses, NoneUses, UsesMargin, UsesNeither, UsesOrigin};

/// Forms that end without a trap under some limits, end so under all limits that their cost, their reach and the weight at their
/// end do not pass, with the same drawing, cost and reach, where the texts of values do so. So does a display.
pub fn limits_can_be_wider()
    ensures forms { (left more : ℕ) (allowed wider : Allowance) (scene : Scene) → AreTexts scene.app scene.types.presents
        → (level : ℕ) (env : Env) (forms : ShapeTrees) (s end : DrawingAt) (cost deepest c d : ℕ)
        → (in_order (draws left allowed scene) level env forms s cost deepest).outcome ≡ Gives end c d
        → c ≤ wider.budget → d ≤ level + more → end.weight ≤ wider.weight
        → (in_order (draws more wider scene) level env forms s cost deepest).outcome ≡ Gives end c d }
    ensures display { (limits wider : Limits) (scene : Scene) → AreTexts scene.app scene.types.presents
        → (forms : List ShapeTree) (env : Env) (s : DrawingAt) (cost reach : ℕ)
        → (fresh limits scene forms env).outcome ≡ Gives s cost reach → cost ≤ wider.budget → reach ≤ wider.depth
        → (fresh wider scene forms env).outcome ≡ Gives s cost reach }
{}

/// A display that ends without a trap weighs what its marks weigh together, no more than 1,000,000; its lowest end is that of
/// the lowest item; and it draws at most 1,000,000 items.
pub fn displays_add_up()
    ensures { (limits : Limits) (scene : Scene) (forms : List ShapeTree) (env : Env) (s : DrawingAt) (cost reach : ℕ)
        → (fresh limits scene forms env).outcome ≡ Gives s cost reach → AddsUp s }
{}

/// Each object that a display presents is a member of the type by which it is presented.
pub fn what_is_presented_is_a_member()
    ensures { (limits : Limits) (scene : Scene) (forms : List ShapeTree) (env : Env) (s : DrawingAt) (cost reach : ℕ)
        → (fresh limits scene forms env).outcome ≡ Gives s cost reach → AreMembers scene.types.holds s.part.marks }
{}

/// A room ends at the lowest end of the items that its body draws.
pub fn rooms_end_below_their_items()
    ensures { (left : ℕ) (allowed : Allowance) (scene : Scene) (level : ℕ) (env : Env) (body : ShapeTrees) (s end : DrawingAt) (cost deepest c d : ℕ)
        → (in_order (draws left allowed scene) level env body (enter_room s) cost deepest).outcome ≡ Gives end c d
        → end.part.lowest ≡ lowest_of (items_drawn end.part.marks) }
{}

/// The extent of a display that ends without a trap holds the corners of each of its items and of the extent of each of its updates, and
/// the place of the cursor.
pub fn extents_hold_what_is_drawn()
    ensures { (limits : Limits) (scene : Scene) (forms : List ShapeTree) (env : Env) (s : DrawingAt) (cost reach : ℕ)
        → (fresh limits scene forms env).outcome ≡ Gives s cost reach → HoldsAll s.part.extent s.part.marks × Holds s.part.extent (cursor_box s.ambient) }
{}

/// A figure of parts of the right kinds is drawn as an item in the area of its place and its sizes, from the origin, where these
/// sizes are positive and the area is in the range; else it is nothing, or the trap 9.
pub fn figures_have_the_area_of_their_parts()
    ensures point { (most : ℕ) (x y : ℤ) (byte : ℕ) (s : DrawingAt) → draw_figure most figure.Point (value.int x ∷ value.int y ∷ value.text (byte ∷ []) ∷ []) s
        ≡ draw_shape most (point_leaf (shape_area s.ambient x y (pos 1) (pos 1)) byte) (shape_area s.ambient x y (pos 1) (pos 1)) s }
    ensures across { (most : ℕ) (x y length : ℤ) (s : DrawingAt) → draw_figure most figure.HorizontalLine (value.int x ∷ value.int y ∷ value.int length ∷ []) s
        ≡ draw_shape most (hline_leaf (shape_area s.ambient x y length (pos 1))) (shape_area s.ambient x y length (pos 1)) s }
    ensures down { (most : ℕ) (x y length : ℤ) (s : DrawingAt) → draw_figure most figure.VerticalLine (value.int x ∷ value.int y ∷ value.int length ∷ []) s
        ≡ draw_shape most (vline_leaf (shape_area s.ambient x y (pos 1) length)) (shape_area s.ambient x y (pos 1) length) s }
    ensures outline { (most : ℕ) (x y width height : ℤ) (s : DrawingAt) → draw_figure most figure.Outline (value.int x ∷ value.int y ∷ value.int width ∷ value.int height ∷ []) s
        ≡ draw_shape most (box_leaf (shape_area s.ambient x y width height)) (shape_area s.ambient x y width height) s }
    ensures filled { (most : ℕ) (x y width height : ℤ) (byte : ℕ) (s : DrawingAt)
        → draw_figure most figure.Filled (value.int x ∷ value.int y ∷ value.int width ∷ value.int height ∷ value.text (byte ∷ []) ∷ []) s
        ≡ draw_shape most (fill_leaf (shape_area s.ambient x y width height) byte) (shape_area s.ambient x y width height) s }
{}

/// A figure of values of other kinds than it asks for, or of more or fewer, stops with trap 1, and no other figure does.
pub fn figures_refuse_other_values()
    ensures { (most : ℕ) (f : Figure) (ds : List Data) (s : DrawingAt) → (draw_figure most f ds s ≡ Err 1) ↔ (IsFigure f ds → ⊥) }
{}

/// Which forms use the margin and the origin that a body starts with, where they end without a trap: a newline, a form that indents
/// and a room use the margin, and a figure that draws something uses the origin. A room does not use the origin around it, whatever
/// its body draws, and a form that indents does so by the forms inside alone. All other forms use neither, but by the forms inside.
pub fn margin_and_origin_are_used_by_few_forms()
    ensures newline { (scene : Scene) (allowed : Allowance) (value : Go) (text : Texts) (bodies : Bodies) (go : Draws) (level : ℕ) (env : Env) (s : DrawingAt) (cost deepest : ℕ)
        → EndsWith (UsesMargin s) (shape_parts scene allowed value text bodies go level env shape.Newline s cost deepest).outcome }
    ensures room { (scene : Scene) (allowed : Allowance) (value : Go) (text : Texts) (bodies : Bodies) (go : Draws) (level : ℕ) (env : Env) (body : ShapeTrees) (s : DrawingAt) (cost deepest : ℕ)
        → EndsWith (UsesMargin s) (shape_parts scene allowed value text bodies go level env (shape.Room body) s cost deepest).outcome }
    ensures indent { (left : ℕ) (allowed : Allowance) (scene : Scene) (value : Go) (text : Texts) (bodies : Bodies) (level : ℕ) (env : Env)
        (t : ExprTree) (body : ShapeTrees) (s : DrawingAt) (cost deepest : ℕ)
        → EndsWith HasUsedMargin (shape_parts scene allowed value text bodies (draws left allowed scene) level env (shape.Indent t body) s cost deepest).outcome }
    ensures indent_alone { (scene : Scene) (allowed : Allowance) (value : Go) (text : Texts) (bodies : Bodies) (go : Draws) (level : ℕ) (env : Env)
        (t : ExprTree) (body : ShapeTrees) (s : DrawingAt) (cost deepest : ℕ)
        → NoneUses go → EndsWith (UsesMargin s) (shape_parts scene allowed value text bodies go level env (shape.Indent t body) s cost deepest).outcome }
    ensures figure { (scene : Scene) (allowed : Allowance) (value : Go) (text : Texts) (bodies : Bodies) (go : Draws) (level : ℕ) (env : Env)
        (figure : Figure) (ts : ExprTrees) (s : DrawingAt) (cost deepest : ℕ)
        → EndsWith (UsesOrigin s) (shape_parts scene allowed value text bodies go level env (shape.Draw figure ts) s cost deepest).outcome }
    ensures others { (scene : Scene) (allowed : Allowance) (value : Go) (text : Texts) (bodies : Bodies) (go : Draws) (level : ℕ) (env : Env) (f : ShapeTree) (s : DrawingAt) (cost deepest : ℕ)
        → IsPlain f → NoneUses go → NoBodyUses bodies → EndsWith (UsesNeither s) (shape_parts scene allowed value text bodies go level env f s cost deepest).outcome }
{}

/// The ids that are taken at a level are those of the updates that were noted there: no other, and none is forgotten.
pub fn ids_are_taken_once_noted()
    ensures none { (site : Site) (id : Data) → is_taken site id [] ≡ false }
    ensures noted { (site other : Site) (id d : Data) (siblings : Siblings)
        → is_taken other d (note site id siblings) ≡ ((same_site other site && is_eq (order_of d id)) || is_taken other d siblings) }
{}
