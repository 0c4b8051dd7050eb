//! What the definitions of display forms, statements and declarations say of a datum. The contracts are the laws.
ghost use Rattle.std.specs.Prelude.{◌≡◌, ◌↔◌, ℕ, List, Ok, Err};
ghost use Rattle.cl_syntax.specs.ShapeTree.{ShapeTree, shape_trees_of};
ghost use Rattle.cl_syntax.specs.ActTree.{ActTree, act_trees_of};
ghost use Rattle.cl_forms.specs.Datum.{Datum, Datums, in_order};
ghost use Rattle.cl_words.specs.declared.signatures.Signatures.{Signatures};
ghost use Rattle.cl_expressions.specs.Load.{Notes};
ghost use Rattle.cl_expressions.specs.Scopes.{Names};
ghost use Rattle.cl_bodies.specs.DisplayForms.{parse_shape, parse_shapes};
ghost use Rattle.cl_bodies.specs.Statements.{parse_act, parse_acts};
ghost use Rattle.cl_forms.specs.Outer.{Outer, outers_of};
ghost use Rattle.cl_words.specs.Signatures.{signatures_of};
ghost use Rattle.cl_declare.specs.Declarations.{parse_declarations};
ghost use Rattle.cl_declare.specs.declared.declarations.Declarations.{Declarations};
ghost use Rattle.cl_grammar.specs.Heads.{CallsNames};
ghost use Rattle.cl_grammar.specs.Lies.{Lies};
ghost use Rattle.cl_grammar.specs.Unnamed.{IsNoted};
ghost use Rattle.cl_text_grammar.specs.Displays.{CallsDisplays};
ghost use Rattle.cl_text_grammar.specs.WritesShapes.{WritesShape, WritesShapes};
ghost use Rattle.cl_text_grammar.specs.WritesActs.{WritesAct, WritesActs};
ghost use Rattle.cl_text_grammar.specs.FormBlames.{ShapeBlames, ActBlames, IsFirst};
ghost use Rattle.cl_text_grammar.specs.FormUnnamed.{ShapeUnnamed, ActUnnamed};
ghost use Rattle.cl_text_grammar.specs.WritesDeclarations.{TextDeclares};

/// The displays that a text declares have names.
pub fn declared_displays_have_names()
    ensures { (forms : List Outer) → CallsDisplays (signatures_of forms) }
{}

/// What is read of a datum as a display form is written so.
#[tactic(auto, using(crate::proofs::ShapesWritten::shape_written))]
pub fn read_shape_is_written()
    ensures { (w : Signatures) (d : Datum) (env : Names) (u v : Notes) (f : ShapeTree) → CallsNames w → CallsDisplays w
        → parse_shape w d env u ≡ Ok (f, v) → WritesShape w f d }
{}

/// What is read of data as a body of display forms is written so.
#[tactic(auto, using(crate::proofs::ShapesWritten::shapes_written))]
pub fn read_shapes_are_written()
    ensures { (w : Signatures) (ds : Datums) (env : Names) (u v : Notes) (fs : List ShapeTree) → CallsNames w → CallsDisplays w
        → parse_shapes w ds env u ≡ Ok (fs, v) → WritesShapes w (shape_trees_of fs) (in_order ds) }
{}

/// What is read of a datum as a statement is written so.
#[tactic(auto, using(crate::proofs::ActsWritten::act_written))]
pub fn read_act_is_written()
    ensures { (w : Signatures) (d : Datum) (env : Names) (u v : Notes) (s : ActTree) → CallsNames w
        → parse_act w d env u ≡ Ok (s, v) → WritesAct s d }
{}

/// What is read of data as a body of statements is written so.
#[tactic(auto, using(crate::proofs::ActsWritten::acts_written))]
pub fn read_acts_are_written()
    ensures { (w : Signatures) (ds : Datums) (env : Names) (u v : Notes) (ss : List ActTree) → CallsNames w
        → parse_acts w ds env u ≡ Ok (ss, v) → WritesActs (act_trees_of ss) (in_order ds) }
{}

/// What is read of the data of a text as its declarations is what its outermost forms write, in order: the first of a name in each
/// table, and all frames.
#[tactic(auto, using(crate::proofs::TextWritten::text_written))]
pub fn read_declarations_are_written()
    ensures { (w : Signatures) (ds : List Datum) (u v : Notes) (s : Declarations) → CallsNames w → CallsDisplays w
        → parse_declarations w (outers_of ds) u ≡ Ok (s, v) → TextDeclares w ds s }
{}

/// A datum whose parts lie in order is refused as a display form exactly where a form in it is to blame, with the number and the
/// offset of the first.
pub fn first_blame_of_a_shape_is_told()
    ensures { (w : Signatures) (d : Datum) (env : Names) (from to : ℕ) (u : Notes) (number offset : ℕ) → Lies from d to
        → (parse_shape w d env u ≡ Err (number, offset)) ↔ IsFirst (ShapeBlames w env d) number offset }
{}

/// Where a form is to blame, no display form is read.
pub fn blamed_shape_is_refused()
    ensures { (w : Signatures) (d : Datum) (env : Names) (from to : ℕ) (u v : Notes) (f : ShapeTree) (number offset : ℕ) → Lies from d to
        → ShapeBlames w env d number offset → parse_shape w d env u ≡ Ok (f, v) → ⊥ }
{}

/// Where a datum is read as a display form, the first of its names that are not declared is noted, if none was noted before.
pub fn first_unnamed_of_a_shape_is_noted()
    ensures { (w : Signatures) (d : Datum) (env : Names) (from to : ℕ) (u v : Notes) (f : ShapeTree) → Lies from d to
        → parse_shape w d env u ≡ Ok (f, v) → IsNoted (ShapeUnnamed w env d) u.unknown v.unknown }
{}

/// A datum whose parts lie in order is refused as a statement exactly where a form in it is to blame, with the number and the offset
/// of the first.
pub fn first_blame_of_an_act_is_told()
    ensures { (w : Signatures) (d : Datum) (env : Names) (from to : ℕ) (u : Notes) (number offset : ℕ) → Lies from d to
        → (parse_act w d env u ≡ Err (number, offset)) ↔ IsFirst (ActBlames w env d) number offset }
{}

/// Where a form is to blame, no statement is read.
pub fn blamed_act_is_refused()
    ensures { (w : Signatures) (d : Datum) (env : Names) (from to : ℕ) (u v : Notes) (s : ActTree) (number offset : ℕ) → Lies from d to
        → ActBlames w env d number offset → parse_act w d env u ≡ Ok (s, v) → ⊥ }
{}

/// Where a datum is read as a statement, the first of its names that are not declared is noted, if none was noted before.
pub fn first_unnamed_of_an_act_is_noted()
    ensures { (w : Signatures) (d : Datum) (env : Names) (from to : ℕ) (u v : Notes) (s : ActTree) → Lies from d to
        → parse_act w d env u ≡ Ok (s, v) → IsNoted (ActUnnamed w env d) u.unknown v.unknown }
{}
