//! What the definitions of texts and readings say. The contracts are the laws.
ghost use Rattle.std.specs.Prelude.{◌≡◌, ◌↔◌, ◌≤◌, ◌∷◌, [], ℕ, Some, true, List};
ghost use Rattle.cl_application.specs.App.{present_method};
ghost use Rattle.cl_application.specs.declared.declarations.MethodDecl.{MethodDecl};
ghost use Rattle.cl_eval.specs.Outcome.{Gives};
ghost use Rattle.cl_eval.specs.Slots.{Slots};
ghost use Rattle.cl_eval.specs.ReadPaths.{AgreeOn};
ghost use Rattle.cl_eval.specs.declared.metering.Limits.{Limits};
ghost use Rattle.cl_lattice.specs.Expanded.{Expanded};
ghost use Rattle.cl_lattice.specs.Members.{is_member};
ghost use Rattle.cl_lattice.specs.Subtypes.{IsSubtype};
ghost use Rattle.cl_syntax.specs.TypeSpecTree.{TypeSpecTree};
ghost use Rattle.cl_value.specs.Data.{Data};
ghost use Rattle.cl_ptext.specs.Book.{Book};
ghost use Rattle.cl_ptext.specs.Methods.{Object, predicates_of};
ghost use Rattle.cl_ptext.specs.Parts.{joined_pieces, pieces};
ghost use Rattle.cl_ptext.specs.Readings.{reading};
ghost use Rattle.cl_ptext.specs.Subtyping.{is_subtype};
ghost use Rattle.cl_ptext.specs.Texts.{outcome_of_text};

/// What a text reads as is a member of the type.
#[tactic(auto, using(crate::proofs::ReadingLemmas::object_read))]
pub fn objects_are_members()
    ensures { (b : Book) (slots : Slots) (t : Expanded) (s : TypeSpecTree) (x : List ℕ) (d : Data)
        → reading b slots t s x ≡ Object d → is_member b.world (predicates_of b.app) d t ≡ true }
{}

/// The pieces of a text are all of it: with the separator put between them again they are the text.
#[tactic(auto, using(crate::proofs::CutLemmas::nothing_lost))]
pub fn cutting_loses_nothing()
    ensures { (separator : ℕ) (x : List ℕ) → joined_pieces separator (pieces separator x) ≡ x }
{}

/// A text that ends under some limits ends so under all limits that its cost and its reach do not pass.
pub fn text_limits_can_be_wider()
    ensures { (b : Book) (limits wider : Limits) (slots : Slots) (t : Expanded) (s : TypeSpecTree) (d x : Data) (cost reach : ℕ)
        → outcome_of_text b limits slots t s d ≡ Gives x cost reach → cost ≤ wider.budget → reach ≤ wider.depth
        → outcome_of_text b wider slots t s d ≡ Gives x cost reach }
{}

/// Neither the cost nor the reach of a text passes its limits.
pub fn texts_keep_to_their_limits()
    ensures { (b : Book) (limits : Limits) (slots : Slots) (t : Expanded) (s : TypeSpecTree) (d x : Data) (cost reach : ℕ)
        → outcome_of_text b limits slots t s d ≡ Gives x cost reach → (cost ≤ limits.budget) × (reach ≤ limits.depth) }
{}

/// The text of a value depends on the slots that present methods name alone: where these have the same values, or have none, it
/// is the same text or trap, with the same cost and reach, whatever the limits.
pub fn texts_see_what_methods_name()
    ensures { (b : Book) (limits : Limits) (slots other : Slots)
        → ((x : List ℕ) (m : MethodDecl) → present_method x b.app ≡ Some m → (d : Data)
        → AgreeOn b.app m.body slots ((m.parameter, d) ∷ []) other ((m.parameter, d) ∷ []))
        → (t : Expanded) (s : TypeSpecTree) (d : Data) → outcome_of_text b limits slots t s d ≡ outcome_of_text b limits other t s d }
{}

/// One type is said to be a subtype of another exactly where the rules of subtypes derive it.
#[tactic(auto, using(crate::proofs::SubtypingLemmas::derived))]
pub fn subtypes_are_derived()
    ensures { (a b : Expanded) → (is_subtype a b ≡ true) ↔ IsSubtype a b }
{}
