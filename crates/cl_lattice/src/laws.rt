//! What the definitions of subtypes say. The contracts are the laws.
ghost use Rattle.std.specs.Prelude.{◌≡◌, [], ℕ, Some, true, List};
ghost use Rattle.cl_value.specs.Data.{Data};
ghost use Rattle.cl_lattice.specs.Expanded.{Expanded};
ghost use Rattle.cl_lattice.specs.Members.{Answers, is_member, is_token};
ghost use Rattle.cl_lattice.specs.Expansion.{expansion};
ghost use Rattle.cl_lattice.specs.Laws.{AllFit};
ghost use Rattle.cl_lattice.specs.Precedence.{precedence};
ghost use Rattle.cl_lattice.specs.Supertypes.{AllBare, is_bare, stands_alone};
ghost use Rattle.cl_syntax.specs.TypeSpecTree.{TypeSpecTree, name_of, plain_type};
ghost use Rattle.cl_lattice.specs.Subtypes.{IsSubtype};
ghost use Rattle.cl_lattice.specs.World.{World};

/// Each type is a subtype of itself.
#[tactic(auto, using(crate::proofs::SubtypeReflexive::reflexive))]
pub fn subtypes_are_reflexive()
    ensures { (t : Expanded) → IsSubtype t t }
{}

/// A subtype of a subtype is one.
#[tactic(auto, using(crate::proofs::SubtypeTransitive::transitive))]
pub fn subtypes_are_transitive()
    ensures { (a b c : Expanded) → IsSubtype a b → IsSubtype b c → IsSubtype a c }
{}

/// Each member of a subtype is a member of the other type.
#[tactic(auto, using(crate::proofs::SubtypeSoundness::sound))]
pub fn subtypes_have_fewer_members()
    ensures { (w : World) (p : Answers) (d : Data) (a b : Expanded) → IsSubtype a b → is_member w p d a ≡ true → is_member w p d b ≡ true }
{}

/// A type is a subtype of each type of its precedence list whose name may stand alone, as it takes no arguments or they may
/// be left out. It asks that no type without parameters is given arguments, as no text does that loads.
#[tactic(auto, using(crate::proofs::SupertypeLemmas::listed_below))]
pub fn precedence_lists_supertypes()
    ensures { (w : World) → AllFit w → AllBare w → (s : TypeSpecTree) → is_bare w s ≡ true → (ys : List (List ℕ))
        → precedence w (name_of s) ≡ Some ys → (y : List ℕ) → is_token ys y ≡ true → stands_alone w y ≡ true
        → IsSubtype (expansion w [] s) (expansion w [] (plain_type y)) }
{}
