//! What user types inherit. The contract is the law.
ghost use Rattle.std.specs.Prelude.{◌≡◌, ℕ, List, Option};
ghost use Rattle.cl_value.specs.Data.{Data};
ghost use Rattle.cl_lattice.specs.Arguments.{given};
ghost use Rattle.cl_lattice.specs.Expanded.{user};
ghost use Rattle.cl_lattice.specs.Expansion.{expansion, own_type};
ghost use Rattle.cl_lattice.specs.Laws.{AllFit};
ghost use Rattle.cl_lattice.specs.Rings.{IsUserType};
ghost use Rattle.cl_lattice.specs.World.{World};
ghost use Rattle.cl_lattice.specs.declared.declared_types.UserType.{UserType};

/// What a user type is: its name, its arguments, its predicate, and what it inherits from, with the arguments put in.
#[tactic(auto, using(crate::proofs::ExpansionLemmas::own_is))]
pub fn user_types_inherit()
    ensures { (w : World) → AllFit w → (x : List ℕ) (u : UserType) → IsUserType w x u → (vs : List (Option Data))
        → own_type w u x vs ≡ user x vs u.satisfies (expansion w (given u.parameters vs) u.inherit_from) }
{}
