//! What the definitions of this crate say. The contract is the law.
ghost use Rattle.std.specs.Prelude.{◌≡◌, ℕ, List, Result};
ghost use Rattle.cl_application.specs.declared.applications.App.{App};
ghost use Rattle.cl_load.specs.Application.{LoadsAs};
ghost use Rattle.cl_load.specs.Reason.{Reason};
ghost use Rattle.cl_load.specs.Types.{Bounds};

/// On the same host types a text loads as one application, or it has one first reason why it does not, and not both.
#[tactic(auto, using(crate::proofs::OneOutcome::one_outcome))]
pub fn one_outcome()
    ensures { (bounds : Bounds) (bytes : List ℕ) (a b : Result App Reason) → LoadsAs bounds bytes a
        → LoadsAs bounds bytes b → a ≡ b }
{}
