//! What the definitions of this crate say. The contracts are the laws.
ghost use Rattle.std.specs.Prelude.{◌≡◌, ◌↔◌, ◌≢◌, ℕ, List, All};
ghost use Rattle.cl_syntax.specs.ExprTree.{ExprTree};
ghost use Rattle.cl_syntax.specs.declared.paths.Path.{Path};
ghost use Rattle.cl_application.specs.declared.applications.App.{App};
ghost use Rattle.cl_eval.specs.ReadPaths.{IsRead, IsSlot};
ghost use Rattle.cl_phases.specs.SlotReads.{ReadsSlot};
ghost use Rattle.cl_phases.specs.CommandNames.{joined};

/// A table and a name in it are one with another table and a name in that exactly where both are: no table's
/// name has a space in it. So a command-line name or a keystroke stands twice only in one table.
#[tactic(auto, using(crate::proofs::JoinedLemmas::same_parts))]
pub fn tables_keep_their_names()
    ensures { (s t x y : List ℕ) → All (λ b. b ≢ 32) s → All (λ b. b ≢ 32) t → joined s x ≡ joined t y ↔ ((s ≡ t) × (x ≡ y)) }
{}

/// In an application, an expression reads a slot exactly where it reads a path that begins with a slot.
pub fn slots_are_read_by_paths()
    ensures { (app : App) (t : ExprTree) → ReadsSlot app.functions t ↔ ((p : Path) × (IsSlot p.root × IsRead app p t)) }
{}
