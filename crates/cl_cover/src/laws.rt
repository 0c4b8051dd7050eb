//! What the definitions of this crate say. The contracts are the laws.
ghost use Rattle.std.specs.Prelude.{◌≡◌, ◌↔◌, List, All, Contains, None, Some, true, false};
ghost use Rattle.cl_syntax.specs.ExprTree.{ExprTree};
ghost use Rattle.cl_syntax.specs.ShapeTree.{ShapeTrees};
ghost use Rattle.cl_application.specs.declared.applications.App.{App};
ghost use Rattle.cl_eval.specs.Slots.{Env, Slots};
ghost use Rattle.cl_syntax.specs.Paths.{first_uncovered, has_prefix};
ghost use Rattle.cl_eval.specs.PathValues.{value_at};
ghost use Rattle.cl_eval.specs.ReadPaths.{AreRead, IsRead};
ghost use Rattle.cl_cover.specs.Updates.{AreCovered, IsFirstUncovered, uncovered_of, updates_of};
ghost use Rattle.cl_cover.specs.Walk.{expression_reads, reads_of};
ghost use Rattle.cl_cover.specs.declared.updates.Uncovered.{Uncovered};
ghost use Rattle.cl_syntax.specs.declared.paths.Path.{Path};

/// A path is in the list of what an expression, or display forms, read exactly where they read it.
pub fn lists_have_what_is_read()
    ensures expressions { (app : App) (t : ExprTree) (p : Path) → Contains (expression_reads app t) p ↔ IsRead app p t }
    ensures forms { (app : App) (fs : ShapeTrees) (p : Path) → Contains (reads_of app fs) p ↔ AreRead app p fs }
{}

/// No path is uncovered exactly where each path that display forms read is one of the listed, or one of these is a beginning of it. A
/// path that is uncovered is read, and none of the listed is the path itself or a beginning of it. Where no path is uncovered, and each
/// of the listed has the same value in both, or none, each path that is read has so.
pub fn covered_paths_are_begun()
    ensures none { (app : App) (listed : List Path) (fs : ShapeTrees)
        → (first_uncovered listed (reads_of app fs) ≡ None) ↔ ((p : Path) → AreRead app p fs → has_prefix listed p ≡ true) }
    ensures some { (app : App) (listed : List Path) (fs : ShapeTrees) (p : Path) → first_uncovered listed (reads_of app fs) ≡ Some p
        → AreRead app p fs × (has_prefix listed p ≡ false) }
    ensures values { (app : App) (listed : List Path) (fs : ShapeTrees) (slots : Slots) (env : Env) (other_slots : Slots) (other_env : Env)
        → first_uncovered listed (reads_of app fs) ≡ None → All (λ q. value_at app q slots env ≡ value_at app q other_slots other_env) listed
        → (p : Path) → AreRead app p fs → value_at app p slots env ≡ value_at app p other_slots other_env }
{}

/// No update is uncovered exactly where each update with a cache is covered: each path that its body reads is one of the listed, or one of
/// these is a beginning of it. An update that is found is the first that is not covered, with a path that its body reads and that does not
/// begin with a listed one.
#[tactic(auto, using(crate::proofs::UpdateLemmas::none_is_covered, crate::proofs::UpdateLemmas::some_is_first))]
pub fn first_uncovered_update_is_told()
    ensures none { (app : App) → (uncovered_of app ≡ None) ↔ AreCovered app }
    ensures some { (app : App) (found : Uncovered) → uncovered_of app ≡ Some found → IsFirstUncovered app (updates_of app.displays) found }
{}
