//! The form of a dialog lists all paths that it reads. The contract is the law.
ghost use Rattle.std.specs.Prelude.{◌≡◌, All, Some};
ghost use Rattle.cl_syntax.specs.ShapeTree.{shape_trees_of};
ghost use Rattle.cl_application.specs.declared.applications.App.{App};
ghost use Rattle.cl_cover.specs.Updates.{AreCovered, IsCovered, uncovered_among, uncovered_of, updates_among, updates_of};
ghost use Rattle.cl_cover.specs.declared.updates.Uncovered.{Uncovered};
ghost use Rattle.cl_dialog_forms.specs.Forms.{dialog_displays, with_dialog_displays};

/// Each update with a cache in the form of a dialog is covered, in the application with these forms as displays: each path that its body
/// reads is listed, or begins with one that is. So all updates with a cache are covered there where those of the application's own
/// displays are; and where one is not, the first, with its path, is the first of these.
pub fn forms_of_dialogs_are_covered()
    ensures forms { (app : App)
        → All (λ d. All (IsCovered (with_dialog_displays app)) (updates_among (shape_trees_of d.body))) (dialog_displays app) }
    ensures alone { (app : App) → All (IsCovered (with_dialog_displays app)) (updates_of app.displays)
        → AreCovered (with_dialog_displays app) }
    ensures first { (app : App) (found : Uncovered) → uncovered_of (with_dialog_displays app) ≡ Some found
        → uncovered_among (with_dialog_displays app) (updates_of app.displays) ≡ Some found }
{}
