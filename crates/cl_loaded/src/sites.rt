//! Where the updates of a loaded application stand. The contract is the law.
ghost use Rattle.std.specs.Prelude.{ℕ, List, Ok};
ghost use Rattle.cl_application.specs.declared.applications.App.{App};
ghost use Rattle.cl_load.specs.Application.{LoadsAs};
ghost use Rattle.cl_load.specs.Types.{Bounds};
ghost use Rattle.cl_reuse.specs.Sited.{AreApart};

/// No two updates with a cache of an application that a text loads as have one site: each stands where its own form begins in the text, or is
/// the line of its own query in the form of a dialog, where the dialog is declared.
pub fn updates_of_loaded_applications_are_apart()
    ensures { (bounds : Bounds) (bytes : List ℕ) (app : App) → LoadsAs bounds bytes (Ok app) → AreApart app }
{}
