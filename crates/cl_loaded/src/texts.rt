//! The types of a loaded application see only what their specifiers reach. The contract is the law.
ghost use Rattle.std.specs.Prelude.{ℕ, List, Ok};
ghost use Rattle.cl_application.specs.declared.applications.App.{App};
ghost use Rattle.cl_lattice.specs.World.{World};
ghost use Rattle.cl_load.specs.Application.{IsOfText, LoadsAs};
ghost use Rattle.cl_load.specs.Types.{Bounds, types_in};
ghost use Rattle.cl_ptext.specs.Hosts.{NameEntries};
ghost use Rattle.cl_reuse.specs.ReadValues.{SeesReads};
ghost use Rattle.cl_loaded.specs.Texts.{StandUnderTheirNames, texts_in};

/// The text of a value by a specifier depends on the slots at the paths alone that the present methods read which the specifier reaches,
/// whatever the host types are called, where each user type stands under its own name. So it is in an application that loads.
pub fn loaded_types_see_what_they_read()
    ensures owned { (bounds : Bounds) (names : List ℕ → NameEntries) (app : App) → StandUnderTheirNames app
        → SeesReads app (texts_in names (types_in bounds app) app) }
    ensures loaded { (bounds : Bounds) (bytes : List ℕ) (names : List ℕ → NameEntries) (app : App) → LoadsAs bounds bytes (Ok app)
        → SeesReads app (texts_in names (types_in bounds app) app) }
    ensures of_text { (names : List ℕ → NameEntries) (app : App) (w : World) → IsOfText app w → SeesReads app (texts_in names w app) }
{}
