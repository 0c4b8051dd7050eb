//! The histories of a loaded application may be reused. The contract is the law.
ghost use Rattle.std.specs.Prelude.{ℕ, List, Ok};
ghost use Rattle.cl_application.specs.declared.applications.App.{App};
ghost use Rattle.cl_eval.specs.Statements.{Member};
ghost use Rattle.cl_load.specs.Application.{LoadsAs};
ghost use Rattle.cl_load.specs.Types.{Bounds, types_in};
ghost use Rattle.cl_loaded.specs.Texts.{texts_in};
ghost use Rattle.cl_ptext.specs.Hosts.{NameEntries};
ghost use Rattle.cl_updating.specs.Redisplays.{CanReuse};

/// All that a display over an old history asks of an application and its types holds of an application that a text loads as, on its own types,
/// whatever the host types are called and whatever the members of its types are.
pub fn loaded_applications_can_be_reused()
    ensures { (bounds : Bounds) (bytes : List ℕ) (names : List ℕ → NameEntries) (holds : Member) (app : App) → LoadsAs bounds bytes (Ok app)
        → CanReuse app (record { holds = holds; presents = texts_in names (types_in bounds app) app }) }
{}
