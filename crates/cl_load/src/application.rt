//! An application that loads.
ghost use Rattle.std.specs.Prelude.{◌≡◌};
ghost use Rattle.std.proofs.Props.{props};
ghost use Rattle.cl_application.specs.Panes.{IsPlaced};
ghost use Rattle.cl_cover.specs.Updates.{AreCovered};
ghost use Rattle.cl_load.specs.Apart.{LieApart-prop};
ghost use Rattle.cl_load.specs.Application.{IsOfText};
ghost use Rattle.cl_opening.specs.Opening.{opening_slots};
ghost use Rattle.cl_tables.specs.Rings.{HasNoRing};

use cl_application::App;
use cl_eval::Slots;
use cl_lattice::Lattice;

/// An application that loads, with its types and its opening slots: no refusal of its text applies to it. Its
/// frame is at most 512 cells wide and 256 cells high, and its panes lie in it, each apart from the others. No
/// command table inherits from itself. Each path that the body of an update with a cache reads is listed, or
/// begins with one that is.
#[derive(Drop)]
pub struct Loaded {
    pub app: App,
    pub lattice: Lattice,
    pub slots: Slots,
    pub ghost of_text: { IsOfText app lattice },
    pub ghost placed: { IsPlaced app.frame } by { Prim.hlevel (props, LieApart-prop) },
    pub ghost no_ring: { HasNoRing app.tables } by { Prim.hlevel (props) },
    pub ghost opening: { slots ≡ opening_slots app },
    pub ghost covered: { AreCovered app } by { Prim.hlevel (props) },
}

/// An application on its device with its types and its opening slots, whose text is not told.
#[derive(Drop)]
pub struct Opened {
    pub app: App,
    pub lattice: Lattice,
    pub slots: Slots,
    pub ghost placed: { IsPlaced app.frame } by { Prim.hlevel (props, LieApart-prop) },
    pub ghost no_ring: { HasNoRing app.tables } by { Prim.hlevel (props) },
    pub ghost opening: { slots ≡ opening_slots app },
}
