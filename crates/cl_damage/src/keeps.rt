//! What was kept of the updates that were opened while new records were drawn.
ghost use Rattle.std.specs.Prelude.{◌≡◌, None, OnErr, OnOk, Some};
ghost use Rattle.cl_damage.specs.KeepRows.{keeps_of};
ghost use Rattle.cl_damage.specs.Keeps.{none, with_last};

use cl_region::Shift;
use std::alloc::{AllocError, Global};
use std::marker::Model;

// What became of an update that was opened.
#[cycle(keep)]
#[derive(Drop)]
pub(crate) enum Keep {
    // It was kept, and stands so far from where it stood.
    Kept(Shift),
    // It was drawn anew, and this was kept of the updates inside of it.
    Anew(Keeps),
}

/// What was kept of the updates of a level, in the order in which they were opened; where one was drawn anew, also of those
/// inside of it.
#[cycle(keep)]
#[derive(Drop)]
pub struct Keeps {
    items: Vec<Keep>,
}

impl Model for Keeps {
    ghost use Rattle.cl_damage.specs.Keeps as seen;
    ghost use Rattle.cl_damage.specs.Keeps.{keeps_code, size_of};

    ghost Value = { seen.Keeps };

    ghost coded = { keeps_code };

    ghost use Rattle.cl_damage.specs.KeepRows.{keeps_of};

    ghost view = { λ a. keeps_of a.items.items };

    ghost size = { size_of };

    ghost use Rattle.std.proofs.Common.{arith};
    ghost use Rattle.cl_damage.specs.KeepFalls.{most-size};

    ghost size_decreases = { λ a h. Prim.omega (arith, most-size a.items.items) };
}

impl Keeps {
    /// Of no update, which takes no memory.
    pub fn new(alloc: Global) -> Keeps
        ensures { result ≡ none }
    {
        Keeps {
            items: Vec::new(alloc),
        }
    }

    /// Puts an update behind the others that was kept, and stands so far from where it stood. Where memory is wanting, all
    /// stays as it was.
    pub fn push_kept(&mut self, moved: Shift) -> Result<(), AllocError>
        ensures ok { OnOk result (self.new ≡ with_last self.old (Some moved) none) }
        ensures err { OnErr result (self.new ≡ self.old) }
    {
        self.items.push(Keep::Kept(moved))?;
        Ok(())
    }

    /// Puts an update behind the others that was drawn anew, with what was kept of the updates inside of it. Where memory is
    /// wanting, it is given up and all stays as it was.
    pub fn push_anew(&mut self, inside: Keeps) -> Result<(), AllocError>
        ensures ok { OnOk result (self.new ≡ with_last self.old None inside) }
        ensures err { OnErr result (self.new ≡ self.old) }
    {
        self.items.push(Keep::Anew(inside))?;
        Ok(())
    }

    // The updates of the level in their order.
    pub(crate) fn as_slice(&self) -> &[Keep]
        ensures { keeps_of result.now ≡ self.now }
    {
        self.items.as_slice()
    }
}
