//! Callees among others.
ghost use Rattle.std.specs.Prelude.{◌≡◌, [], ◌∷◌, ◌++◌, OnOk, false};
ghost use Rattle.cl_cover.specs.Walk.{is_among};

use cl_syntax::Callee;
use indexmap::IndexSet;
use std::alloc::{AllocError, Global};
use std::marker::Model;

/// Callees that were entered, each once, seen as their list.
#[derive(Drop)]
pub(crate) struct Callees {
    items: IndexSet<Callee>,
}

impl Model for Callees {
    ghost use Rattle.std.specs.Prelude.{List};
    ghost use Rattle.cl_syntax.specs.declared.callees.Callee.{Callee};

    ghost Value = { List Callee };

    ghost view = { λ c. c.items.keys };
}

impl Callees {
    /// None, which takes no memory.
    pub(crate) fn new(alloc: Global) -> Callees
        ensures { result ≡ [] }
    {
        Callees {
            items: IndexSet::new(alloc),
        }
    }

    /// Whether it was entered.
    pub(crate) fn contains(&self, callee: &Callee) -> bool
        ensures { result ≡ is_among callee.now self.now }
    {
        self.items.contains(callee)
    }

    /// Puts one behind the others.
    pub(crate) fn push(&mut self, callee: Callee) -> Result<(), AllocError>
        requires { is_among callee self.old ≡ false }
        ensures { OnOk result (self.new ≡ self.old ++ callee ∷ []) }
    {
        self.items.insert(callee)?;
        Ok(())
    }
}
