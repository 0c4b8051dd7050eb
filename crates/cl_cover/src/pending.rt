//! Steps that are still to be taken.
ghost use Rattle.std.specs.Prelude.{◌≡◌, [], ◌∷◌, ◌++◌, MatchOption, OnOk};

use crate::steps::Step;
use std::alloc::{AllocError, Global};
use std::marker::Model;

/// Steps that are still to be taken, seen as their list. They are held from the last one on.
#[derive(Drop)]
pub(crate) struct Pending {
    items: Vec<Step>,
}

impl Model for Pending {
    ghost use Rattle.std.specs.Prelude.{List, reverse};
    ghost use Rattle.cl_cover.specs.declared.steps.Step.{Step};

    ghost Value = { List Step };

    ghost view = { λ p. reverse p.items.items };
}

impl Pending {
    /// No steps, which takes no memory.
    pub(crate) fn new(alloc: Global) -> Pending
        ensures { result ≡ [] }
    {
        Pending {
            items: Vec::new(alloc),
        }
    }

    /// The next step, which is taken from them.
    pub(crate) fn next(&mut self) -> Option<Step>
        ensures { MatchOption result (self.old ≡ []) (λ step. self.old ≡ step ∷ self.new) }
    {
        self.items.pop()
    }

    /// Puts steps before all others.
    pub(crate) fn put_first(&mut self, mut steps: Vec<Step>) -> Result<(), AllocError>
        ensures { OnOk result (self.new ≡ steps.items ++ self.old) }
    {
        while let Some(step) = steps.pop() {
            self.items.push(step)?;
        }
        Ok(())
    }
}
