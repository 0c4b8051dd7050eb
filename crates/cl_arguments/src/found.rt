//! What a search has found.
ghost use Rattle.std.specs.Prelude.{◌≡◌, ◌^◌, ◌<◌, [], length, OnOk, option_map, slice_get};
ghost use Rattle.cl_arguments.specs.ProbeSearch.{with_probe};

use crate::probes::Probe;
use indexmap::IndexSet;
use std::alloc::{AllocError, Global};
use std::marker::Model;

/// What a search has found, each once, seen as its list in the order in which it was found.
#[derive(Drop)]
pub(crate) struct Found {
    probes: IndexSet<Probe>,
}

impl Model for Found {
    ghost use Rattle.std.specs.Prelude.{List};
    ghost use Rattle.cl_arguments.specs.declared.probes.Probe.{Probe};

    ghost Value = { List Probe };

    ghost view = { λ f. f.probes.keys };
}

impl Found {
    /// Nothing found, which takes no memory.
    pub(crate) fn new(alloc: Global) -> Found
        ensures { result ≡ [] }
    {
        Found {
            probes: IndexSet::new(alloc),
        }
    }

    /// How many there are.
    pub(crate) fn len(&self) -> usize
        ensures len { result ≡ length self.now }
        ensures small { result < 2 ^ 63 }
    {
        self.probes.len()
    }

    /// The one at a place, from 0.
    pub(crate) fn at(&self, place: usize) -> Option<&Probe>
        ensures { option_map (λ p. p.now) result ≡ slice_get self.now place }
    {
        self.probes.get_index(place)
    }

    /// Puts one behind the others, where it was not found before.
    pub(crate) fn add(&mut self, probe: Probe) -> Result<(), AllocError>
        ensures { OnOk result (self.new ≡ with_probe self.old probe) }
    {
        self.probes.insert(probe)?;
        Ok(())
    }
}
