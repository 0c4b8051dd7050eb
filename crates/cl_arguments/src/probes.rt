//! What comes to stand behind the name of a type.
ghost use Rattle.std.specs.Prelude.{◌≡◌, IfOk};
ghost use Rattle.cl_arguments.specs.Probes.{is_wrong};

use crate::kinds::{ArgumentKind, takes};
use cl_syntax::standard_named;
use cl_value::Text;
use std::alloc::AllocError;

/// An argument at its place, from 0.
#[derive(Clone, Copy, PartialEq, Eq, Hash)]
pub(crate) struct Put {
    pub(crate) place: usize,
    pub(crate) kind: ArgumentKind,
}

/// What comes to stand behind the name of a type; `None`: the type itself.
#[derive(Drop, PartialEq, Eq, Hash)]
pub(crate) struct Probe {
    pub(crate) name: Text,
    pub(crate) put: Option<Put>,
}

impl Probe {
    /// Whether it is an argument behind the name of a standard type that does not take it.
    pub(crate) fn is_wrong(&self) -> bool
        ensures { result ≡ is_wrong self.now }
    {
        let Some(standard) = standard_named(self.name.as_slice()) else {
            return false;
        };
        match self.put {
            Some(put) => !takes(standard, put.kind),
            None => false,
        }
    }

    /// The same, which takes no memory: it fails only where one text has as many owners as can be
    /// counted.
    pub(crate) fn copy(&self) -> Result<Probe, AllocError>
        ensures { IfOk result (λ p. p ≡ self.now) }
    {
        Ok(Probe {
            name: self.name.copy()?,
            put: self.put,
        })
    }
}
