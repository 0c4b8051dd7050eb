//! The types of an application.
ghost use Rattle.std.specs.Prelude.{◌≡◌, option_map};
ghost use Rattle.cl_lattice.specs.Laws.{AllFit};
ghost use Rattle.cl_lattice.specs.Precedence.{precedence};
ghost use Rattle.cl_lattice.specs.World.{kind_named};

use crate::declared_types::{DeclaredTypes, TypeKind};
use cl_syntax::CommandTypes;
use cl_table::{Declared, Names, Table};
use cl_value::Text;
use std::marker::Model;

/// The precedence list of a type.
#[derive(Drop)]
pub(crate) struct Precedence {
    pub(crate) name: Text,
    pub(crate) names: Names,
}

/// Precedence lists by the names of their types.
pub(crate) type Precedences = Table<Precedence>;

impl Declared for Precedence {
    ghost own_name = { λ p. p.name };

    fn name(&self) -> &Text {
        &self.name
    }
}

/// The types that an application declares, seen as its `World`. What a user type inherits from nests at most eight
/// names one inside another, and has at most 256 nodes.
#[derive(Drop)]
pub struct Lattice {
    pub(crate) types: DeclaredTypes,
    pub(crate) commands: CommandTypes,
    pub(crate) precedences: Precedences,
}

impl Model for Lattice {
    ghost use Rattle.std.specs.Coded.{codes};
    ghost use Rattle.cl_syntax.specs.TypeSpecTreeCode.{coded_type_spec_tree};
    ghost use Rattle.cl_lattice.specs.World.{World};

    ghost Value = { World };

    ghost coded = { Prim.hlevel (codes, coded_type_spec_tree) };

    ghost view = { λ l. record { types = l.types; commands = l.commands } };

    ghost use Rattle.cl_lattice.specs.Laws.{IsLattice};

    ghost invariant = { λ l. IsLattice (record { types = l.types; commands = l.commands }) l.precedences };
}

impl Lattice {
    /// The precedence list of a type; `None` exactly where no such type is.
    pub fn precedence(&self, name: &[u8]) -> Option<&Names>
        ensures { option_map (λ p. p.now) result ≡ precedence self.now name.now }
    {
        match self.precedences.get(name) {
            Some(found) => Some(&found.names),
            None => None,
        }
    }

    /// What a name stands for that is none of a standard type.
    pub fn kind(&self, name: &[u8]) -> Option<&TypeKind>
        ensures { option_map (λ k. k.now) result ≡ kind_named name.now self.now }
    {
        match self.types.get(name) {
            Some(declared) => Some(&declared.kind),
            None => None,
        }
    }

    /// What is true of each lattice: what a user type inherits from is within the limits.
    pub fn all_fit(&self)
        ensures { AllFit self.now }
    {
        let _ = &self.types;
    }
}
