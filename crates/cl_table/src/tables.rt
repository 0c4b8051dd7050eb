//! Tables of what is declared by name.
ghost use Rattle.std.specs.Prelude.{◌≡◌, ◌↔◌, [], ◌∷◌, ◌++◌, length, None, OnOk, OnErr, IfErr, IsTrue, option_map};
ghost use Rattle.cl_table.specs.Names.{declared_at, named, with_first, IsTable};

use crate::asked::Asked;
use cl_value::Text;
use indexmap::IndexMap;
use std::alloc::{AllocError, Global};
use std::marker::Model;

/// What is declared under a name.
pub trait Declared: Drop {
    ghost use Rattle.std.specs.Prelude.{ℕ, List};

    ghost own_name: { Self → List ℕ };

    /// The name under which it is declared.
    fn name(&self) -> &Text
        ensures { result.now ≡ own_name self.now };
}

/// Declarations by name, seen as the list of the names with their declarations, in order of declaration.
/// Each stands under its own name, and no two under one.
#[derive(Drop)]
pub struct Table<D: Declared> {
    entries: IndexMap<Text, D>,
}

impl<D: Declared> Model for Table<D> {
    ghost use Rattle.std.specs.Prelude.{ℕ, List};
    ghost use Rattle.cl_table.specs.Names.{IsTable};

    ghost Value = { List (List ℕ × D) };

    ghost view = { λ t. t.entries.entries };

    ghost invariant = { λ t. IsTable D.own_name t.entries.entries };
}

impl<D: Declared> Table<D> {
    /// A table without declarations, which takes no memory.
    pub fn new(alloc: Global) -> Table<D>
        ensures { result ≡ [] }
    {
        Table {
            entries: IndexMap::new(alloc),
        }
    }

    /// The declaration of that name, which takes no memory.
    pub fn get(&self, name: &[u8]) -> Option<&D>
        ensures { option_map (λ d. d.now) result ≡ named name.now self.now }
    {
        self.entries.get(Asked { name })
    }

    /// What is true of each table: a declaration stands under its own name, and no two under one.
    pub fn is_table(&self)
        ensures { IsTable D.own_name self.now }
    {
        let _ = &self.entries;
    }

    /// The declaration at a place in order of declaration, from 0.
    pub fn at(&self, place: usize) -> Option<&D>
        ensures { option_map (λ d. d.now) result ≡ declared_at place self.now }
    {
        match self.entries.get_index(place) {
            Some((_, declaration)) => Some(declaration),
            None => None,
        }
    }

    /// Puts a declaration behind the others. Where memory is wanting, it hands it back.
    pub fn add(&mut self, declaration: D) -> Result<(), D>
        requires { named (D.own_name declaration) self.old ≡ None }
        ensures ok { OnOk result
            (self.new ≡ self.old ++ (D.own_name declaration, declaration) ∷ []) }
        ensures err { OnErr result (self.new ≡ self.old) }
        ensures handed_back { IfErr result (λ d. d ≡ declaration) }
    {
        let Ok(name) = declaration.name().copy() else {
            return Err(declaration);
        };
        match self.entries.insert(name, declaration) {
            Ok(_) => Ok(()),
            Err(failed) => Err(failed.value.1),
        }
    }

    /// Puts a declaration behind the others, where none has its name; of two of one name the first stays.
    pub fn add_first(&mut self, declaration: D) -> Result<(), AllocError>
        ensures ok { OnOk result (self.new ≡ with_first D.own_name self.old declaration) }
        ensures err { OnErr result (self.new ≡ self.old) }
    {
        if self.get(declaration.name().as_slice()).is_some() {
            return Ok(());
        }
        self.add(declaration).map_err(|_| AllocError)
    }

    /// How many declarations there are.
    pub fn len(&self) -> usize
        ensures { result ≡ length self.now }
    {
        self.entries.len()
    }

    /// Whether there are no declarations.
    pub fn is_empty(&self) -> bool
        ensures { IsTrue result ↔ (self.now ≡ []) }
    {
        self.entries.is_empty()
    }
}
