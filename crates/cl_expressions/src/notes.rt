//! What is noted while forms are read.
ghost use Rattle.std.specs.Prelude.{◌≡◌, length, OnOk};
ghost use Rattle.cl_expressions.specs.Load.{nothing_noted, unless, with_specifier};

use cl_syntax::{PlacedSpec, TypeSpec};
use cl_table::Names;
use std::alloc::{AllocError, Global};
use std::marker::Model;

/// What is noted: where the first name stands that is not declared, and the type specifiers in the order
/// of the text.
#[derive(Drop)]
pub struct Notes {
    unknown: Option<u32>,
    specifiers: Vec<PlacedSpec>,
}

impl Model for Notes {
    ghost use Rattle.std.specs.Coded.{codes};
    ghost use Rattle.cl_syntax.specs.TypeSpecTreeCode.{coded_type_spec_tree};
    ghost use Rattle.cl_expressions.specs.Load.{Notes as Noted};

    ghost Value = { Noted };

    ghost coded = { Prim.hlevel (codes, coded_type_spec_tree) };

    ghost view = { λ n. record { unknown = n.unknown; specifiers = n.specifiers.items } };
}

impl Notes {
    /// Nothing noted, which takes no memory.
    pub fn new(alloc: Global) -> Notes
        ensures { result ≡ nothing_noted }
    {
        Notes {
            unknown: None,
            specifiers: Vec::new(alloc),
        }
    }

    /// The offset of the first name that is not declared.
    pub fn unknown(&self) -> Option<u32>
        ensures { result ≡ self.now.unknown }
    {
        self.unknown
    }

    /// The type specifiers, in the order of the text.
    pub fn specifiers(&self) -> &[PlacedSpec]
        ensures { result.now ≡ self.now.specifiers }
    {
        self.specifiers.as_slice()
    }

    /// Notes a name at this offset, where it is not known and no earlier one was noted.
    pub fn note(&mut self, known: bool, at: u32)
        ensures { self.new ≡ unless known at self.old }
    {
        if !known && self.unknown.is_none() {
            self.unknown = Some(at);
        }
    }

    /// How many type specifiers are noted.
    pub fn count(&self) -> usize
        ensures { result ≡ length self.now.specifiers }
    {
        self.specifiers.len()
    }

    /// Puts a type specifier at a place among the others, which is their end where it lies behind it.
    #[tactic(auto, using(crate::proofs::NoteLemmas::inserted_behind))]
    pub fn place(
        &mut self,
        place: usize,
        spec: TypeSpec,
        parameters: Names,
        at: u32,
    ) -> Result<(), AllocError>
        ensures { OnOk result (self.new ≡ with_specifier place spec parameters at self.old) }
    {
        let placed = PlacedSpec {
            spec,
            parameters,
            at,
        };
        if place < self.specifiers.len() {
            self.specifiers.insert(place, placed)?;
        } else {
            self.specifiers.push(placed)?;
        }
        Ok(())
    }
}
