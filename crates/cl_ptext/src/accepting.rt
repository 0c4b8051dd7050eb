//! Reading of texts by types, after the CLIM II specification's `accept`.
ghost use Rattle.std.specs.Prelude.{◌≡◌, [], true};
ghost use Rattle.cl_lattice.specs.Expansion.{expansion};
ghost use Rattle.cl_lattice.specs.Members.{is_member};
ghost use Rattle.cl_ptext.specs.Answers.{Accepts, IfObject};
ghost use Rattle.cl_ptext.specs.Methods.{predicates_of};
ghost use Rattle.cl_ptext.specs.Presenting.{book_of};
ghost use Rattle.cl_ptext.specs.Readings.{reading};

use crate::books::TypeBook;
use crate::hosts::Hosts;
use crate::reading::Reader;
use cl_eval::{Slots, Stop};
use cl_lattice::Bound;
use cl_syntax::TypeSpec;
use cl_value::Value;

/// What a text is read as.
#[derive(Drop)]
pub enum Accepted {
    Object(Value),
    /// It reads as nothing.
    Refused,
    /// An accept method ended with a trap of this kind.
    Trap(u8),
    /// There was no memory.
    Memory,
}

impl<H: Hosts> TypeBook<'_, H> {
    /// What a text reads as by a type, on these slots. An object is a member of the type; accept methods and predicates run on
    /// counters of their own, each with 10,000 forms.
    #[tactic(auto, using(crate::proofs::ReadingLemmas::read_member))]
    pub fn accept(&self, spec: &TypeSpec, text: &[u8], slots: &Slots) -> Accepted
        ensures reading { Accepts result (reading (book_of H.entries self.now) slots.now (expansion self.now.lattice.now [] spec.now) spec.now text.now) }
        ensures member { IfObject result (λ d. is_member self.now.lattice.now (predicates_of self.now.app.now) d (expansion self.now.lattice.now [] spec.now) ≡ true) }
    {
        let reader = Reader { book: self, slots };
        match reader.read(spec, &Bound::Nothing, text) {
            Ok(Some(value)) => Accepted::Object(value),
            Ok(None) => Accepted::Refused,
            Err(Stop::Trap(kind)) => Accepted::Trap(kind),
            Err(Stop::Memory) => Accepted::Memory,
        }
    }
}
