//! The types of an application, with counts of what they are asked.
ghost use Rattle.std.specs.Prelude.{◌≡◌};

use cl_eval::{Evaluated, Limits, Slots, Types};
use cl_outside::{Ledger, Steps};
use cl_syntax::TypeSpec;
use cl_value::{Held, Text, Value};
use std::alloc::AllocError;
use std::cell::Cell;

/// The same types, and how many times it was asked whether a value is a member of one, and for the text of a value.
#[derive(Drop)]
pub struct Counting<'a, T: Types> {
    types: &'a T,
    members: Cell<u64>,
    texts: Cell<u64>,
}

impl<'a, T: Types> Counting<'a, T> {
    /// These types, of which nothing was asked.
    pub fn new(types: &'a T) -> Counting<'a, T>
        ensures { result.types.now ≡ types.now }
    {
        Counting {
            types,
            members: Cell::new(0),
            texts: Cell::new(0),
        }
    }

    /// How many times it was asked whether a value is a member of a type.
    pub fn members(&self) -> u64 {
        self.members.get()
    }

    /// How many times it was asked for the text of a value.
    pub fn texts(&self) -> u64 {
        self.texts.get()
    }
}

// One more.
fn count(cell: &Cell<u64>) {
    cell.set(cell.get().saturating_add(1));
}

impl<T: Types> Types for Counting<'_, T> {
    ghost app = { λ c. T.app c.types.now };

    ghost holds = { λ c. T.holds c.types.now };

    ghost presents = { λ c. T.presents c.types.now };

    ghost reads = { λ c. T.reads c.types.now };

    ghost hierarchy = { λ c. T.hierarchy c.types.now };

    ghost are_texts = { λ c. T.are_texts c.types.now };

    ghost are_objects = { λ c. T.are_objects c.types.now };

    fn member(&self, value: &Value, spec: &TypeSpec) -> Held {
        count(&self.members);
        self.types.member(value, spec)
    }

    fn text<'x, L: Ledger>(
        &'x self,
        value: &Value,
        spec: &TypeSpec,
        slots: &'x Slots,
        limits: Limits,
        steps: &mut Steps<L>,
    ) -> Evaluated {
        count(&self.texts);
        self.types.text(value, spec, slots, limits, steps)
    }

    fn read(
        &self,
        text: &[u8],
        spec: &TypeSpec,
        slots: &Slots,
    ) -> Result<Option<Value>, AllocError> {
        self.types.read(text, spec, slots)
    }

    fn precedence(&self, name: &[u8]) -> &[Text] {
        self.types.precedence(name)
    }

    fn subtype(&self, first: &TypeSpec, second: &TypeSpec) -> bool {
        self.types.subtype(first, second)
    }
}
