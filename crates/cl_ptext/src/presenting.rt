//! What the types of an application say of values: which are members, the text of each by itself, and what a text reads as.
ghost use Rattle.std.specs.Prelude.{◌≡◌};

use crate::accepting::Accepted;
use crate::books::TypeBook;
use crate::hosts::Hosts;
use crate::putting::Writing;
use crate::writing::Presenter;
use cl_eval::{Context, Env, Evaluated, Limits, Meter, Scope, Slots, Standpoint, Stop, Types};
use cl_lattice::Bound;
use cl_outside::{Ledger, Steps};
use cl_syntax::TypeSpec;
use cl_value::{Held, Text, Value};
use std::alloc::AllocError;

impl<'a, H: Hosts> TypeBook<'a, H> {
    // What present methods are evaluated in on these slots.
    fn context_on<'b>(&self, slots: &'b Slots, budget: u64) -> Context<'b>
    where
        'a: 'b,
        ensures app { result.app.now ≡ self.now.app.now }
        ensures slots { result.slots.now ≡ slots.now }
        ensures budget { result.budget ≡ budget }
    {
        Context {
            alloc: self.alloc,
            app: self.app,
            slots,
            budget,
        }
    }
}

impl<H: Hosts> Types for TypeBook<'_, H> {
    ghost use Rattle.std.specs.Prelude.{[]};
    ghost use Rattle.cl_lattice.specs.Expansion.{expansion};
    ghost use Rattle.cl_lattice.specs.Members.{is_member};
    ghost use Rattle.cl_ptext.specs.Methods.{read_object, predicates_of};
    ghost use Rattle.cl_ptext.specs.Presenting.{book_of};
    ghost use Rattle.cl_ptext.specs.Readings.{reading};
    ghost use Rattle.cl_ptext.specs.Texts.{outcome_of_text};

    ghost holds = { λ b d s. is_member b.lattice.now (predicates_of b.app.now) d (expansion b.lattice.now [] s) };

    ghost app = { λ b. b.app.now };

    ghost presents = { λ b limits slots s d. outcome_of_text (book_of H.entries b) limits slots (expansion b.lattice.now [] s) s d };

    ghost reads = { λ b slots s x. read_object (reading (book_of H.entries b) slots (expansion b.lattice.now [] s) s x) };

    ghost use Rattle.cl_ptext.specs.Subtyping.{hierarchy_in};

    ghost hierarchy = { λ b. hierarchy_in b.lattice.now };

    ghost use Rattle.cl_ptext.specs.TextLaws.{book_texts};

    ghost are_texts = { λ b. book_texts (book_of H.entries b) (expansion b.lattice.now []) };

    ghost use Rattle.cl_ptext.specs.ReadingLaws.{book_objects};

    ghost are_objects = { λ b. book_objects (book_of H.entries b) (expansion b.lattice.now []) };

    fn member(&self, value: &Value, spec: &TypeSpec) -> Held {
        self.lattice.member(self.alloc, value, spec, self)
    }

    // Present methods alone enter forms: texts of the standard types cost nothing. Of a value that is no member of the type it
    // gives a text too, or the trap of a method.
    #[tactic(auto, unfolding(crate::specs::Texts::outcome_of_text))]
    fn text<'x, L: Ledger>(
        &'x self,
        value: &Value,
        spec: &TypeSpec,
        slots: &'x Slots,
        limits: Limits,
        steps: &mut Steps<L>,
    ) -> Evaluated {
        let context = self.context_on(slots, limits.budget);
        let nothing = Env::new(self.alloc);
        let scope = Scope::Given(&nothing);
        let here = Standpoint {
            context: &context,
            scope: &scope,
            left: limits.depth,
            level: 0,
        };
        let presenter = Presenter {
            book: &*self,
            here: &here,
        };
        let mut writing = Writing {
            bytes: Vec::new(self.alloc),
            meter: Meter::new(),
        };
        match presenter.write(value, spec, &Bound::Nothing, &mut writing, steps) {
            Ok(()) => match Text::from_vec(self.alloc, writing.bytes) {
                Ok(text) => Evaluated::Value(
                    Value::Text(text),
                    writing.meter.cost,
                    writing.meter.deepest,
                ),
                Err(_) => Evaluated::Memory,
            },
            Err(Stop::Trap(kind)) => Evaluated::Trap(kind, writing.meter.cost),
            Err(Stop::Memory) => Evaluated::Memory,
        }
    }

    fn read(
        &self,
        text: &[u8],
        spec: &TypeSpec,
        slots: &Slots,
    ) -> Result<Option<Value>, AllocError> {
        match self.accept(spec, text, slots) {
            Accepted::Object(value) => Ok(Some(value)),
            Accepted::Refused => Ok(None),
            Accepted::Trap(_) => Ok(None),
            Accepted::Memory => Err(AllocError),
        }
    }

    fn precedence(&self, name: &[u8]) -> &[Text] {
        match self.lattice.precedence(name) {
            Some(names) => names.as_slice(),
            None => &[],
        }
    }

    fn subtype(&self, first: &TypeSpec, second: &TypeSpec) -> bool {
        self.lattice.subtype(first, second)
    }
}
