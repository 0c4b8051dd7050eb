//! What an application's types say of values.
ghost use Rattle.std.specs.Prelude.{◌≡◌, ◌≤◌, IfOk, option_map};
ghost use Rattle.cl_value.specs.Value.{data_of};
ghost use Rattle.cl_eval.specs.Outcome.{RisesBy, cost_of};
ghost use Rattle.cl_eval.specs.Evaluated.{Evaluates, met_memory};
ghost use Rattle.cl_eval.specs.Executed.{Decides};

use crate::evaluating::Evaluated;
use crate::metering::Limits;
use crate::slot_table::Slots;
use cl_outside::{Ledger, Steps};
use cl_syntax::TypeSpec;
use cl_value::{Held, Text, Value};
use std::alloc::AllocError;

/// The types of an application. Which values are members of a type depends on the value and the type alone. The laws say what
/// the texts of values keep to, and that what a text reads as is a member.
pub trait Types {
    ghost use Rattle.cl_application.specs.declared.applications.App.{App};
    ghost use Rattle.cl_eval.specs.Statements.{Member};
    ghost use Rattle.cl_eval.specs.TypeMeanings.{AreObjects, AreTexts, Hierarchy, Presents, Reads};

    // the application that declares them
    ghost app: { Self → App };

    // whether a value is a member of a type
    ghost holds: { Self → Member };

    // the text of a value by a type, on these slots
    ghost presents: { Self → Presents };

    // the object that a text reads as by a type, on these slots
    ghost reads: { Self → Reads };

    // which types stand above which
    ghost hierarchy: { Self → Hierarchy };

    /// Whether a value is a member of a type, as far as there is memory to find it.
    fn member(&self, value: &Value, spec: &TypeSpec) -> Held
        ensures { Decides result (holds self.now (data_of value.now) spec.now) };

    /// The text of a value by a type, on these slots, with its cost and its reach, as far as there is memory for it. Each form
    /// that is entered is a step.
    fn text<'x, L: Ledger>(
        &'x self,
        value: &Value,
        spec: &TypeSpec,
        slots: &'x Slots,
        limits: Limits,
        steps: &mut Steps<L>,
    ) -> Evaluated
        requires { limits.depth ≤ 512 }
        ensures meaning { Evaluates result
            (presents self.now limits slots.now spec.now (data_of value.now)) }
        ensures ledger { RisesBy (met_memory result) steps.old steps.new
            (cost_of (presents self.now limits slots.now spec.now (data_of value.now))) };

    /// The object that a text reads as by a type, on these slots; None where it reads as nothing, or an accept method ends with a
    /// trap.
    fn read(&self, text: &[u8], spec: &TypeSpec, slots: &Slots) -> Result<Option<Value>, AllocError>
        ensures { IfOk result (λ o. option_map data_of o ≡ reads self.now slots.now spec.now text.now) };

    /// The precedence list of a type, by its name: the names of the types above it, the nearest first and its own in front; no names
    /// where there is no such type.
    fn precedence(&self, name: &[u8]) -> &[Text]
        ensures { result.now ≡ (hierarchy self.now).precedence name.now };

    /// Whether the first type is a subtype of the second.
    fn subtype(&self, first: &TypeSpec, second: &TypeSpec) -> bool
        ensures { result ≡ (hierarchy self.now).subtype first.now second.now };

    ghost are_texts: { (t : Self) → AreTexts (app t) (presents t) };

    ghost are_objects: { (t : Self) → AreObjects (holds t) (reads t) };
}
