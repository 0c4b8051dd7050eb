//! Presentations: the opening, the end, and the texts of objects, after the CLIM II specification's `present`.
ghost use Rattle.std.specs.Prelude.{◌≡◌, ◌+◌, ◌≤◌, false, IfOk, Ok};
ghost use Rattle.cl_value.specs.Value.{data_of};
ghost use Rattle.cl_eval.specs.Agrees.{Agrees, Comes, always, itself};
ghost use Rattle.cl_display.specs.Drawings.{drawing_of, part_of};
ghost use Rattle.cl_display.specs.Fresh.{for_members, presents_text};
ghost use Rattle.cl_display.specs.Place.{texts_at};
ghost use Rattle.cl_display.specs.Presentations.{check_member, enter_presentation, label_of, leave_presentation, present_text, presented_part};

use crate::drawings::{Drawing, heavier};
use crate::parts::Part;
use crate::places::Place;
use cl_eval::{Evaluated, Limits, Meter, Stop, Types};
use cl_outside::{Ledger, Steps, own_steps};
use cl_record::{Label, Node, Nodes};
use cl_syntax::TypeSpec;
use cl_value::{Held, Value};
use std::alloc::{AllocError, Global};
use std::rc::Rc;

impl Part {
    // Seen from outside: what was drawn in it presents the object of the label.
    fn presented(self, alloc: Global, label: Label) -> Result<Part, AllocError>
        ensures { IfOk result (λ p. part_of p ≡ presented_part label (part_of self)) }
    {
        let mut nodes = Nodes::new(alloc);
        nodes.push(Node::presentation(alloc, label, self.nodes)?)?;
        Ok(Part { nodes, ..self })
    }
}

impl Drawing {
    /// Opens a presentation of this object, where all together does not weigh more than the most: a new part, at the cursor. It
    /// gives the part before.
    pub fn enter_presentation(
        &mut self,
        alloc: Global,
        most: u64,
        object: &Value,
    ) -> Result<Part, Stop>
        ensures inside { Comes (always (drawing_of self.new)) result
            (enter_presentation most (data_of object.now) (drawing_of self.old)) }
        ensures outer { IfOk result (λ outer. part_of outer ≡ (drawing_of self.old).part) }
    {
        let Some(weight) = object.size().checked_add(1) else {
            return Err(Stop::Trap(10));
        };
        let Some(whole) = heavier(most, self.weight, weight) else {
            return Err(Stop::Trap(10));
        };
        self.weight = whole;
        Ok(self.start(alloc))
    }

    /// Ends a presentation with this label: what was drawn in it stands behind the part around it.
    pub fn leave_presentation(
        &mut self,
        alloc: Global,
        label: Label,
        outer: Part,
    ) -> Result<(), Stop>
        ensures { Comes (always (drawing_of self.new)) result
            (Ok (leave_presentation label (part_of outer) (drawing_of self.old))) }
    {
        let inner = std::mem::replace(&mut self.part, outer);
        self.part.join(inner.presented(alloc, label)?)
    }
}

impl Drawing {
    // A text at the cursor that presents an object of this type.
    fn present(
        &mut self,
        alloc: Global,
        most: u64,
        object: Value,
        spec: &Rc<TypeSpec>,
        text: &Value,
    ) -> Result<(), Stop>
        ensures { Comes (always (drawing_of self.new)) result
            (present_text most (label_of spec.now.value false (data_of object)) (drawing_of self.old) (data_of text.now)) }
    {
        let outer = self.enter_presentation(alloc, most, &object)?;
        self.write(most, text)?;
        self.leave_presentation(alloc, Label::new(object, spec.clone()?, false), outer)
    }
}

/// Nothing, where a value is a member of a type, and else the trap.
pub fn check_member<T: Types>(types: &T, value: &Value, spec: &TypeSpec) -> Result<(), Stop>
    ensures { Comes itself result (check_member (T.holds types.now) spec.now (data_of value.now)) }
{
    match types.member(value, spec) {
        Held::Yes => Ok(()),
        Held::No => Err(Stop::Trap(1)),
        Held::Memory => Err(Stop::Memory),
    }
}

// So many steps.
fn count_on<L: Ledger>(steps: &mut Steps<L>, count: u64)
    ensures { steps.new ≡ steps.old + count }
{
    'ticks: for _tick in 0..count {
        steps.tick();
    }
}

/// The text of a value at this place. It is counted by itself first, which tells how many forms were entered, also where memory
/// was wanting; then so many steps are made.
pub fn text_at<T: Types, L: Ledger>(
    place: &Place<'_, T>,
    value: &Value,
    spec: &TypeSpec,
    meter: &mut Meter,
    steps: &mut Steps<L>,
) -> Result<Value, Stop>
    requires { place.now.here.level + place.now.here.left ≤ 512 }
    ensures meaning { Agrees data_of result meter.new
        (texts_at T.holds T.presents place.now place.now.here.level spec.now (data_of value.now) meter.old.cost
        meter.old.deepest) }
    ensures ledger { steps.new + meter.old.cost ≡ steps.old + meter.new.cost }
{
    let here = &place.here;
    let limits = Limits {
        budget: here.context.budget.saturating_sub(meter.cost),
        depth: here.left,
    };
    let mut own = own_steps();
    let text = place
        .types
        .text(value, spec, here.context.slots, limits, &mut own);
    let spent = own.ledger().seen();
    count_on(steps, spent);
    meter.cost += spent;
    match text {
        Evaluated::Value(text, _, reach) => {
            meter.deepest = meter.deepest.max(here.level + reach);
            Ok(text)
        }
        Evaluated::Trap(kind, _) => Err(Stop::Trap(kind)),
        Evaluated::Memory => Err(Stop::Memory),
    }
}

/// The text of an object as what presents it, where the object is a member of the type.
pub fn present<T: Types, L: Ledger>(
    place: &Place<'_, T>,
    object: Value,
    spec: &Rc<TypeSpec>,
    drawing: &mut Drawing,
    meter: &mut Meter,
    steps: &mut Steps<L>,
) -> Result<(), Stop>
    requires { place.now.here.level + place.now.here.left ≤ 512 }
    ensures meaning { Agrees (always (drawing_of drawing.new)) result meter.new
        (for_members (T.holds place.now.types.now) spec.now.value (data_of object)
        (presents_text place.now.max_weight (texts_at T.holds T.presents place.now) place.now.here.level spec.now.value
        (drawing_of drawing.old) (data_of object)) meter.old.cost
        meter.old.deepest).outcome }
    ensures ledger { steps.new + meter.old.cost ≡ steps.old + meter.new.cost }
{
    check_member(place.types, &object, spec)?;
    let text = text_at(place, &object, spec, meter, steps)?;
    drawing.present(
        place.here.context.alloc,
        place.max_weight,
        object,
        spec,
        &text,
    )
}
