//! The opening values of the slots, and with what stands for arguments whether they fit their types.
ghost use Rattle.std.specs.Prelude.{◌≡◌, Some};
ghost use Rattle.cl_eval.specs.Evaluated.{Evaluates};
ghost use Rattle.cl_opening.specs.Opening.{constant_of, opening_of, IsMemberOf, OpensSlots, OpensValue, OpensValues};
ghost use Rattle.cl_phases.specs.Earlier.{earlier};
ghost use Rattle.cl_value.specs.Value.{data_of};

use crate::elses::first_unfit_constant;
use cl_application::{App, SlotDecl};
use cl_eval::{Env, Evaluated, OWN_LIMITS, Slots, Types, eval};
use cl_forms::FormRefusal;
use cl_outside::own_steps;
use cl_syntax::Expr;
use cl_value::{Held, Value};
use std::alloc::Global;

/// The slots with their opening values, or the refusal of the first opening value, default or `:else` that traps
/// or is no member of its type.
#[tactic(auto, unfolding(crate::specs::Opening::first_unfit))]
pub fn opening_slots<T: Types>(alloc: Global, app: &App, types: &T) -> Result<Slots, FormRefusal>
    ensures { OpensSlots result (T.holds types.now) app.now }
{
    let constant = first_unfit_constant(alloc, app, types)?;
    match opening_values(alloc, app, types) {
        Ok(slots) => match constant {
            None => Ok(slots),
            Some(at) => Err(FormRefusal::Refused(12, at)),
        },
        Err(FormRefusal::Refused(number, at)) => {
            Err(FormRefusal::Refused(number, at_first(constant, at)))
        }
        Err(FormRefusal::Memory) => Err(FormRefusal::Memory),
    }
}

/// The slots with their opening values, or the refusal of the first value that traps or is no
/// member of its slot's type.
#[tactic(auto, using(crate::proofs::OpeningLemmas::unfit_next, crate::proofs::OpeningLemmas::opened_next))]
fn opening_values<T: Types>(alloc: Global, app: &App, types: &T) -> Result<Slots, FormRefusal>
    ensures { OpensValues result (T.holds types.now) app.now }
{
    let declared = &app.frame.slots;
    let mut slots = Slots::new(alloc);
    for place in 0..declared.len() {
        let Some(slot) = declared.at(place) else {
            unreachable!()
        };
        let value = opening_value(alloc, app, types, slot)?;
        slots.put(slot.name.copy()?, value)?;
    }
    Ok(slots)
}

/// The opening value of a slot, where it is a member of the slot's type.
fn opening_value<T: Types>(
    alloc: Global,
    app: &App,
    types: &T,
    slot: &SlotDecl,
) -> Result<Value, FormRefusal>
    ensures { OpensValue result (T.holds types.now) (opening_of app.now slot.now) slot.now }
{
    match constant(alloc, app, &slot.opening) {
        Evaluated::Value(value, _, _) => member(types, value, slot),
        Evaluated::Trap(_, _) => Err(FormRefusal::Refused(12, slot.opening_at)),
        Evaluated::Memory => Err(FormRefusal::Memory),
    }
}

/// The value, where it is a member of the slot's type.
fn member<T: Types>(types: &T, value: Value, slot: &SlotDecl) -> Result<Value, FormRefusal>
    ensures { IsMemberOf result (T.holds types.now) (data_of value) slot.now }
{
    match types.member(&value, &slot.spec) {
        Held::Yes => Ok(value),
        Held::No => Err(FormRefusal::Refused(12, slot.opening_at)),
        Held::Memory => Err(FormRefusal::Memory),
    }
}

/// What an expression without slots and variables comes to.
pub fn constant(alloc: Global, app: &App, expr: &Expr) -> Evaluated
    ensures { Evaluates result (constant_of app.now expr.now) }
{
    let env = Env::new(alloc);
    let slots = Slots::new(alloc);
    let mut steps = own_steps();
    eval(alloc, app, expr, &env, &slots, OWN_LIMITS, &mut steps)
}

/// The lesser of two offsets, of which the first may not be there.
fn at_first(first: Option<u32>, second: u32) -> u32
    ensures { earlier (Some second) first ≡ Some result }
{
    match first {
        None => second,
        Some(at) => second.min(at),
    }
}
