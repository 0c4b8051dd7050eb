//! What statements ask for: values of expressions on the slots as they are, and slots with new values.
ghost use Rattle.std.specs.Prelude.{◌≡◌, ◌+◌, ◌<◌, ◌^◌, ◌++◌};
ghost use Rattle.cl_value.specs.Value.{data_of};
ghost use Rattle.cl_application.specs.App.{slot_type};
ghost use Rattle.cl_syntax.specs.Expr.{bindings_of};
ghost use Rattle.cl_eval.specs.Scope.{variables_of};
ghost use Rattle.cl_eval.specs.Meaning.{bind_each, parts_of_list, truth_of};
ghost use Rattle.cl_eval.specs.Stage.{meaning_on, seen_on};
ghost use Rattle.cl_eval.specs.Statements.{assign_slot};
ghost use Rattle.cl_eval.specs.Agrees.{Agrees, Comes, always, itself};

use crate::bindings::evaluate_bindings;
use crate::effects::Effects;
use crate::evaluation::{Context, Standpoint, evaluate, evaluate_list, evaluate_test};
use crate::metering::{Limits, Meter, Stop};
use crate::slot_table::Slots;
use crate::types::Types;
use crate::variables::{Env, Scope};
use cl_application::App;
use cl_outside::{Ledger, Steps};
use cl_syntax::{Binding, Expr};
use cl_value::{Held, Text, Value, Values};
use std::alloc::Global;

/// What statements are run in: the application, its types, and how many forms may be entered.
#[derive(Drop)]
pub struct Program<'a, T: Types> {
    pub alloc: Global,
    pub app: &'a App,
    pub types: &'a T,
    pub limits: Limits,
}

/// Where a statement is run: in some program, with the variables in sight, below `level` entered forms, where `left` more
/// levels may be entered.
#[derive(Drop)]
pub struct Stage<'a, T: Types> {
    pub program: &'a Program<'a, T>,
    pub scope: &'a Scope<'a>,
    pub left: u32,
    pub level: u32,
}

impl<'a, T: Types> Stage<'a, T> {
    // What expressions are evaluated in on these slots.
    fn context_on<'b>(&self, slots: &'b Slots) -> Context<'b>
    where
        'a: 'b,
        ensures app { result.app.now ≡ self.now.program.now.app.now }
        ensures slots { result.slots.now ≡ slots.now }
        ensures budget { result.budget ≡ self.now.program.now.limits.budget }
    {
        Context {
            alloc: self.program.alloc,
            app: self.program.app,
            slots,
            budget: self.program.limits.budget,
        }
    }

    // Where expressions are evaluated in this context.
    fn standpoint_in<'b>(&self, context: &'b Context<'b>) -> Standpoint<'b>
    where
        'a: 'b,
        ensures context { result.context.now ≡ context.now }
        ensures scope { result.scope.now ≡ self.now.scope.now }
        ensures left { result.left ≡ self.now.left }
        ensures level { result.level ≡ self.now.level }
    {
        Standpoint {
            context,
            scope: self.scope,
            left: self.left,
            level: self.level,
        }
    }
}

/// The value of an expression on these slots.
pub fn value_of<T: Types, L: Ledger>(
    here: &Stage<'_, T>,
    expr: &Expr,
    slots: &Slots,
    meter: &mut Meter,
    steps: &mut Steps<L>,
) -> Result<Value, Stop>
    requires { here.now.level + here.now.left < 2 ^ 32 }
    ensures meaning { Agrees data_of result meter.new
        (seen_on here.now slots.now itself expr.now meter.old.cost meter.old.deepest) }
    ensures ledger { steps.new + meter.old.cost ≡ steps.old + meter.new.cost }
{
    let context = here.context_on(slots);
    let inner = here.standpoint_in(&context);
    evaluate(&inner, expr, meter, steps)
}

/// Whether an expression is true on these slots.
pub fn is_true<T: Types, L: Ledger>(
    here: &Stage<'_, T>,
    expr: &Expr,
    slots: &Slots,
    meter: &mut Meter,
    steps: &mut Steps<L>,
) -> Result<bool, Stop>
    requires { here.now.level + here.now.left < 2 ^ 32 }
    ensures meaning { Agrees itself result meter.new
        (seen_on here.now slots.now truth_of expr.now meter.old.cost meter.old.deepest) }
    ensures ledger { steps.new + meter.old.cost ≡ steps.old + meter.new.cost }
{
    let context = here.context_on(slots);
    let inner = here.standpoint_in(&context);
    evaluate_test(&inner, expr, meter, steps)
}

/// The list that an expression gives on these slots.
pub fn list_of<T: Types, L: Ledger>(
    here: &Stage<'_, T>,
    expr: &Expr,
    slots: &Slots,
    meter: &mut Meter,
    steps: &mut Steps<L>,
) -> Result<Values, Stop>
    requires { here.now.level + here.now.left < 2 ^ 32 }
    ensures meaning { Agrees itself result meter.new
        (seen_on here.now slots.now parts_of_list expr.now meter.old.cost meter.old.deepest) }
    ensures ledger { steps.new + meter.old.cost ≡ steps.old + meter.new.cost }
{
    let context = here.context_on(slots);
    let inner = here.standpoint_in(&context);
    evaluate_list(&inner, expr, meter, steps)
}

/// The variables of bindings on these slots.
pub fn frame_of<T: Types, L: Ledger>(
    here: &Stage<'_, T>,
    bindings: &[Binding],
    slots: &Slots,
    meter: &mut Meter,
    steps: &mut Steps<L>,
) -> Result<Env, Stop>
    requires { here.now.level + here.now.left < 2 ^ 32 }
    ensures meaning { Agrees (λ frame. frame ++ variables_of here.now.scope.now) result meter.new
        (bind_each (meaning_on here.now slots.now) here.now.level
        (bindings_of bindings.now) (variables_of here.now.scope.now) meter.old.cost
        meter.old.deepest) }
    ensures ledger { steps.new + meter.old.cost ≡ steps.old + meter.new.cost }
{
    let context = here.context_on(slots);
    let inner = here.standpoint_in(&context);
    evaluate_bindings(&inner, bindings, meter, steps)
}

/// A slot with a new value, where that is a member of its type.
pub fn assign<T: Types>(
    program: &Program<'_, T>,
    name: &Text,
    value: Value,
    effects: &mut Effects,
) -> Result<(), Stop>
    ensures { Comes (always effects.new) result
        (assign_slot (T.holds program.now.types.now) name.now (slot_type name.now program.now.app.now)
        effects.old (data_of value)) }
{
    let Some(spec) = program.app.slot_spec(name.as_slice()) else {
        return Err(Stop::Trap(1));
    };
    match program.types.member(&value, spec) {
        Held::Yes => {
            effects.slots.put(name.copy()?, value)?;
            Ok(())
        }
        Held::No => Err(Stop::Trap(1)),
        Held::Memory => Err(Stop::Memory),
    }
}
