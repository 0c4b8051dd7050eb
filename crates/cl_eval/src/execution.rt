//! Execution of statements.
ghost use Rattle.std.specs.Prelude.{◌≡◌, ◌+◌, ◌<◌, ◌≤◌, ◌^◌, map};
ghost use Rattle.cl_value.specs.Value.{data_of};
ghost use Rattle.cl_syntax.specs.ActTree.{act_trees_of};
ghost use Rattle.cl_syntax.specs.Expr.{bindings_of};
ghost use Rattle.cl_eval.specs.Outcome.{RisesBy, cost_of};
ghost use Rattle.cl_eval.specs.Scope.{variables_of};
ghost use Rattle.cl_eval.specs.Statements.{act_parts, acts_in, for_each, in_turn};
ghost use Rattle.cl_eval.specs.Stage.{doing_on, meaning_on, played_on};
ghost use Rattle.cl_eval.specs.Agrees.{Agrees, always, itself};
ghost use Rattle.cl_eval.specs.Executed.{Executes, met_memory, outcome_of_exec};

use crate::effects::{Effects, open_dialog, reply, switch};
use crate::metering::{Meter, Stop};
use crate::programs::{Program, Stage, assign, frame_of, is_true, list_of, value_of};
use crate::slot_table::Slots;
use crate::types::Types;
use crate::variables::{Env, Scope};
use cl_outside::{Ledger, Steps};
use cl_syntax::{Act, ActKind, Acts, Binding};
use cl_value::{Text, Value};

/// What the statements of a command come to.
#[derive(Drop)]
pub enum Executed {
    /// What they did, and the cost.
    Done(Effects, u64),
    /// The kind of their trap, and the cost up to it.
    Trap(u8, u64),
    /// There was no memory.
    Memory,
}

/// Runs statements on a copy of the slots. Each form that is entered is a step.
#[tactic(auto, unfolding(crate::specs::Executed::outcome_of_exec))]
pub fn exec<T: Types, L: Ledger>(
    program: &Program<'_, T>,
    statements: &Acts,
    env: &Env,
    slots: &Slots,
    steps: &mut Steps<L>,
) -> Executed
    requires { program.now.limits.depth ≤ 512 }
    ensures meaning { Executes result
        (outcome_of_exec program.now.limits program.now.app.now (T.holds program.now.types.now) statements.now
        env.now slots.now) }
    ensures ledger { RisesBy (met_memory result) steps.old steps.new
        (cost_of (outcome_of_exec program.now.limits program.now.app.now (T.holds program.now.types.now)
        statements.now env.now slots.now)) }
{
    let mut meter = Meter::new();
    let mut effects = match Effects::new(program.alloc, slots) {
        Ok(effects) => effects,
        Err(_) => return Executed::Memory,
    };
    let scope = Scope::Given(env);
    let here = Stage {
        program: &*program,
        scope: &scope,
        left: program.limits.depth,
        level: 0,
    };
    match act_all(
        &here,
        statements.as_slice(),
        &mut effects,
        &mut meter,
        steps,
    ) {
        Ok(()) => Executed::Done(effects, meter.cost),
        Err(Stop::Trap(kind)) => Executed::Trap(kind, meter.cost),
        Err(Stop::Memory) => Executed::Memory,
    }
}

// One statement.
#[cycle(act)]
fn act<T: Types, L: Ledger>(
    here: &Stage<'_, T>,
    statement: &Act,
    effects: &mut Effects,
    meter: &mut Meter,
    steps: &mut Steps<L>,
) -> Result<(), Stop>
    requires { here.now.level + here.now.left < 2 ^ 32 }
    ensures meaning { Agrees (always effects.new) result meter.new
        (played_on T.holds here.now itself statement.now effects.old meter.old.cost meter.old.deepest) }
    ensures ledger { steps.new + meter.old.cost ≡ steps.old + meter.new.cost }
{
    meter.enter(here.left, here.program.limits.budget, here.level, steps)?;
    let inner = Stage {
        left: here.left - 1,
        level: here.level + 1,
        ..*here
    };
    act_parts(&inner, statement, effects, meter, steps)
}

// A statement that was entered.
#[cycle(act)]
fn act_parts<T: Types, L: Ledger>(
    here: &Stage<'_, T>,
    statement: &Act,
    effects: &mut Effects,
    meter: &mut Meter,
    steps: &mut Steps<L>,
) -> Result<(), Stop>
    requires { here.now.level + here.now.left < 2 ^ 32 }
    ensures meaning { Agrees (always effects.new) result meter.new
        (played_on T.holds here.now (act_parts here.now.program.now.app.now
        (T.holds here.now.program.now.types.now) (meaning_on here.now)) statement.now
        effects.old meter.old.cost meter.old.deepest) }
    ensures ledger { steps.new + meter.old.cost ≡ steps.old + meter.new.cost }
{
    match &statement.kind {
        ActKind::Setf(name, value) => {
            let value = value_of(here, value, &effects.slots, meter, steps)?;
            assign(here.program, name, value, effects)
        }
        ActKind::Reply(text) => {
            let text = value_of(here, text, &effects.slots, meter, steps)?;
            reply(effects, text)
        }
        ActKind::Switch(command, on) => switch(effects, command, *on),
        ActKind::OpenDialog(dialog) => open_dialog(effects, dialog),
        ActKind::If(choice) => {
            if is_true(here, &choice.test, &effects.slots, meter, steps)? {
                act(here, &choice.then, effects, meter, steps)
            } else {
                act(here, &choice.other, effects, meter, steps)
            }
        }
        ActKind::When(test, body) => {
            if is_true(here, test, &effects.slots, meter, steps)? {
                act_all(here, body.as_slice(), effects, meter, steps)
            } else {
                Ok(())
            }
        }
        ActKind::Let(bindings, body) => act_in(
            here,
            bindings,
            body.as_slice(),
            effects,
            meter,
            steps,
        ),
        ActKind::Dolist(name, list, body) => {
            let list = list_of(here, list, &effects.slots, meter, steps)?;
            act_each(
                here,
                name,
                list.as_slice(),
                body.as_slice(),
                effects,
                meter,
                steps,
            )
        }
        ActKind::Progn(body) => act_all(here, body.as_slice(), effects, meter, steps),
    }
}

// Statements in order.
#[cycle(act)]
fn act_all<T: Types, L: Ledger>(
    here: &Stage<'_, T>,
    statements: &[Act],
    effects: &mut Effects,
    meter: &mut Meter,
    steps: &mut Steps<L>,
) -> Result<(), Stop>
    requires { here.now.level + here.now.left < 2 ^ 32 }
    ensures meaning { Agrees (always effects.new) result meter.new
        (played_on T.holds here.now in_turn (act_trees_of statements.now) effects.old meter.old.cost
        meter.old.deepest) }
    ensures ledger { steps.new + meter.old.cost ≡ steps.old + meter.new.cost }
{
    for statement in statements {
        act(here, statement, effects, meter, steps)?;
    }
    Ok(())
}

// The statements behind bindings.
#[cycle(act)]
fn act_in<T: Types, L: Ledger>(
    here: &Stage<'_, T>,
    bindings: &[Binding],
    body: &[Act],
    effects: &mut Effects,
    meter: &mut Meter,
    steps: &mut Steps<L>,
) -> Result<(), Stop>
    requires { here.now.level + here.now.left < 2 ^ 32 }
    ensures meaning { Agrees (always effects.new) result meter.new
        (acts_in (meaning_on here.now effects.old.slots) (doing_on T.holds here.now) here.now.level
        (bindings_of bindings.now) (act_trees_of body.now) (variables_of here.now.scope.now)
        effects.old meter.old.cost meter.old.deepest) }
    ensures ledger { steps.new + meter.old.cost ≡ steps.old + meter.new.cost }
{
    let frame = frame_of(here, bindings, &effects.slots, meter, steps)?;
    let scope = Scope::Frame(&frame, &*here.scope);
    let inner = Stage {
        scope: &scope,
        ..*here
    };
    act_all(&inner, body, effects, meter, steps)
}

// The statements for each of these values.
#[cycle(act)]
fn act_each<T: Types, L: Ledger>(
    here: &Stage<'_, T>,
    name: &Text,
    list: &[Value],
    body: &[Act],
    effects: &mut Effects,
    meter: &mut Meter,
    steps: &mut Steps<L>,
) -> Result<(), Stop>
    requires { here.now.level + here.now.left < 2 ^ 32 }
    ensures meaning { Agrees (always effects.new) result meter.new
        (played_on T.holds here.now for_each name.now (act_trees_of body.now) (map data_of list.now)
        effects.old meter.old.cost meter.old.deepest) }
    ensures ledger { steps.new + meter.old.cost ≡ steps.old + meter.new.cost }
{
    for item in list {
        let scope = Scope::Bound(&*name, item, &*here.scope);
        let inner = Stage {
            scope: &scope,
            ..*here
        };
        act_all(&inner, body, effects, meter, steps)?;
    }
    Ok(())
}
