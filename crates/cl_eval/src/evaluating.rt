//! The evaluation of one expression by itself.
ghost use Rattle.std.specs.Prelude.{◌≤◌};
ghost use Rattle.cl_eval.specs.Outcome.{RisesBy, cost_of};
ghost use Rattle.cl_eval.specs.Evaluated.{Evaluates, outcome_of_eval, met_memory};

use crate::evaluation::{Context, Standpoint, evaluate};
use crate::metering::{Limits, Meter, Stop};
use crate::slot_table::Slots;
use crate::variables::{Env, Scope};
use cl_application::App;
use cl_outside::{Ledger, Steps};
use cl_syntax::Expr;
use cl_value::Value;
use std::alloc::Global;

/// What an expression comes to.
#[derive(Drop)]
pub enum Evaluated {
    /// Its value; the forms that were entered; the greatest number of them that were entered and not left.
    Value(Value, u64, u32),
    /// The kind of its trap, and the forms that were entered up to it.
    Trap(u8, u64),
    /// There was no memory.
    Memory,
}

/// Evaluates an expression on these variables and slots. Each form that is entered is a step.
#[tactic(auto, unfolding(crate::specs::Evaluated::outcome_of_eval))]
pub fn eval<L: Ledger>(
    alloc: Global,
    app: &App,
    expr: &Expr,
    env: &Env,
    slots: &Slots,
    limits: Limits,
    steps: &mut Steps<L>,
) -> Evaluated
    requires { limits.depth ≤ 512 }
    ensures meaning { Evaluates result (outcome_of_eval limits app.now slots.now env.now expr.now) }
    ensures ledger { RisesBy (met_memory result) steps.old steps.new
        (cost_of (outcome_of_eval limits app.now slots.now env.now expr.now)) }
{
    let context = Context {
        alloc,
        app,
        slots,
        budget: limits.budget,
    };
    let mut meter = Meter::new();
    let scope = Scope::Given(env);
    let here = Standpoint {
        context: &context,
        scope: &scope,
        left: limits.depth,
        level: 0,
    };
    match evaluate(&here, expr, &mut meter, steps) {
        Ok(value) => Evaluated::Value(value, meter.cost, meter.deepest),
        Err(Stop::Trap(kind)) => Evaluated::Trap(kind, meter.cost),
        Err(Stop::Memory) => Evaluated::Memory,
    }
}
