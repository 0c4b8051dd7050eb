//! Bindings, and the body behind them.
ghost use Rattle.std.specs.Prelude.{◌≡◌, ◌+◌, ◌<◌, ◌^◌, ◌++◌};
ghost use Rattle.cl_value.specs.Value.{data_of};
ghost use Rattle.cl_syntax.specs.Expr.{bindings_of};
ghost use Rattle.cl_eval.specs.Scope.{variables_of};
ghost use Rattle.cl_eval.specs.Meaning.{bind_each, let_in};
ghost use Rattle.cl_eval.specs.Standpoint.{meaning_at};
ghost use Rattle.cl_eval.specs.Agrees.{Agrees};

use crate::evaluation::{Standpoint, evaluate};
use crate::metering::{Meter, Stop};
use crate::variables::{Env, Scope};
use cl_outside::{Ledger, Steps};
use cl_syntax::{Binding, Expr};
use cl_value::Value;

/// The body behind bindings.
#[cycle(evaluate)]
#[inline(never)]
pub fn evaluate_let<L: Ledger>(
    here: &Standpoint<'_>,
    bindings: &[Binding],
    body: &Expr,
    meter: &mut Meter,
    steps: &mut Steps<L>,
) -> Result<Value, Stop>
    requires { here.now.level + here.now.left < 2 ^ 32 }
    ensures meaning { Agrees data_of result meter.new
        (let_in (meaning_at here.now) here.now.level (bindings_of bindings.now) body.now
        (variables_of here.now.scope.now) meter.old.cost meter.old.deepest) }
    ensures ledger { steps.new + meter.old.cost ≡ steps.old + meter.new.cost }
{
    let frame = evaluate_bindings(here, bindings, meter, steps)?;
    let scope = Scope::Frame(&frame, &*here.scope);
    let inner = Standpoint {
        scope: &scope,
        ..*here
    };
    evaluate(&inner, body, meter, steps)
}

/// The variables of bindings, each of which sees the ones before it.
#[cycle(evaluate)]
pub fn evaluate_bindings<L: Ledger>(
    here: &Standpoint<'_>,
    bindings: &[Binding],
    meter: &mut Meter,
    steps: &mut Steps<L>,
) -> Result<Env, Stop>
    requires { here.now.level + here.now.left < 2 ^ 32 }
    ensures meaning { Agrees (λ frame. frame ++ variables_of here.now.scope.now) result meter.new
        (bind_each (meaning_at here.now) here.now.level
        (bindings_of bindings.now) (variables_of here.now.scope.now) meter.old.cost
        meter.old.deepest) }
    ensures ledger { steps.new + meter.old.cost ≡ steps.old + meter.new.cost }
{
    let mut frame = Env::new(here.context.alloc);
    for binding in bindings {
        let scope = Scope::Frame(&frame, &*here.scope);
        let inner = Standpoint {
            scope: &scope,
            ..*here
        };
        let value = evaluate(&inner, &binding.value, meter, steps)?;
        frame.bind(binding.name.copy()?, value)?;
    }
    Ok(frame)
}
