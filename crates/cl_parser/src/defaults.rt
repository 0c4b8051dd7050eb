//! What an argument of a command is where a line has no token for it.
ghost use Rattle.std.specs.Prelude.{◌≡◌, IfOk, option_map};
ghost use Rattle.cl_parser.specs.Defaults.{closed_value, default_value};
ghost use Rattle.cl_value.specs.Value.{data_of};

use cl_application::{App, ArgumentDecl};
use cl_eval::{Env, Evaluated, OWN_LIMITS, Slots, eval};
use cl_outside::own_steps;
use cl_syntax::Expr;
use cl_value::Value;
use std::alloc::{AllocError, Global};

/// The value of an argument's default, evaluated anew, if it has one that does not trap.
pub fn default_value(
    alloc: Global,
    app: &App,
    argument: &ArgumentDecl,
) -> Result<Option<Value>, AllocError>
    ensures { IfOk result (λ o. option_map data_of o ≡ default_value app.now argument.now) }
{
    match &argument.default {
        Some(default) => closed_value(alloc, app, &default.value),
        None => Ok(None),
    }
}

/// The value of an expression on no slots and no variables, on a counter of its own, unless it traps.
pub fn closed_value(alloc: Global, app: &App, expr: &Expr) -> Result<Option<Value>, AllocError>
    ensures { IfOk result (λ o. option_map data_of o ≡ closed_value app.now expr.now) }
{
    let env = Env::new(alloc);
    let slots = Slots::new(alloc);
    match eval(alloc, app, expr, &env, &slots, OWN_LIMITS, &mut own_steps()) {
        Evaluated::Value(value, _, _) => Ok(Some(value)),
        Evaluated::Trap(_, _) => Ok(None),
        Evaluated::Memory => Err(AllocError),
    }
}
