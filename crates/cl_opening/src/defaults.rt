//! The defaults of arguments.
ghost use Rattle.std.specs.Prelude.{◌≡◌, IfOk};
ghost use Rattle.cl_opening.specs.Opening.{constant_of, first_unfit_argument, first_unfit_command, is_fit, unfit_argument};

use crate::opening::constant;
use cl_application::{App, ArgumentDecl, ArgumentDecls};
use cl_eval::{Evaluated, Types};
use cl_syntax::{Expr, TypeSpec};
use cl_value::Held;
use std::alloc::{AllocError, Global};

/// The offset of the first default that traps or is no member of its argument's type.
pub fn first_unfit_command<T: Types>(
    alloc: Global,
    app: &App,
    types: &T,
) -> Result<Option<u32>, AllocError>
    ensures { IfOk result (λ r. r ≡ first_unfit_command (T.holds types.now) app.now app.now.commands) }
{
    let commands = &app.commands;
    for place in 0..commands.len() {
        let Some(command) = commands.at(place) else {
            unreachable!()
        };
        let unfit = first_unfit_argument(alloc, app, types, &command.arguments)?;
        if let Some(at) = unfit {
            return Ok(Some(at));
        }
    }
    Ok(None)
}

/// That of the first of these arguments.
fn first_unfit_argument<T: Types>(
    alloc: Global,
    app: &App,
    types: &T,
    arguments: &ArgumentDecls,
) -> Result<Option<u32>, AllocError>
    ensures { IfOk result (λ r. r ≡ first_unfit_argument (T.holds types.now) app.now arguments.now) }
{
    for place in 0..arguments.len() {
        let Some(argument) = arguments.at(place) else {
            unreachable!()
        };
        if let Some(at) = unfit_argument(alloc, app, types, argument)? {
            return Ok(Some(at));
        }
    }
    Ok(None)
}

/// The offset of an argument's default that traps or is no member of its type.
fn unfit_argument<T: Types>(
    alloc: Global,
    app: &App,
    types: &T,
    argument: &ArgumentDecl,
) -> Result<Option<u32>, AllocError>
    ensures { IfOk result (λ r. r ≡ unfit_argument (T.holds types.now) app.now argument.now) }
{
    let Some(default) = &argument.default else {
        return Ok(None);
    };
    if is_fit(alloc, app, types, &default.value, &argument.spec)? {
        return Ok(None);
    }
    Ok(Some(default.at))
}

/// Whether an expression without slots and variables ends with a member of a type.
pub fn is_fit<T: Types>(
    alloc: Global,
    app: &App,
    types: &T,
    expr: &Expr,
    spec: &TypeSpec,
) -> Result<bool, AllocError>
    ensures { IfOk result (λ b. b ≡ is_fit (T.holds types.now) (constant_of app.now expr.now) spec.now) }
{
    match constant(alloc, app, expr) {
        Evaluated::Value(value, _, _) => match types.member(&value, spec) {
            Held::Yes => Ok(true),
            Held::No => Ok(false),
            Held::Memory => Err(AllocError),
        },
        Evaluated::Trap(_, _) => Ok(false),
        Evaluated::Memory => Err(AllocError),
    }
}
