//! What stands for queries that are not shown.
ghost use Rattle.std.specs.Prelude.{◌≡◌, IfOk, option_map};
ghost use Rattle.cl_opening.specs.Opening.{constant_of, first_unfit_constant, first_unfit_dialog, first_unfit_query, fits_argument, unfit_dialog, unfit_query};

use crate::defaults::{first_unfit_command, is_fit};
use cl_application::{App, ArgumentDecl, ArgumentDecls, DialogDecl, QueryDecl, QueryDecls};
use cl_eval::Types;
use cl_phases::earlier;
use cl_syntax::Expr;
use std::alloc::{AllocError, Global};

/// The offset of the first default or `:else` that traps or is no member of its argument's type.
pub fn first_unfit_constant<T: Types>(
    alloc: Global,
    app: &App,
    types: &T,
) -> Result<Option<u32>, AllocError>
    ensures { IfOk result (λ r. r ≡ first_unfit_constant (T.holds types.now) app.now) }
{
    let default = first_unfit_command(alloc, app, types)?;
    let otherwise = first_unfit_dialog(alloc, app, types)?;
    Ok(earlier(default, otherwise))
}

/// The offset of the first `:else` that traps or is no member of its argument's type.
fn first_unfit_dialog<T: Types>(
    alloc: Global,
    app: &App,
    types: &T,
) -> Result<Option<u32>, AllocError>
    ensures { IfOk result (λ r. r ≡ first_unfit_dialog (T.holds types.now) app.now app.now.dialogs) }
{
    let dialogs = &app.dialogs;
    for place in 0..dialogs.len() {
        let Some(dialog) = dialogs.at(place) else {
            unreachable!()
        };
        let unfit = unfit_dialog(alloc, app, types, dialog)?;
        if let Some(at) = unfit {
            return Ok(Some(at));
        }
    }
    Ok(None)
}

/// That of the first of a dialog's queries.
fn unfit_dialog<T: Types>(
    alloc: Global,
    app: &App,
    types: &T,
    dialog: &DialogDecl,
) -> Result<Option<u32>, AllocError>
    ensures { IfOk result (λ r. r ≡ unfit_dialog (T.holds types.now) app.now dialog.now) }
{
    match app.command(dialog.command.as_slice()) {
        Some(command) => {
            first_unfit_query(alloc, app, types, &command.arguments, &dialog.queries)
        }
        None => {
            let none = ArgumentDecls::new(alloc);
            first_unfit_query(alloc, app, types, &none, &dialog.queries)
        }
    }
}

/// That of the first of these queries, of a command with these arguments.
fn first_unfit_query<T: Types>(
    alloc: Global,
    app: &App,
    types: &T,
    arguments: &ArgumentDecls,
    queries: &QueryDecls,
) -> Result<Option<u32>, AllocError>
    ensures { IfOk result
        (λ r. r ≡ first_unfit_query (T.holds types.now) app.now arguments.now queries.now) }
{
    for place in 0..queries.len() {
        let Some(query) = queries.at(place) else {
            unreachable!()
        };
        if let Some(at) = unfit_query(alloc, app, types, arguments, query)? {
            return Ok(Some(at));
        }
    }
    Ok(None)
}

/// The offset of a query's `:else` that traps or is no member of its argument's type.
fn unfit_query<T: Types>(
    alloc: Global,
    app: &App,
    types: &T,
    arguments: &ArgumentDecls,
    query: &QueryDecl,
) -> Result<Option<u32>, AllocError>
    ensures { IfOk result (λ r. r ≡ unfit_query (T.holds types.now) app.now arguments.now query.now) }
{
    let Some(condition) = &query.condition else {
        return Ok(None);
    };
    let argument = arguments.get(query.name.as_slice());
    if fits_argument(alloc, app, types, &condition.otherwise, argument)? {
        return Ok(None);
    }
    Ok(Some(condition.otherwise_at))
}

/// Whether an expression without slots and variables ends with a member of the argument's type.
fn fits_argument<T: Types>(
    alloc: Global,
    app: &App,
    types: &T,
    expr: &Expr,
    argument: Option<&ArgumentDecl>,
) -> Result<bool, AllocError>
    ensures { IfOk result (λ b. b ≡ fits_argument (T.holds types.now) (constant_of app.now expr.now)
        (option_map (λ a. a.now) argument.entry)) }
{
    match argument {
        Some(argument) => is_fit(alloc, app, types, expr, &argument.spec),
        None => Ok(false),
    }
}
