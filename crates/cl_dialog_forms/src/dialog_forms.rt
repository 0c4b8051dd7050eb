//! The form of a dialog.
ghost use Rattle.std.specs.Prelude.{◌≡◌, ◌++◌, IfOk, OnOk, Some, option_map};
ghost use Rattle.cl_value.specs.Data.{symbol};
ghost use Rattle.cl_syntax.specs.ExprTree as expr;
ghost use Rattle.cl_table.specs.Names.{named};
ghost use Rattle.cl_syntax.specs.ShapeTree.{shape_trees_of};
ghost use Rattle.cl_dialog_forms.specs.Caches.{cache_of};
ghost use Rattle.cl_dialog_forms.specs.Forms.{arguments_of, dialog_form, query_form, query_form_if, under};

use crate::caches::cache_of;
use crate::copies::copied;
use crate::lines::{add_exit, query_line};
use crate::places::declared;
use cl_application::{App, ArgumentDecl, DialogDecl, QueryDecl};
use cl_syntax::{Expr, Shape, Shapes, Site, Update};
use cl_value::{Text, Value};
use std::alloc::{AllocError, Global};

/// The form of a dialog: each query with its value, and then the choices to exit and to abort. More queries than 32 bits can number
/// count as want of memory.
pub(crate) fn dialog_form(
    alloc: Global,
    app: &App,
    dialog: &DialogDecl,
) -> Result<Shapes, AllocError>
    ensures { IfOk result (λ form. form ≡ dialog_form app.now dialog.now) }
{
    let mut forms = Shapes::new(alloc);
    for place in 0..dialog.queries.len() {
        let Ok(number) = u32::try_from(place + 1) else {
            return Err(AllocError);
        };
        let query = declared(&dialog.queries, place);
        add_query(alloc, app, dialog, number, query, &mut forms)?;
    }
    add_exit(alloc, &mut forms)?;
    Ok(forms)
}

/// Puts the form of a query of this number behind the others, where the command has such an argument.
fn add_query(
    alloc: Global,
    app: &App,
    dialog: &DialogDecl,
    number: u32,
    query: &QueryDecl,
    forms: &mut Shapes,
) -> Result<(), AllocError>
    ensures { OnOk result (forms.new ≡ forms.old ++ query_form_if app.now dialog.now number query.now (named query.now.name (arguments_of app.now dialog.now))) }
{
    if let Some(argument) = argument_of(app, dialog, query.name.as_slice()) {
        forms.push(query_form(alloc, app, dialog, number, query, argument)?)?;
    }
    Ok(())
}

/// The argument of that name of a dialog's command.
pub fn argument_of<'a>(app: &'a App, dialog: &DialogDecl, name: &[u8]) -> Option<&'a ArgumentDecl>
    ensures { option_map (λ a. a.now) result ≡ named name.now (arguments_of app.now dialog.now) }
{
    match app.command(dialog.command.as_slice()) {
        Some(command) => command.arguments.get(name),
        None => None,
    }
}

/// The form of a query of this number for its argument.
fn query_form(
    alloc: Global,
    app: &App,
    dialog: &DialogDecl,
    number: u32,
    query: &QueryDecl,
    argument: &ArgumentDecl,
) -> Result<Shape, AllocError>
    ensures { IfOk result (λ form. form ≡ query_form app.now dialog.now number query.now argument.now) }
{
    let line = query_line(alloc, &query.name, argument)?;
    let site = Site {
        form: dialog.at,
        query: number,
    };
    let update = line_update(alloc, app, site, &query.name, &line)?;
    under(alloc, query, Shape::update(update, line))
}

/// `:unique-id 'NAME :cache-value (list PATH ...)` with all paths that a line reads.
fn line_update(
    alloc: Global,
    app: &App,
    site: Site,
    name: &Text,
    line: &Shapes,
) -> Result<Update, AllocError>
    ensures { IfOk result (λ update. update ≡ record {
      site = site;
      id = Some (expr.Constant (symbol name.now));
      cache = Some (cache_of app.now (shape_trees_of line.now));
    }) }
{
    let id = Expr::constant(Value::Symbol(name.copy()?));
    let cache = cache_of(alloc, app, line.as_slice())?;
    Ok(Update::new(site, Some(id), Some(cache)))
}

/// A form, where the condition of a query is true, if it has one.
fn under(alloc: Global, query: &QueryDecl, form: Shape) -> Result<Shape, AllocError>
    ensures { IfOk result (λ whole. whole ≡ under query.now.condition form) }
{
    let Some(condition) = &query.condition else {
        return Ok(form);
    };
    let mut body = Shapes::new(alloc);
    body.push(form)?;
    Ok(Shape::when(copied(alloc, &condition.when)?, body))
}
