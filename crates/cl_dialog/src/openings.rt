//! How dialogs open.
ghost use Rattle.std.specs.Prelude.{◌≡◌, IfOk, map, option_map};
ghost use Rattle.cl_dialog.specs.Held.{query_of};
ghost use Rattle.cl_dialog.specs.Opened.{opened_query, opening_value};
ghost use Rattle.cl_dialog_forms.specs.Forms.{arguments_of, queries_of};
ghost use Rattle.cl_table.specs.Names.{named};
ghost use Rattle.cl_value.specs.Value.{data_of};

use crate::dialogs::Query;
use cl_application::{App, DialogDecl, QueryDecl};
use cl_dialog_forms::{argument_of, declared};
use cl_parser::default_value;
use cl_value::Value;
use std::alloc::{AllocError, Global};

/// The queries of a dialog as it opens: each with the default of its argument, if it has one.
pub(crate) fn opened_queries(
    alloc: Global,
    app: &App,
    dialog: &DialogDecl,
) -> Result<Vec<Query>, AllocError>
    ensures { IfOk result (λ v. map query_of v.items ≡ map (opened_query app.now (arguments_of app.now dialog.now)) (queries_of dialog.now)) }
{
    let mut queries = Vec::new(alloc);
    for place in 0..dialog.queries.len() {
        let query = declared(&dialog.queries, place);
        queries.push(opened_query(alloc, app, dialog, query)?)?;
    }
    Ok(queries)
}

// A query with the default of its argument.
fn opened_query(
    alloc: Global,
    app: &App,
    dialog: &DialogDecl,
    query: &QueryDecl,
) -> Result<Query, AllocError>
    ensures { IfOk result (λ q. query_of q ≡ opened_query app.now (arguments_of app.now dialog.now) query.now) }
{
    Ok(Query {
        name: query.name.copy()?,
        value: opening_value(alloc, app, dialog, query.name.as_slice())?,
    })
}

// The default of the argument of this name, if there are both.
fn opening_value(
    alloc: Global,
    app: &App,
    dialog: &DialogDecl,
    name: &[u8],
) -> Result<Option<Value>, AllocError>
    ensures { IfOk result (λ o. option_map data_of o ≡ opening_value app.now (named name.now (arguments_of app.now dialog.now))) }
{
    match argument_of(app, dialog, name) {
        Some(argument) => default_value(alloc, app, argument),
        None => Ok(None),
    }
}
