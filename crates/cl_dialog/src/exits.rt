//! What the exit from a dialog comes to.
ghost use Rattle.std.specs.Prelude.{◌≡◌, IfOk, Some, map, option_map};
ghost use Rattle.cl_dialog.specs.Exits.{Unset, exit_of, given, is_true, shown, value_of};
ghost use Rattle.cl_dialog.specs.Held.{Exits, query_of};
ghost use Rattle.cl_value.specs.Value.{data_of};

use crate::dialogs::{Dialog, Query, copy_of};
use crate::variables::values_env;
use cl_application::{App, DialogDecl, QueryDecl};
use cl_dialog_forms::declared;
use cl_eval::{Evaluated, OWN_LIMITS, Slots, eval};
use cl_outside::own_steps;
use cl_parser::closed_value;
use cl_value::{Text, Value, Values};
use std::alloc::{AllocError, Global};

/// What the exit from a dialog comes to.
#[derive(Drop)]
pub enum Exit {
    /// The command runs with these arguments.
    Arguments(Values),
    /// This query is the first that is shown and has no value.
    Unset(Text),
    /// Memory was wanting.
    Memory,
}

impl Dialog {
    /// What the exit comes to on these slots, by the dialog's declaration: the value of each query that is shown, and of each
    /// other what stands for it, evaluated anew.
    pub fn exit(&self, alloc: Global, app: &App, dialog: &DialogDecl, slots: &Slots) -> Exit
        ensures { Exits result (exit_of app.now dialog.now slots.now self.now) }
    {
        let mut values = Values::new(alloc);
        for place in 0..dialog.queries.len() {
            let query = declared(&dialog.queries, place);
            let Ok(given) = given(alloc, app, slots, self.queries(), query) else {
                return Exit::Memory;
            };
            let Some(value) = given else {
                return unset(query);
            };
            if values.push(value).is_err() {
                return Exit::Memory;
            }
        }
        Exit::Arguments(values)
    }
}

// This query is unset.
fn unset(query: &QueryDecl) -> Exit
    ensures { Exits result (Unset query.now.name) }
{
    match query.name.copy() {
        Ok(name) => Exit::Unset(name),
        Err(_) => Exit::Memory,
    }
}

// What a query gives: its value, or what stands for it where it is not shown.
fn given(
    alloc: Global,
    app: &App,
    slots: &Slots,
    queries: &[Query],
    query: &QueryDecl,
) -> Result<Option<Value>, AllocError>
    ensures { IfOk result (λ o. option_map data_of o ≡ given app.now slots.now (map query_of queries.now) query.now) }
{
    if is_shown(alloc, app, slots, queries, query)? {
        return value_of(queries, query.name.as_slice());
    }
    match &query.condition {
        Some(condition) => closed_value(alloc, app, &condition.otherwise),
        None => Ok(None),
    }
}

// Whether a query is shown.
fn is_shown(
    alloc: Global,
    app: &App,
    slots: &Slots,
    queries: &[Query],
    query: &QueryDecl,
) -> Result<bool, AllocError>
    ensures { IfOk result (λ b. b ≡ shown app.now slots.now (map query_of queries.now) query.now) }
{
    let Some(condition) = &query.condition else {
        return Ok(true);
    };
    let env = values_env(alloc, queries)?;
    let mut steps = own_steps();
    match eval(
        alloc,
        app,
        &condition.when,
        &env,
        slots,
        OWN_LIMITS,
        &mut steps,
    ) {
        Evaluated::Value(value, _, _) => Ok(is_true(&value)),
        Evaluated::Trap(_, _) => Ok(false),
        Evaluated::Memory => Err(AllocError),
    }
}

// Whether a value is true.
fn is_true(value: &Value) -> bool
    ensures { result ≡ is_true (Some (data_of value.now)) }
{
    match value {
        Value::Bool(truth) => *truth,
        _ => false,
    }
}

// The value of the query of this name, if it is set.
fn value_of(queries: &[Query], name: &[u8]) -> Result<Option<Value>, AllocError>
    ensures { IfOk result (λ o. option_map data_of o ≡ value_of name.now (map query_of queries.now)) }
{
    let Some((first, rest)) = queries.split_first() else {
        return Ok(None);
    };
    if first.name.as_slice() == name {
        return copy_of(&first.value);
    }
    value_of(rest, name)
}
