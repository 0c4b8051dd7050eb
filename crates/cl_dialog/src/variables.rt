//! The variables that stand for the queries of a dialog.
ghost use Rattle.std.specs.Prelude.{◌≡◌, IfOk, map, option_map};
ghost use Rattle.cl_dialog.specs.Held.{query_of};
ghost use Rattle.cl_dialog.specs.Variables.{form_env, or_null, values_env};
ghost use Rattle.cl_value.specs.Value.{data_of};

use crate::dialogs::Query;
use cl_dialog_forms::set_name;
use cl_eval::Env;
use cl_value::Value;
use std::alloc::{AllocError, Global};

/// Each query's name with its value, null where it is unset.
pub(crate) fn values_env(alloc: Global, queries: &[Query]) -> Result<Env, AllocError>
    ensures { IfOk result (λ e. e ≡ values_env (map query_of queries.now)) }
{
    let Some((first, rest)) = queries.split_first() else {
        return Ok(Env::new(alloc));
    };
    let mut env = values_env(alloc, rest)?;
    env.bind(first.name.copy()?, or_null(&first.value)?)?;
    Ok(env)
}

/// The same, each before the variable that tells whether it is set.
pub(crate) fn form_env(alloc: Global, queries: &[Query]) -> Result<Env, AllocError>
    ensures { IfOk result (λ e. e ≡ form_env (map query_of queries.now)) }
{
    let Some((first, rest)) = queries.split_first() else {
        return Ok(Env::new(alloc));
    };
    let mut env = form_env(alloc, rest)?;
    let set = set_name(alloc, first.name.as_slice())?;
    env.bind(set, Value::Bool(first.value.is_some()))?;
    env.bind(first.name.copy()?, or_null(&first.value)?)?;
    Ok(env)
}

// The value of a query, null where it is unset.
fn or_null(value: &Option<Value>) -> Result<Value, AllocError>
    ensures { IfOk result (λ v. data_of v ≡ or_null (option_map data_of value.now)) }
{
    match value {
        Some(value) => Ok(value.copy()?),
        None => Ok(Value::Null),
    }
}
