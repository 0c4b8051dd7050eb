//! Dialogs that are open.
ghost use Rattle.std.specs.Prelude.{◌≡◌, IfOk, OnOk, OnErr, map, option_map};
ghost use Rattle.cl_dialog.specs.Held.{query_of};
ghost use Rattle.cl_dialog.specs.Opened.{opened};
ghost use Rattle.cl_dialog.specs.Selected.{selected_type, set_where, with_selected, with_value};
ghost use Rattle.cl_dialog.specs.Variables.{env_of};
ghost use Rattle.cl_dialog_forms.specs.Names.{form_name};
ghost use Rattle.cl_value.specs.Value.{data_of};

use crate::openings::opened_queries;
use crate::variables::form_env;
use cl_application::{App, DialogDecl};
use cl_dialog_forms::{argument_of, form_name};
use cl_eval::Env;
use cl_syntax::TypeSpec;
use cl_value::{Text, Value};
use std::alloc::{AllocError, Global};
use std::marker::Model;

/// A query with its value, if it is set.
#[derive(Drop)]
pub(crate) struct Query {
    pub(crate) name: Text,
    pub(crate) value: Option<Value>,
}

/// A dialog that is open, which contracts see as an `OpenDialog`: its name, its queries with their values, and the query that is
/// selected.
#[derive(Drop)]
pub struct Dialog {
    name: Text,
    /// The name of the display that its form is kept as.
    form: Text,
    queries: Vec<Query>,
    selected: Option<Text>,
    /// The variables of its form.
    env: Env,
}

impl Model for Dialog {
    ghost use Rattle.std.specs.Prelude.{◌≡◌, map};
    ghost use Rattle.cl_dialog.specs.OpenDialog.{OpenDialog, coded_dialog};

    ghost Value = { OpenDialog };

    ghost coded = { coded_dialog };

    ghost use Rattle.cl_dialog.specs.Held.{query_of};
    ghost use Rattle.cl_dialog.specs.Variables.{form_env};
    ghost use Rattle.cl_dialog_forms.specs.Names.{form_name};

    ghost view = { λ d. record { name = d.name; queries = map query_of d.queries.items; selected = d.selected } };

    ghost invariant = { λ d. (d.env ≡ form_env (map query_of d.queries.items)) × (d.form ≡ form_name d.name) };
}

impl Dialog {
    /// A dialog as it opens: each query has the default of its argument, evaluated anew, or is unset, and none is selected.
    pub fn open(alloc: Global, app: &App, dialog: &DialogDecl) -> Result<Dialog, AllocError>
        ensures { IfOk result (λ d. d ≡ opened app.now dialog.now) }
    {
        let queries = opened_queries(alloc, app, dialog)?;
        let env = form_env(alloc, queries.as_slice())?;
        Ok(Dialog {
            name: dialog.name.copy()?,
            form: form_name(alloc, dialog.name.as_slice())?,
            queries,
            selected: None,
            env,
        })
    }

    /// Its name.
    pub fn name(&self) -> &Text
        ensures { result.now ≡ self.now.name }
    {
        &self.name
    }

    /// The name of the display that its form is kept as.
    pub fn form(&self) -> &Text
        ensures { result.now ≡ form_name self.now.name }
    {
        &self.form
    }

    /// The variables of its form: each query's name with its value, or null, and whether it is set.
    pub fn env(&self) -> &Env
        ensures { result.now ≡ env_of self.now }
    {
        &self.env
    }

    /// Its queries.
    pub(crate) fn queries(&self) -> &[Query]
        ensures { map query_of result.now ≡ self.now.queries }
    {
        self.queries.as_slice()
    }

    /// The query that is selected.
    pub fn selected(&self) -> Option<&Text>
        ensures { option_map (λ t. t.now) result ≡ self.now.selected }
    {
        self.selected.as_ref()
    }

    /// Selects a query.
    pub fn select(&mut self, query: Text)
        ensures { self.new ≡ with_selected query self.old }
    {
        self.selected = Some(query);
    }

    /// Sets the value of the selected query; where none is selected, nothing changes.
    pub fn set(&mut self, alloc: Global, value: Value) -> Result<(), AllocError>
        ensures ok { OnOk result (self.new ≡ with_value (data_of value) self.old) }
        ensures err { OnErr result (self.new ≡ self.old) }
    {
        let Some(selected) = &self.selected else {
            return Ok(());
        };
        let queries = with_set(alloc, self.queries.as_slice(), selected.as_slice(), &value)?;
        let env = form_env(alloc, queries.as_slice())?;
        self.queries = queries;
        self.env = env;
        Ok(())
    }

    /// The type of the selected query, by the dialog's declaration and its command's argument; `None` where none is selected.
    pub fn spec<'a>(&self, app: &'a App) -> Option<&'a TypeSpec>
        ensures { option_map (λ t. t.now) result ≡ selected_type app.now self.now }
    {
        let selected = self.selected.as_ref()?;
        let declared = app.dialog(self.name.as_slice())?;
        match argument_of(app, declared, selected.as_slice()) {
            Some(argument) => Some(&argument.spec),
            None => None,
        }
    }
}

// The queries, of which those of this name have this value.
fn with_set(
    alloc: Global,
    queries: &[Query],
    name: &[u8],
    value: &Value,
) -> Result<Vec<Query>, AllocError>
    ensures { IfOk result (λ v. map query_of v.items ≡ map (set_where name.now (data_of value.now)) (map query_of queries.now)) }
{
    let mut all = Vec::new(alloc);
    for query in queries {
        all.push(set_where(query, name, value)?)?;
    }
    Ok(all)
}

// The query, with this value where it has the name.
fn set_where(query: &Query, name: &[u8], value: &Value) -> Result<Query, AllocError>
    ensures { IfOk result (λ q. query_of q ≡ set_where name.now (data_of value.now) (query_of query.now)) }
{
    let held = if query.name.as_slice() == name {
        Some(value.copy()?)
    } else {
        copy_of(&query.value)?
    };
    Ok(Query {
        name: query.name.copy()?,
        value: held,
    })
}

/// The same value, where there is one.
pub(crate) fn copy_of(value: &Option<Value>) -> Result<Option<Value>, AllocError>
    ensures { IfOk result (λ o. option_map data_of o ≡ option_map data_of value.now) }
{
    match value {
        Some(value) => Ok(Some(value.copy()?)),
        None => Ok(None),
    }
}
