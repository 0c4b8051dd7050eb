//! The forms of dialogs as displays.
ghost use Rattle.std.specs.Prelude.{◌≡◌, IfOk, OnOk, map};
ghost use Rattle.cl_application.specs.Panes.{declared_by};
ghost use Rattle.cl_dialog_forms.specs.Forms.{dialog_display, dialog_displays, parameters_of, queries_of, with_dialog_displays, with_displays};

use crate::dialog_forms::dialog_form;
use crate::names::{form_name, set_name};
use crate::places::declared;
use cl_application::{App, DialogDecl, DisplayDecl, Displays};
use cl_table::Names;
use std::alloc::{AllocError, Global};

/// The application with the forms of its dialogs behind its displays.
pub fn with_dialog_displays(alloc: Global, mut app: App) -> Result<App, AllocError>
    ensures { IfOk result (λ a. a ≡ with_dialog_displays app) }
{
    let displays = dialog_displays(alloc, &app)?;
    add_displays(&mut app.displays, displays)?;
    Ok(app)
}

/// Puts displays behind the others, each where none has its name.
fn add_displays(table: &mut Displays, displays: Vec<DisplayDecl>) -> Result<(), AllocError>
    ensures { OnOk result (table.new ≡ with_displays table.old displays.items) }
{
    for display in displays {
        table.add_first(display)?;
    }
    Ok(())
}

/// The forms of all dialogs, in order of declaration.
fn dialog_displays(alloc: Global, app: &App) -> Result<Vec<DisplayDecl>, AllocError>
    ensures { IfOk result (λ displays. displays.items ≡ dialog_displays app.now) }
{
    let mut displays = Vec::new(alloc);
    for place in 0..app.dialogs.len() {
        let dialog = declared(&app.dialogs, place);
        displays.push(dialog_display(alloc, app, dialog)?)?;
    }
    Ok(displays)
}

/// The form of a dialog as a display.
fn dialog_display(alloc: Global, app: &App, dialog: &DialogDecl) -> Result<DisplayDecl, AllocError>
    ensures { IfOk result (λ display. display ≡ dialog_display app.now dialog.now) }
{
    Ok(DisplayDecl {
        name: form_name(alloc, dialog.name.as_slice())?,
        parameters: parameters_of(alloc, dialog)?,
        body: dialog_form(alloc, app, dialog)?,
        at: dialog.at,
    })
}

/// For each query its value and whether it is set.
fn parameters_of(alloc: Global, dialog: &DialogDecl) -> Result<Names, AllocError>
    ensures { IfOk result (λ names. names ≡ parameters_of (queries_of dialog.now)) }
{
    let mut names = Names::new(alloc);
    for place in 0..dialog.queries.len() {
        let query = declared(&dialog.queries, place);
        names.push(query.name.copy()?)?;
        names.push(set_name(alloc, query.name.as_slice())?)?;
    }
    Ok(names)
}
