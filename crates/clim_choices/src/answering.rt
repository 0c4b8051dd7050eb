//! Answers the questions on an application.
use crate::asking::answer_all;
use crate::faults::Fault;
use crate::sheets::Sheet;
use cl_application::App;
use cl_eval::Types;
use cl_host::{month_number, shipped_types, weekday_number};
use cl_load::{Loaded, load};
use cl_ptext::{HostTypes, Hosts, TypeBook};
use cl_session::{accessible_of, enabled_of};
use cl_tables::Enabled;
use cl_translate::Chooser;
use cl_value::Text;
use std::alloc::{AllocError, Global};

/// The answers to the questions of a sheet, a line each.
pub fn answer_sheet(alloc: Global, sheet: &Sheet) -> Result<String, Fault> {
    let day = Box::new(alloc, |text: &[u8]| weekday_number(text))?;
    let month = Box::new(alloc, |text: &[u8]| month_number(text))?;
    let types = shipped_types(alloc, day, month)?;
    let hosts = HostTypes { types: &types };
    let loaded = load(alloc, sheet.application.as_bytes(), &hosts)?;
    answer_loaded(alloc, &loaded, &hosts, sheet)
}

fn answer_loaded<H: Hosts>(
    alloc: Global,
    loaded: &Loaded,
    hosts: &H,
    sheet: &Sheet,
) -> Result<String, Fault> {
    let book = TypeBook::new(alloc, &loaded.app, &loaded.lattice, hosts);
    answer_with_types(alloc, loaded, &book, sheet)
}

fn answer_with_types<T: Types>(
    alloc: Global,
    loaded: &Loaded,
    types: &T,
    sheet: &Sheet,
) -> Result<String, Fault> {
    let accessible = accessible_of(alloc, &loaded.app)?;
    let enabled = enabled_without(alloc, &loaded.app, sheet.disabled.as_slice())?;
    let chooser = Chooser {
        alloc,
        app: &loaded.app,
        types,
        slots: &loaded.slots,
        tables: &accessible.tables,
        enabled: &enabled,
        translators: &accessible.translators,
    };
    answer_all(&chooser, sheet.questions.as_slice())
}

// All commands enabled, but for these.
fn enabled_without(alloc: Global, app: &App, disabled: &[&str]) -> Result<Enabled, AllocError> {
    let mut enabled = enabled_of(alloc, app)?;
    let mut switches = Vec::new(alloc);
    for command in disabled {
        switches.push((Text::from_slice(alloc, command.as_bytes())?, false))?;
    }
    enabled.apply(switches.as_slice());
    Ok(enabled)
}
