//! What questions on texts are asked of.
use crate::bodies::{Bodies, slot_in};
use cl_application::{App, FrameDecl, HostDecl, HostDecls};
use cl_eval::Slots;
use cl_forms::{Datum, FormRefusal, name_in, symbol_of};
use cl_lattice::Lattice;
use cl_questions::{Declarations, types_of, value_in};
use cl_table::Table;
use cl_value::Text;
use std::alloc::{AllocError, Global};

/// What questions on texts are asked of: an application, its types, and the values of its slots.
#[derive(Drop)]
pub struct Subject {
    pub app: App,
    pub lattice: Lattice,
    pub slots: Slots,
}

/// What outermost forms declare: records, types, host types, commands, functions, the methods of types, and slots by
/// `(slot NAME VALUE)`. Other forms are left out.
pub fn subject_in(alloc: Global, forms: &[Datum]) -> Result<Subject, FormRefusal> {
    let lattice = types_of(alloc, forms)?;
    let slots = slots_in(alloc, forms)?;
    let app = app_in(alloc, forms)?;
    Ok(Subject {
        app,
        lattice,
        slots,
    })
}

// An application without displays, commands and panes.
fn app_in(alloc: Global, forms: &[Datum]) -> Result<App, FormRefusal> {
    let declared = Declarations::read(alloc, forms)?;
    let hosts = hosts_in(alloc, forms)?;
    let bodies = Bodies::read(alloc, forms)?;
    Ok(App {
        records: declared.records,
        types: declared.types,
        hosts,
        present_methods: bodies.present_methods,
        accept_methods: bodies.accept_methods,
        functions: bodies.functions,
        displays: Table::new(alloc),
        tables: Table::new(alloc),
        commands: Table::new(alloc),
        translators: Table::new(alloc),
        dialogs: Table::new(alloc),
        frame: empty_frame(alloc)?,
    })
}

fn empty_frame(alloc: Global) -> Result<FrameDecl, AllocError> {
    Ok(FrameDecl {
        name: Text::from_slice(alloc, b"frame")?,
        width: 1,
        height: 1,
        slots: Table::new(alloc),
        panes: Table::new(alloc),
        table: Text::from_slice(alloc, b"global-command-table")?,
        at: 0,
    })
}

// The host types that forms `(define-host-type NAME)` name.
fn hosts_in(alloc: Global, forms: &[Datum]) -> Result<HostDecls, FormRefusal> {
    let mut hosts = Table::new(alloc);
    for form in forms {
        if let Some(name) = host_name(form) {
            let name = name.copy()?;
            let at = form.offset();
            hosts.add_first(HostDecl { name, at })?;
        }
    }
    Ok(hosts)
}

fn host_name(form: &Datum) -> Option<&Text> {
    match form.parts() {
        [head, name] if symbol_of(head) == b"define-host-type".as_slice() => name_in(name),
        _ => None,
    }
}

// The slots with their values; of two of one name the last counts.
fn slots_in(alloc: Global, forms: &[Datum]) -> Result<Slots, FormRefusal> {
    let mut slots = Slots::new(alloc);
    for form in forms {
        if let Some((name, value)) = slot_in(form) {
            let value = value_in(alloc, value)?;
            slots.put(name.copy()?, value)?;
        }
    }
    Ok(slots)
}
