//! The frame of declarations, and the application that they make.
ghost use Rattle.std.specs.Prelude.{◌≡◌, IfOk};
ghost use Rattle.cl_application.specs.Panes.{IsPlaced};
ghost use Rattle.cl_load.specs.Refusals.{app_of, declared_app};
ghost use Rattle.cl_load.specs.Settling.{FramesApp, Opens, OpensLast, Settles, TakesFrame};
ghost use Rattle.cl_load.specs.Types.{declared_types};
ghost use Rattle.cl_tables.specs.Rings.{HasNoRing};

use crate::application::Opened;
use crate::faults::pass;
use crate::types::first_missing;
use cl_application::{App, FrameDecl};
use cl_declare::{Declarations, FrameForm, FrameForms};
use cl_dialog_forms::with_dialog_displays;
use cl_eval::Slots;
use cl_forms::FormRefusal;
use cl_lattice::Lattice;
use cl_opening::{first_reading, opening_slots, place_frame};
use cl_ptext::{Hosts, TypeBook};
use std::alloc::{AllocError, Global};

/// The application of declarations in a text of this length, with its types and its opening slots; or the
/// first of refusals 10, 14, 15, 16 and 12.
pub fn settle<H: Hosts>(
    alloc: Global,
    length: u32,
    hosts: &H,
    declarations: Declarations,
    lattice: Lattice,
) -> Result<Opened, FormRefusal>
    requires types { lattice ≡ declared_types (H.bounds hosts.now) declarations }
    requires no_ring { HasNoRing declarations.tables }
    ensures { Settles result (H.bounds hosts.now) length declarations }
{
    let reading = first_reading(alloc, &declarations)?;
    pass(10, reading)?;
    let app = frame_app(alloc, length, declarations)?;
    open(alloc, hosts, app, lattice)
}

/// The application of declarations with their one frame at its place and with the forms of its dialogs, or the
/// first of refusals 14 and 15.
fn frame_app(alloc: Global, length: u32, declarations: Declarations) -> Result<App, FormRefusal>
    ensures framed { FramesApp result length declarations }
    ensures placed { IfOk result (λ app. IsPlaced app.frame) }
{
    let mut declarations = declarations;
    let frame = take_frame(length, &mut declarations.frames)?;
    let frame = place_frame(alloc, frame)?;
    let app = app_of(alloc, declarations, frame)?;
    Ok(app)
}

/// The one frame.
fn take_frame(length: u32, frames: &mut FrameForms) -> Result<FrameForm, FormRefusal>
    ensures { TakesFrame result length frames.old }
{
    match frames.as_slice() {
        [] => return Err(FormRefusal::Refused(14, length)),
        [_] => (),
        [_, second, ..] => return Err(FormRefusal::Refused(14, second.at)),
    }
    let Some(frame) = frames.pop() else {
        unreachable!()
    };
    Ok(frame)
}

/// The application, which has the forms of its dialogs behind its displays.
fn app_of(alloc: Global, declarations: Declarations, frame: FrameDecl) -> Result<App, AllocError>
    ensures { IfOk result (λ app. app ≡ app_of declarations frame) }
{
    with_dialog_displays(alloc, declared_app(declarations, frame))
}

/// What is declared, with this frame.
fn declared_app(declarations: Declarations, frame: FrameDecl) -> App
    ensures { result ≡ declared_app declarations frame }
{
    App {
        records: declarations.records,
        types: declarations.types,
        hosts: declarations.hosts,
        present_methods: declarations.present_methods,
        accept_methods: declarations.accept_methods,
        functions: declarations.functions,
        displays: declarations.displays,
        tables: declarations.tables,
        commands: declarations.commands,
        translators: declarations.translators,
        dialogs: declarations.dialogs,
        frame,
    }
}

/// The application with its types and its opening slots, or the first of refusals 16 and 12.
fn open<H: Hosts>(
    alloc: Global,
    hosts: &H,
    app: App,
    lattice: Lattice,
) -> Result<Opened, FormRefusal>
    requires placed { IsPlaced app.frame }
    requires no_ring { HasNoRing app.tables }
    ensures { Opens result (H.bounds hosts.now) app lattice }
{
    let slots = slots_by_types(alloc, hosts, &app, &lattice)?;
    Ok(Opened {
        app,
        lattice,
        slots,
    })
}

/// The opening slots, whose values are members by the types of the application, on the host types that it
/// declares.
#[tactic(auto, using(crate::proofs::SettlingLemmas::slots_held))]
fn slots_by_types<H: Hosts>(
    alloc: Global,
    hosts: &H,
    app: &App,
    lattice: &Lattice,
) -> Result<Slots, FormRefusal>
    ensures { OpensLast result (H.bounds hosts.now) lattice.now app.now }
{
    pass(16, first_missing(hosts, &app.hosts))?;
    let types = TypeBook::new(alloc, app, lattice, hosts);
    opening_slots(alloc, app, &types)
}
