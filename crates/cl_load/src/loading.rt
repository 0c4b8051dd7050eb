//! The load of an application.
ghost use Rattle.std.specs.Prelude.{map};
ghost use Rattle.cl_forms.specs.DatumView.{datum_of};
ghost use Rattle.cl_expressions.specs.Load.{Gives, itself};
ghost use Rattle.cl_load.specs.Loads.{Concludes, Declares, Loads, Reads};
ghost use Rattle.cl_load.specs.Outcome.{parse};

use crate::application::{Loaded, Opened};
use crate::faults::pass_forms;
use crate::refusals::LoadRefusal;
use crate::rings::build;
use crate::settling::settle;
use cl_cover::first_uncovered_update;
use cl_declare::{Declarations, parse_declarations};
use cl_expressions::{Notes, Reader, Scope};
use cl_forms::{Datum, FormRefusal, Forms, all_forms, data_in, outers_of};
use cl_ptext::Hosts;
use cl_sexp::{ReadRefusal, read_forms};
use cl_words::signatures_of;
use std::alloc::Global;

/// The most bytes that a text may have.
const LONGEST: usize = 1_048_576;

/// The application that a text of our own application language declares on these host types, with its
/// types and its opening slots, or the first of its refusals: 13 for the whole text, the first of 1 to 4,
/// the first of 0, 5 and 6, 13, 7, 8, 9, 6 for an argument that comes to stand where it is not taken, 13 for
/// expanded types, 10, 14, 15, 16, 12 and 11, in this order: 11 is told where nothing else is wrong, with the first path that an update
/// reads and that its cache does not cover.
pub fn load<H: Hosts>(alloc: Global, text: &[u8], hosts: &H) -> Result<Loaded, LoadRefusal>
    ensures { Loads (H.bounds hosts.now) text.now result }
{
    let opened = declared_in(alloc, text, hosts)?;
    match first_uncovered_update(alloc, &opened.app)? {
        Some(update) => Err(LoadRefusal::Uncovered(update.form, update.path)),
        None => Ok(Loaded {
            app: opened.app,
            lattice: opened.lattice,
            slots: opened.slots,
        }),
    }
}

/// What a text declares, or the first of its refusals but 11.
fn declared_in<H: Hosts>(alloc: Global, text: &[u8], hosts: &H) -> Result<Opened, FormRefusal>
    ensures { Declares (H.bounds hosts.now) text.now result }
{
    let forms = read(alloc, text)?;
    let data = data_in(alloc, forms.as_slice())?;
    let opened = conclude(alloc, text.len() as u32, data.as_slice(), hosts)?;
    Ok(opened)
}

/// The forms of a text.
fn read(alloc: Global, text: &[u8]) -> Result<Forms, FormRefusal>
    ensures { Reads text.now result }
{
    if text.len() > LONGEST {
        return Err(FormRefusal::Refused(13, 1_048_576));
    }
    match read_forms(alloc, text) {
        Ok(tokens) => Ok(all_forms(alloc, text, tokens.as_slice())?),
        Err(ReadRefusal::Refused(number, at)) => Err(FormRefusal::Refused(number, at)),
        Err(ReadRefusal::Memory) => Err(FormRefusal::Memory),
    }
}

/// What the data of a text of this length come to.
fn conclude<H: Hosts>(
    alloc: Global,
    length: u32,
    forms: &[Datum],
    hosts: &H,
) -> Result<Opened, FormRefusal>
    ensures { Concludes result (H.bounds hosts.now) length (map datum_of forms.now) }
{
    let mut notes = Notes::new(alloc);
    let declarations = parse(alloc, forms, &mut notes)?;
    pass_forms(alloc, forms, &notes)?;
    let lattice = build(alloc, hosts, &declarations, &notes)?;
    settle(alloc, length, hosts, declarations, lattice)
}

/// What the data of a text declare, and what is noted while they are read; or the first of refusals
/// 0, 5 and 6.
fn parse(alloc: Global, forms: &[Datum], notes: &mut Notes) -> Result<Declarations, FormRefusal>
    ensures { Gives itself result notes.new (parse (map datum_of forms.now) notes.old) }
{
    let outers = outers_of(alloc, forms)?;
    let signatures = signatures_of(alloc, outers.as_slice())?;
    let reader = Reader {
        alloc,
        signatures: &signatures,
        scope: &Scope::Empty,
    };
    parse_declarations(&reader, outers.as_slice(), notes)
}
