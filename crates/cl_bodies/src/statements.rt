//! The statement that a form is.
ghost use Rattle.std.specs.Prelude.{◌≡◌, map};
ghost use Rattle.cl_forms.specs.Datum.{datums_of};
ghost use Rattle.cl_forms.specs.DatumView.{datum_of};
ghost use Rattle.cl_expressions.specs.Load.{Gives, itself};
ghost use Rattle.cl_expressions.specs.Scopes.{variables_of};
ghost use Rattle.cl_expressions.specs.Expressions.{subs};
ghost use Rattle.cl_bodies.specs.Statements.{parse_act, parse_acts, parse_own, parse_change, parse_setf, parse_place, parse_place_name, parse_reply, parse_switch, parse_command_name, parse_open_dialog, parse_dialog_name};

use crate::bodies::{parse_body, parse_form};
use crate::languages::Language;
use crate::own::Own;
use cl_expressions::{Notes, Reader, parse_expression};
use cl_forms::{Datum, FormRefusal, named_part, symbol_of};
use cl_syntax::{Act, Acts, Binding, Expr};
use cl_value::Text;
use cl_words::{Change, Head};
use std::alloc::{AllocError, Global};

/// The statement that a datum is. Where a name in it is not declared, the first such is noted.
pub fn parse_act(reader: &Reader, datum: &Datum, notes: &mut Notes) -> Result<Act, FormRefusal>
    ensures { Gives itself result notes.new
        (parse_act reader.now.signatures.now (datum_of datum.now) (variables_of reader.now.scope.now) notes.old) }
{
    parse_form(reader, (), datum, notes)
}

/// The statements of a body, in order.
pub fn parse_acts(reader: &Reader, parts: &[Datum], notes: &mut Notes) -> Result<Acts, FormRefusal>
    ensures { Gives itself result notes.new
        (parse_acts reader.now.signatures.now (datums_of (map datum_of parts.now)) (variables_of reader.now.scope.now)
        notes.old) }
{
    parse_body::<Act>(reader, (), parts, notes)
}

impl Language for Act {
    ghost use Rattle.cl_bodies.specs.Statements.{statements};

    type Body = Acts;

    type Opening = ();

    type Context = ();

    ghost rows = { statements };

    ghost items = { λ body. body };

    fn choice(alloc: Global, test: Expr, first: Act, other: Act) -> Result<Act, AllocError> {
        Act::choice(alloc, test, first, other)
    }

    fn when(test: Expr, body: Acts) -> Act {
        Act::when(test, body)
    }

    fn bind(bindings: Vec<Binding>, body: Acts) -> Act {
        Act::bind(bindings, body)
    }

    fn each(name: Text, list: Expr, body: Acts) -> Act {
        Act::each(name, list, body)
    }

    fn sequence(body: Acts) -> Act {
        Act::sequence(body)
    }

    fn empty(alloc: Global) -> Acts {
        Acts::new(alloc)
    }

    fn push(body: &mut Acts, form: Act) -> Result<(), AllocError> {
        body.push(form)
    }

    fn parse_own(
        reader: &Reader,
        _: (),
        head: Head,
        head_at: u32,
        at: u32,
        parts: &[Datum],
        notes: &mut Notes,
    ) -> Result<Own<Act, (), ()>, FormRefusal> {
        parse_own(reader, head, head_at, at, parts, notes)
    }

    fn parse_call(
        _: &Reader,
        _: &Text,
        head_at: u32,
        _: u32,
        _: &[Datum],
        _: &mut Notes,
    ) -> Result<Act, FormRefusal> {
        Err(FormRefusal::Refused(5, head_at))
    }

    fn closed(_: (), body: Acts) -> Act {
        Act::sequence(body)
    }
}

/// A statement that display forms do not have.
fn parse_own(
    reader: &Reader,
    head: Head,
    head_at: u32,
    at: u32,
    parts: &[Datum],
    notes: &mut Notes,
) -> Result<Own<Act, (), ()>, FormRefusal>
    ensures { Gives itself result notes.new
        (parse_own reader.now.signatures.now head head_at at
        (subs reader.now.signatures.now (datums_of (map datum_of parts.now)))
        (variables_of reader.now.scope.now) notes.old) }
{
    match head {
        Head::Change(change) => Ok(Own::Whole(parse_change(reader, change, at, parts, notes)?)),
        _ => Err(FormRefusal::Refused(5, head_at)),
    }
}

fn parse_change(
    reader: &Reader,
    change: Change,
    at: u32,
    parts: &[Datum],
    notes: &mut Notes,
) -> Result<Act, FormRefusal>
    ensures { Gives itself result notes.new
        (parse_change reader.now.signatures.now change at
        (subs reader.now.signatures.now (datums_of (map datum_of parts.now)))
        (variables_of reader.now.scope.now) notes.old) }
{
    match change {
        Change::Setf => parse_setf(reader, at, parts, notes),
        Change::Reply => parse_reply(reader, at, parts, notes),
        Change::Enable => parse_switch(reader, true, at, parts, notes),
        Change::Disable => parse_switch(reader, false, at, parts, notes),
        Change::OpenDialog => parse_open_dialog(reader, at, parts, notes),
    }
}

/// `(setf (slot NAME) E)`
#[tactic(auto, using(crate::proofs::StatementCounts::setf_counts))]
fn parse_setf(
    reader: &Reader,
    at: u32,
    parts: &[Datum],
    notes: &mut Notes,
) -> Result<Act, FormRefusal>
    ensures { Gives itself result notes.new
        (parse_setf reader.now.signatures.now at (subs reader.now.signatures.now (datums_of (map datum_of parts.now)))
        (variables_of reader.now.scope.now) notes.old) }
{
    match parts {
        [place, value] => {
            let name = parse_place(reader, at, place.parts(), notes)?;
            let value = parse_expression(reader, value, notes)?;
            Ok(Act::setf(name, value))
        }
        [] => Err(FormRefusal::Refused(6, at)),
        [_] => Err(FormRefusal::Refused(6, at)),
        [_, _, _, ..] => Err(FormRefusal::Refused(6, at)),
    }
}

/// The name in the parts of `(slot NAME)`.
#[tactic(auto, using(crate::proofs::StatementCounts::place_counts))]
fn parse_place(
    reader: &Reader,
    at: u32,
    parts: &[Datum],
    notes: &mut Notes,
) -> Result<Text, FormRefusal>
    ensures { Gives itself result notes.new
        (parse_place reader.now.signatures.now at (map datum_of parts.now) notes.old) }
{
    match parts {
        [slot, name] => {
            if symbol_of(slot) != b"slot".as_slice() {
                return Err(FormRefusal::Refused(6, at));
            }
            parse_place_name(reader, at, name, notes)
        }
        [] => Err(FormRefusal::Refused(6, at)),
        [_] => Err(FormRefusal::Refused(6, at)),
        [_, _, _, ..] => Err(FormRefusal::Refused(6, at)),
    }
}

/// The name of a slot. Where no such slot is declared, it is noted.
fn parse_place_name(
    reader: &Reader,
    at: u32,
    datum: &Datum,
    notes: &mut Notes,
) -> Result<Text, FormRefusal>
    ensures { Gives itself result notes.new
        (parse_place_name reader.now.signatures.now at (datum_of datum.now) notes.old) }
{
    let name = named_part(at, datum)?;
    notes.note(reader.signatures.has_slot(name.as_slice()), datum.offset());
    Ok(name)
}

/// `(reply E)`
#[tactic(auto, using(crate::proofs::StatementCounts::reply_counts))]
fn parse_reply(
    reader: &Reader,
    at: u32,
    parts: &[Datum],
    notes: &mut Notes,
) -> Result<Act, FormRefusal>
    ensures { Gives itself result notes.new
        (parse_reply at (subs reader.now.signatures.now (datums_of (map datum_of parts.now))) (variables_of reader.now.scope.now)
        notes.old) }
{
    match parts {
        [text] => Ok(Act::reply(parse_expression(reader, text, notes)?)),
        [] => Err(FormRefusal::Refused(6, at)),
        [_, _, ..] => Err(FormRefusal::Refused(6, at)),
    }
}

/// `(enable COMMAND)` where it is switched on, `(disable COMMAND)` where it is switched off.
#[tactic(auto, using(crate::proofs::StatementCounts::switch_counts))]
fn parse_switch(
    reader: &Reader,
    on: bool,
    at: u32,
    parts: &[Datum],
    notes: &mut Notes,
) -> Result<Act, FormRefusal>
    ensures { Gives itself result notes.new
        (parse_switch reader.now.signatures.now on at (subs reader.now.signatures.now (datums_of (map datum_of parts.now)))
        notes.old) }
{
    match parts {
        [command] => Ok(Act::switch(parse_command_name(reader, at, command, notes)?, on)),
        [] => Err(FormRefusal::Refused(6, at)),
        [_, _, ..] => Err(FormRefusal::Refused(6, at)),
    }
}

/// The name of a command. Where no such command is declared, it is noted.
fn parse_command_name(
    reader: &Reader,
    at: u32,
    datum: &Datum,
    notes: &mut Notes,
) -> Result<Text, FormRefusal>
    ensures { Gives itself result notes.new
        (parse_command_name reader.now.signatures.now at (datum_of datum.now) notes.old) }
{
    let name = named_part(at, datum)?;
    notes.note(
        reader.signatures.has_command(name.as_slice()),
        datum.offset(),
    );
    Ok(name)
}

/// `(open-dialog DIALOG)`
#[tactic(auto, using(crate::proofs::StatementCounts::open_dialog_counts))]
fn parse_open_dialog(
    reader: &Reader,
    at: u32,
    parts: &[Datum],
    notes: &mut Notes,
) -> Result<Act, FormRefusal>
    ensures { Gives itself result notes.new
        (parse_open_dialog reader.now.signatures.now at (subs reader.now.signatures.now (datums_of (map datum_of parts.now)))
        notes.old) }
{
    match parts {
        [dialog] => Ok(Act::open_dialog(parse_dialog_name(reader, at, dialog, notes)?)),
        [] => Err(FormRefusal::Refused(6, at)),
        [_, _, ..] => Err(FormRefusal::Refused(6, at)),
    }
}

/// The name of a dialog. Where no such dialog is declared, it is noted.
fn parse_dialog_name(
    reader: &Reader,
    at: u32,
    datum: &Datum,
    notes: &mut Notes,
) -> Result<Text, FormRefusal>
    ensures { Gives itself result notes.new
        (parse_dialog_name reader.now.signatures.now at (datum_of datum.now) notes.old) }
{
    let name = named_part(at, datum)?;
    notes.note(
        reader.signatures.has_dialog(name.as_slice()),
        datum.offset(),
    );
    Ok(name)
}
