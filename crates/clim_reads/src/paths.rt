//! Paths as texts have them: `x`, `(slot a)` and `(get PATH f)`.
use crate::faults::Fault;
use cl_forms::{Datum, FormRefusal, name_in, symbol_of};
use cl_questions::data_in_text;
use cl_syntax::{Path, Root};
use cl_table::Names;
use cl_value::Text;
use std::alloc::Global;

/// The paths of a text, with `|` between them.
pub fn paths_in(alloc: Global, text: &str) -> Result<Vec<Path>, Fault> {
    let mut paths = Vec::new(alloc);
    for piece in text.split('|') {
        paths.push(path_of(alloc, piece)?)?;
    }
    Ok(paths)
}

// The path that a text is.
fn path_of(alloc: Global, text: &str) -> Result<Path, Fault> {
    let data = data_in_text(alloc, text.as_bytes()).map_err(fault_of)?;
    match data.as_slice() {
        [datum] => path_in(alloc, datum),
        _ => Err(Fault::Wrong),
    }
}

fn fault_of(refusal: FormRefusal) -> Fault {
    match refusal {
        FormRefusal::Refused(..) => Fault::Wrong,
        FormRefusal::Memory => Fault::Memory,
    }
}

// The path that a datum is.
#[cycle(path)]
fn path_in(alloc: Global, datum: &Datum) -> Result<Path, Fault> {
    match datum {
        Datum::List(parts, _) => path_listed(alloc, parts.as_slice()),
        _ => Ok(whole(alloc, Root::Variable(name_of(datum)?))),
    }
}

// `(slot NAME)` or `(get PATH NAME)`, by its parts.
#[cycle(path)]
fn path_listed(alloc: Global, parts: &[Datum]) -> Result<Path, Fault> {
    match parts {
        [head, name] if symbol_of(head) == b"slot".as_slice() => {
            Ok(whole(alloc, Root::Slot(name_of(name)?)))
        }
        [head, inner, name] if symbol_of(head) == b"get".as_slice() => {
            let mut path = path_in(alloc, inner)?;
            path.fields.push(name_of(name)?)?;
            Ok(path)
        }
        _ => Err(Fault::Wrong),
    }
}

// A root of which no field is taken.
fn whole(alloc: Global, root: Root) -> Path {
    Path {
        root,
        fields: Names::new(alloc),
    }
}

fn name_of(datum: &Datum) -> Result<Text, Fault> {
    match name_in(datum) {
        Some(name) => Ok(name.copy()?),
        None => Err(Fault::Wrong),
    }
}
