//! Answers to questions, in words.
use crate::declarations::Declarations;
use crate::predicates::NamedPredicates;
use crate::questions::Question;
use cl_forms::{Datum, FormRefusal};
use cl_lattice::{BuildRefusal, Lattice};
use cl_value::{Held, Text};
use std::alloc::{AllocError, Global};

/// The types that forms declare. A ring is refused with number 9, and a specifier past the limits with number 13.
pub fn types_of(alloc: Global, forms: &[Datum]) -> Result<Lattice, FormRefusal> {
    let declared = Declarations::read(alloc, forms)?;
    Lattice::build(alloc, &declared.decls()).map_err(refusal_of)
}

fn refusal_of(refusal: BuildRefusal) -> FormRefusal {
    match refusal {
        BuildRefusal::Cycle(at) => FormRefusal::Refused(9, at),
        BuildRefusal::Large(at) => FormRefusal::Refused(13, at),
        BuildRefusal::Memory => FormRefusal::Memory,
    }
}

/// The answer to a question: `yes` or `no`; of a precedence list the names with a space between them, or `none`.
pub fn answer_of(
    alloc: Global,
    lattice: &Lattice,
    question: &Question,
) -> Result<String, AllocError> {
    match question {
        Question::Subtype(a, b) => yes_or_no(alloc, lattice.subtype(a, b)),
        Question::Member(value, spec) => {
            let held = lattice.member(alloc, value, spec, &NamedPredicates);
            held_in_words(alloc, held)
        }
        Question::Precedence(name) => match lattice.precedence(name.as_slice()) {
            Some(names) => joined(alloc, names.as_slice()),
            None => String::from_str(alloc, "none"),
        },
    }
}

fn yes_or_no(alloc: Global, holds: bool) -> Result<String, AllocError> {
    String::from_str(alloc, if holds { "yes" } else { "no" })
}

fn held_in_words(alloc: Global, held: Held) -> Result<String, AllocError> {
    match held {
        Held::Yes => yes_or_no(alloc, true),
        Held::No => yes_or_no(alloc, false),
        Held::Memory => Err(AllocError),
    }
}

// The names with a space between them.
fn joined(alloc: Global, names: &[Text]) -> Result<String, AllocError> {
    let mut said = String::new(alloc);
    let mut first = true;
    for name in names {
        if !first {
            said.push(' ')?;
        }
        put_bytes(&mut said, name.as_slice())?;
        first = false;
    }
    Ok(said)
}

// Puts a character for each byte behind what is said.
fn put_bytes(said: &mut String, bytes: &[u8]) -> Result<(), AllocError> {
    for byte in bytes {
        said.push(char::from(*byte))?;
    }
    Ok(())
}
