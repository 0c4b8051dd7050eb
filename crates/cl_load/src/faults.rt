//! What the forms of a text are looked through for once they are read.
ghost use Rattle.std.specs.Prelude.{map};
ghost use Rattle.cl_forms.specs.DatumView.{datum_of};
ghost use Rattle.cl_opening.specs.Answers.{Passes};
ghost use Rattle.cl_load.specs.Refusals.{first_fault, form_faults, numbered};

use cl_expressions::Notes;
use cl_forms::{Datum, FormRefusal, outers_of};
use cl_phases::{first_past, first_twice};
use std::alloc::Global;

/// Refusals 13, 7 and 8, in this order.
pub fn pass_forms(alloc: Global, forms: &[Datum], notes: &Notes) -> Result<(), FormRefusal>
    ensures { Passes result (first_fault (form_faults (map datum_of forms.now) notes.now)) }
{
    pass(13, first_past(forms))?;
    let outers = outers_of(alloc, forms)?;
    pass(7, first_twice(alloc, outers.as_slice())?)?;
    pass(8, notes.unknown())
}

/// A refusal of this number, where there is an offset for it.
pub fn pass(number: u8, at: Option<u32>) -> Result<(), FormRefusal>
    ensures { Passes result (numbered number at) }
{
    match at {
        Some(at) => Err(FormRefusal::Refused(number, at)),
        None => Ok(()),
    }
}
