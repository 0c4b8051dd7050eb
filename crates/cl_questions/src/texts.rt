//! The data of a text.
use cl_forms::{Datums, Form, FormRefusal, all_forms, data_in};
use cl_sexp::{ReadRefusal, read_forms};
use std::alloc::Global;

/// The longest text that is read, in bytes.
const MOST_BYTES: usize = 1_048_576;

/// The data that a text is. A longer text than the longest is refused with number 13, at its end.
pub fn data_in_text(alloc: Global, text: &[u8]) -> Result<Datums, FormRefusal> {
    if text.len() > MOST_BYTES {
        return Err(FormRefusal::Refused(13, 1_048_576));
    }
    let tokens = read_forms(alloc, text).map_err(refusal_of)?;
    let forms = all_forms(alloc, text, tokens.as_slice())?;
    data_of_forms(alloc, forms.as_slice())
}

// A function holds one tree at most: the proof of a path on which several are dropped is long.
fn data_of_forms(alloc: Global, forms: &[Form]) -> Result<Datums, FormRefusal> {
    Ok(data_in(alloc, forms)?)
}

fn refusal_of(refusal: ReadRefusal) -> FormRefusal {
    match refusal {
        ReadRefusal::Refused(number, at) => FormRefusal::Refused(number, at),
        ReadRefusal::Memory => FormRefusal::Memory,
    }
}
