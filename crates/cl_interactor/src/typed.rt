//! A line as a person sees it.
ghost use Rattle.std.specs.Prelude.{◌≡◌, ◌++◌, OnOk};
ghost use Rattle.cl_interactor.specs.Typed.{shown_element, typed_so_far};

use cl_line::{Element, Line};
use cl_print::put_value;
use std::alloc::AllocError;

/// Puts what was typed so far behind other bytes: each character as it is, and each object as it is printed.
pub fn put_typed(bytes: &mut Vec<u8>, line: &Line) -> Result<(), AllocError>
    ensures { OnOk result (bytes.new.items ≡ bytes.old.items ++ typed_so_far line.now) }
{
    for element in line.elements() {
        put_element(bytes, element)?;
    }
    Ok(())
}

// Puts one element behind other bytes.
fn put_element(bytes: &mut Vec<u8>, element: &Element) -> Result<(), AllocError>
    ensures { OnOk result (bytes.new.items ≡ bytes.old.items ++ shown_element element.now) }
{
    match element {
        Element::Char(byte) => bytes.push(*byte)?,
        Element::Object(value) => put_value(bytes, value)?,
    }
    Ok(())
}
