//! The workload of a bench: the text of an application whose pane shows a line for each of its items, and the gestures that give
//! each item another label, one after another, and then put an item in front.
#![tactic(auto)]

ghost use Rattle.std.specs.Prelude.{◌≡◌, ◌≤◌, IfOk};
ghost use Rattle.cl_gen.specs.Workload.{application_text, gestures_text};

use crate::application::application_text;
use crate::gestures::gestures_text;
use cl_value::Text;
use std::alloc::{AllocError, Global};

mod application;
mod gestures;
mod laws;
#[cfg(test)]
mod tests;

pub use laws::gestures_are_two_for_each_item_and_two;

/// The text of the application of `n` items, and the text of its gestures, two lines for each item and two more. Each line of both is
/// ended by a line feed. It fails only for want of memory.
pub fn make(alloc: Global, n: u32) -> Result<(Text, Text), AllocError>
    requires least { 1 ≤ n }
    requires most { n ≤ 1000 }
    ensures application { IfOk result (λ made. made.0 ≡ application_text n) }
    ensures gestures { IfOk result (λ made. made.1 ≡ gestures_text n) }
{
    let application = application_text(alloc, n)?;
    let gestures = gestures_text(alloc, n)?;
    Ok((
        Text::from_vec(alloc, application)?,
        Text::from_vec(alloc, gestures)?,
    ))
}
