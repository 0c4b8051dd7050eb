//! The usage line, and the line of a refusal.
ghost use Rattle.std.specs.Prelude.{◌≡◌, ◌≤◌, ℕ, List, Option};
ghost use Rattle.cl_live.specs.Runs.{SaysUsage, Tells};
ghost use Rattle.cl_program.specs.Surroundings.{streams};

use crate::ends::How;
use cl_cover::path_text;
use cl_load::LoadRefusal;
use cl_outside::{Sink, write_all};
use cl_program::{say_refusal, say_uncovered};
use std::alloc::Global;

/// The line that is said of words that are no command.
const USAGE: &str = "usage: clim_term APP [--budget N]\n";

/// Says how the program is called.
pub(crate) fn tell_usage<O: Sink>(out: &mut O) -> How
    ensures says { (left : Option (List ℕ)) (faults spent : ℕ) → SaysUsage
        (streams left faults (O.taken out.old) (O.faults out.old) spent)
        (streams left faults (O.taken out.new) (O.faults out.new) spent) result }
    ensures later { O.faults out.old ≤ O.faults out.new }
{
    if write_all(out, USAGE.as_bytes()) {
        return How::Usage;
    }
    How::UsageCut
}

/// Says why a text does not load.
pub(crate) fn tell_refusal<O: Sink>(alloc: Global, refusal: &LoadRefusal, out: &mut O) -> How
    ensures tells { (left : Option (List ℕ)) (faults spent : ℕ) → Tells refusal.now
        (streams left faults (O.taken out.old) (O.faults out.old) spent)
        (streams left faults (O.taken out.new) (O.faults out.new) spent) result }
    ensures later { O.faults out.old ≤ O.faults out.new }
{
    match refusal {
        LoadRefusal::Refused(number, offset) => {
            if say_refusal(out, *number, *offset) {
                return How::Refused;
            }
            How::RefusalCut
        }
        LoadRefusal::Uncovered(offset, path) => {
            let Ok(text) = path_text(alloc, path) else {
                return How::Memory;
            };
            if say_uncovered(out, *offset, text.as_slice()) {
                return How::Refused;
            }
            How::RefusalCut
        }
        LoadRefusal::Memory => How::Memory,
    }
}
