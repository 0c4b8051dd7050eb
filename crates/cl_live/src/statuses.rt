//! The top call and its exit status.
ghost use Rattle.std.specs.Prelude.{◌≡◌, ◌≤◌, ◌⊎◌, ℕ, List, None, Option, map};
ghost use Rattle.cl_ansi.specs.Terminal.{IsTelling};
ghost use Rattle.cl_frame.specs.Sending.{wire_of};
ghost use Rattle.cl_live.specs.Statuses.{EndsWith, status_of};
ghost use Rattle.cl_live.specs.Words.{IsLive, IsNoLive};
ghost use Rattle.cl_load.specs.Reason.{Reason};
ghost use Rattle.cl_outside.specs.Causes.{Rose};
ghost use Rattle.cl_program.specs.Commands.{KeepsFiles};
ghost use Rattle.cl_program.specs.Hosts.{hosts_of};
ghost use Rattle.cl_program.specs.Statuses.{DeclaresApplication, HasRefusal};
ghost use Rattle.cl_program.specs.Surroundings.{placed, streams};

use crate::ends::How;
use crate::running::run_words;
use cl_outside::{Ledger, Place, Sink, Source, Steps};
use cl_ptext::Hosts;
use cl_terminal::{Closing, RunEnd};
use std::alloc::Global;

/// The status that a run in a terminal ends with, and its output behind what that took.
#[derive(Drop)]
pub struct Ended<O> {
    pub status: u8,
    pub out: O,
}

/// Runs an application in the terminal that the output is, with the host types that it may use. The words behind the program's name are
/// `APP [--budget N]`.
///
/// It reads the application from the place's file APP, to its end or to 1,048,577 bytes, loads it, takes the terminal over, opens the frame
/// with a budget of N forms a display or command (1,000,000 where none is given), and serves the keys up to the one that ends the run or to
/// their end; then it gives the terminal back. The run stops at the first of these: words that are no such command (status 2), a fault of the
/// place with APP (3), a text that is refused (1), want of memory before the first key (7), a fault of the keys (4) or of the output (5), a
/// thousand million reads of the keys (8), the end (0). The lines of words that are no command and of a refusal are said on the output, and
/// the terminal is not taken over then. The place is only read.
pub fn live_main<H: Hosts, P: Place, G: Source, O: Sink, L: Ledger>(
    alloc: Global,
    words: &[&str],
    hosts: &H,
    place: &mut P,
    keys: &mut G,
    out: O,
    steps: &mut Steps<L>,
) -> Ended<O>
    requires tells { IsTelling (O.lent out).told (O.taken out) }
    ensures ends { EndsWith (O.lent out).told (hosts_of H.bounds H.entries hosts.now) (map (λ w. w.now) words.now)
        (placed (P.file place.old) (P.app_faults place.old) (P.making_faults place.old)
        (wire_of (P.taken place.old) (P.writing_faults place.old) (P.tells place.old)))
        (placed (P.file place.new) (P.app_faults place.new) (P.making_faults place.new)
        (wire_of (P.taken place.new) (P.writing_faults place.new) (P.tells place.new)))
        (streams (G.left keys.old) (G.faults keys.old) (O.taken out) (O.faults out) steps.old)
        (streams (G.left keys.new) (G.faults keys.new) (O.taken result.out) (O.faults result.out) steps.new) result.status }
    ensures keeps { (name : List ℕ) (budget : Option ℕ) → IsLive (map (λ w. w.now) words.now) name budget
        → KeepsFiles name None (P.by_name place.old)
        (placed (P.file place.old) (P.app_faults place.old) (P.making_faults place.old)
        (wire_of (P.taken place.old) (P.writing_faults place.old) (P.tells place.old)))
        (placed (P.file place.new) (P.app_faults place.new) (P.making_faults place.new)
        (wire_of (P.taken place.new) (P.writing_faults place.new) (P.tells place.new))) }
    ensures untouched { IsNoLive (map (λ w. w.now) words.now)
        → placed (P.file place.new) (P.app_faults place.new) (P.making_faults place.new)
        (wire_of (P.taken place.new) (P.writing_faults place.new) (P.tells place.new))
        ≡ placed (P.file place.old) (P.app_faults place.old) (P.making_faults place.old)
        (wire_of (P.taken place.old) (P.writing_faults place.old) (P.tells place.old)) }

    // When they are due.
    ensures usage_due { IsNoLive (map (λ w. w.now) words.now) → (result.status ≡ 2) ⊎ (result.status ≡ 5) ⊎ (result.status ≡ 7) }
    ensures refusal_due { (name : List ℕ) (budget : Option ℕ) (reason : Reason) → IsLive (map (λ w. w.now) words.now) name budget
        → (Rose (P.app_faults place.old name) (P.app_faults place.new name) → ⊥)
        → HasRefusal (H.bounds hosts.now) (P.file place.old name) reason
        → (result.status ≡ 1) ⊎ (result.status ≡ 5) ⊎ (result.status ≡ 7) }
    ensures complete { (name : List ℕ) (budget : Option ℕ) → IsLive (map (λ w. w.now) words.now) name budget
        → (Rose (P.app_faults place.old name) (P.app_faults place.new name) → ⊥)
        → (Rose (G.faults keys.old) (G.faults keys.new) → ⊥)
        → (Rose (O.faults out) (O.faults result.out) → ⊥)
        → DeclaresApplication (H.bounds hosts.now) (P.file place.old name)
        → (result.status ≡ 0) ⊎ (result.status ≡ 8) ⊎ (result.status ≡ 7) }

    ensures place_lent { P.lent place.new ≡ P.lent place.old }
    ensures lent { G.lent keys.new ≡ G.lent keys.old }
    ensures later { G.faults keys.old ≤ G.faults keys.new }
    ensures out_later { O.faults out ≤ O.faults result.out }
    ensures steps_later { steps.old ≤ steps.new }
{
    let (how, out) = run_words(alloc, words, hosts, place, keys, out, steps);
    Ended {
        status: status_of(how),
        out,
    }
}

// The status of a run that ended so.
fn status_of(how: How) -> u8
    ensures { result ≡ status_of how }
{
    match how {
        How::Usage => 2,
        How::UsageCut => 5,
        How::AppFault => 3,
        How::Refused => 1,
        How::RefusalCut => 5,
        How::Memory => 7,
        How::Ran(RunEnd::Memory) => 7,
        How::Ran(RunEnd::Served(Closing::Done)) => 0,
        How::Ran(RunEnd::Served(Closing::ReadFault)) => 4,
        How::Ran(RunEnd::Served(Closing::OutputFault)) => 5,
        How::Ran(RunEnd::Served(Closing::TooLong)) => 8,
    }
}
