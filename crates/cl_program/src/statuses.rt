//! The top call and its exit status.
ghost use Rattle.std.specs.Prelude.{◌≡◌, ◌≤◌, ◌⊎◌, ℕ, List, Option, map};
ghost use Rattle.cl_frame.specs.Sending.{wire_of};
ghost use Rattle.cl_invocation.specs.Words.{invocation_of};
ghost use Rattle.cl_load.specs.Reason.{Reason};
ghost use Rattle.cl_outside.specs.Causes.{Rose};
ghost use Rattle.cl_program.specs.Command.{IsBench, IsCheck, IsNoCommand, IsRun, Names};
ghost use Rattle.cl_program.specs.Commands.{KeptBy};
ghost use Rattle.cl_program.specs.Hosts.{hosts_of};
ghost use Rattle.cl_program.specs.Statuses.{DeclaresApplication, DeclaresItems, EndsWith, HasFewLines, HasManyLines, HasRefusal, RefusesItems};
ghost use Rattle.cl_program.specs.Surroundings.{placed, streams};

use crate::commands::run_words;
use crate::running::How;
use cl_outside::{Ledger, Place, Sink, Source, Steps};
use cl_ptext::Hosts;
use cl_session::End;
use std::alloc::Global;

/// The status that the program ends with.
#[derive(Drop)]
pub struct Status(pub u8);

/// Runs the program on the words that stand behind its name, with the host types that an application may use.
///
/// The words `run APP [--wire NAME] [--budget N]` read the application from the place's file APP, to
/// its end or to 1,048,577 bytes, load it, make the file NAME, open the frame with a budget of N forms
/// a display or command (1,000,000 where none is given), and serve the gestures; the operations of
/// the screen go to the wire. The words `check APP` read and load it, and say `loads`. The words `bench N`
/// make an application of N items and gestures that change each of them, load it, serve the gestures on a
/// device that keeps nothing, and say the sums of what was kept, moved, drawn and erased; they touch neither
/// the place nor the given gestures. The run stops at the first of these: words that are no command (status 2), a fault of the place with APP (3), a text
/// that is refused (1), a wire that cannot be made (6), want of memory (7), a fault of the gestures (4)
/// or of the output (5), a byte behind 1,000,000 lines (8), the end of the gestures (0). Want of memory
/// comes only before the first gesture; a bench that met it in a gesture says no line. A fault of the wire
/// changes no status.
pub fn clim_main<H: Hosts, P: Place, G: Source, O: Sink, L: Ledger>(
    alloc: Global,
    words: &[&str],
    hosts: &H,
    place: &mut P,
    gestures: &mut G,
    out: &mut O,
    steps: &mut Steps<L>,
) -> Status
    ensures ends { EndsWith (hosts_of H.bounds H.entries hosts.now) (map (λ w. w.now) words.now) (placed (P.file place.old)
        (P.app_faults place.old) (P.making_faults place.old)
        (wire_of (P.taken place.old) (P.writing_faults place.old) (P.tells place.old)))
        (placed (P.file place.new) (P.app_faults place.new) (P.making_faults place.new)
        (wire_of (P.taken place.new) (P.writing_faults place.new) (P.tells place.new)))
        (streams (G.left gestures.old) (G.faults gestures.old) (O.taken out.old) (O.faults out.old)
        steps.old) (streams (G.left gestures.new) (G.faults gestures.new) (O.taken out.new)
        (O.faults out.new) steps.new) result.0 }
    ensures keeps { KeptBy (invocation_of (map (λ w. w.now) words.now)) (P.by_name place.old)
        (placed (P.file place.old) (P.app_faults place.old) (P.making_faults place.old)
        (wire_of (P.taken place.old) (P.writing_faults place.old) (P.tells place.old)))
        (placed (P.file place.new) (P.app_faults place.new) (P.making_faults place.new)
        (wire_of (P.taken place.new) (P.writing_faults place.new) (P.tells place.new))) }

    // When they are due.
    ensures usage_due { IsNoCommand (map (λ w. w.now) words.now)
        → (result.0 ≡ 2) ⊎ (result.0 ≡ 5) ⊎ (result.0 ≡ 7) }
    ensures refusal_due { (name : List ℕ) (reason : Reason) → Names (map (λ w. w.now) words.now) name
        → (Rose (P.app_faults place.old name) (P.app_faults place.new name) → ⊥)
        → HasRefusal (H.bounds hosts.now) (P.file place.old name) reason
        → (result.0 ≡ 1) ⊎ (result.0 ≡ 5) ⊎ (result.0 ≡ 7) }
    ensures check_due { (name : List ℕ) → IsCheck (map (λ w. w.now) words.now) name
        → (Rose (P.app_faults place.old name) (P.app_faults place.new name) → ⊥)
        → DeclaresApplication (H.bounds hosts.now) (P.file place.old name)
        → (result.0 ≡ 0) ⊎ (result.0 ≡ 5) ⊎ (result.0 ≡ 7) }
    ensures bench_due { (items : ℕ) → IsBench (map (λ w. w.now) words.now) items
        → DeclaresItems (H.bounds hosts.now) items
        → (result.0 ≡ 0) ⊎ (result.0 ≡ 5) ⊎ (result.0 ≡ 7) }
    ensures bench_refusal_due { (items : ℕ) (reason : Reason) → IsBench (map (λ w. w.now) words.now) items
        → RefusesItems (H.bounds hosts.now) items reason
        → (result.0 ≡ 1) ⊎ (result.0 ≡ 5) ⊎ (result.0 ≡ 7) }
    ensures complete { (name : List ℕ) (wire : Option (List ℕ)) (budget : Option ℕ)
        → IsRun (map (λ w. w.now) words.now) name wire budget
        → (Rose (P.app_faults place.old name) (P.app_faults place.new name) → ⊥)
        → (Rose (P.making_faults place.old) (P.making_faults place.new) → ⊥)
        → (Rose (G.faults gestures.old) (G.faults gestures.new) → ⊥)
        → (Rose (O.faults out.old) (O.faults out.new) → ⊥)
        → DeclaresApplication (H.bounds hosts.now) (P.file place.old name) → HasFewLines (G.left gestures.old)
        → (result.0 ≡ 0) ⊎ (result.0 ≡ 7) }
    ensures limit_due { (name : List ℕ) (wire : Option (List ℕ)) (budget : Option ℕ)
        → IsRun (map (λ w. w.now) words.now) name wire budget
        → (Rose (P.app_faults place.old name) (P.app_faults place.new name) → ⊥)
        → (Rose (P.making_faults place.old) (P.making_faults place.new) → ⊥)
        → (Rose (G.faults gestures.old) (G.faults gestures.new) → ⊥)
        → (Rose (O.faults out.old) (O.faults out.new) → ⊥)
        → DeclaresApplication (H.bounds hosts.now) (P.file place.old name) → HasManyLines (G.left gestures.old)
        → (result.0 ≡ 8) ⊎ (result.0 ≡ 7) }

    ensures place_lent { P.lent place.new ≡ P.lent place.old }
    ensures lent { G.lent gestures.new ≡ G.lent gestures.old }
    ensures later { G.faults gestures.old ≤ G.faults gestures.new }
    ensures out_lent { O.lent out.new ≡ O.lent out.old }
    ensures out_later { O.faults out.old ≤ O.faults out.new }
    ensures steps_later { steps.old ≤ steps.new }
{
    match run_words(alloc, words, hosts, place, gestures, out, steps) {
        How::Usage => Status(2),
        How::UsageCut => Status(5),
        How::AppFault => Status(3),
        How::Refused => Status(1),
        How::RefusalCut => Status(5),
        How::Loads => Status(0),
        How::LoadsCut => Status(5),
        How::WireFault => Status(6),
        How::Memory => Status(7),
        How::Benched => Status(0),
        How::BenchCut => Status(5),
        How::Ended(End::Done) => Status(0),
        How::Ended(End::ReadFault) => Status(4),
        How::Ended(End::TooMany) => Status(8),
        How::Ended(End::OutputFault) => Status(5),
    }
}
