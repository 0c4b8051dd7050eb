//! The program: reads an application from a file and gestures from standard input, and writes the
//! replies to standard output.
#![tactic(auto)]

ghost use Rattle.std.specs.Prelude.{◌≡◌, ◌⊎◌, ℕ, IfOk, List, Option, map, string_bytes};
ghost use Rattle.std.specs.Process.{exit_status};
ghost use Rattle.cl_frame.specs.Sending.{wire_of};
ghost use Rattle.cl_invocation.specs.Words.{invocation_of};
ghost use Rattle.cl_load.specs.Reason.{Reason};
ghost use Rattle.cl_outside.specs.Causes.{Rose};
ghost use Rattle.cl_program.specs.Command.{IsBench, IsCheck, IsNoCommand, IsRun, Names};
ghost use Rattle.cl_program.specs.Commands.{KeptBy};
ghost use Rattle.cl_program.specs.Hosts.{hosts_of};
ghost use Rattle.cl_program.specs.Statuses.{DeclaresApplication, DeclaresItems, EndsWith, HasFewLines, HasManyLines, HasRefusal, RefusesItems};
ghost use Rattle.cl_program.specs.Surroundings.{placed, streams};

use cl_host::{month_number, shipped_types, weekday_number};
use cl_outside::{FilePlace, Place, ReaderSource, Sink, Source, WriterSink, own_steps};
use cl_program::{Status, clim_main};
use cl_ptext::{HostTypes, Hosts};
use std::alloc::{AllocError, Global};
use std::process::ExitCode;
use std::{env, io};

/// Ends with the status of a run on the words behind the program's name, over the system's files,
/// standard input and standard output, with the host types `weekday` and `month`.
fn main(rt: HostRuntime) -> ExitCode {
    let alloc = rt.alloc();
    let Ok(day) = Box::new(alloc, |text: &[u8]| weekday_number(text)) else {
        return exit_code(Status(7));
    };
    let Ok(month) = Box::new(alloc, |text: &[u8]| month_number(text)) else {
        return exit_code(Status(7));
    };
    let Ok(types) = shipped_types(alloc, day, month) else {
        return exit_code(Status(7));
    };
    start(rt, &HostTypes { types: &types })
}

// Ends with the status of a run on the words behind the program's name. A word that is not UTF-8 makes the words no command.
fn start<H: Hosts>(rt: HostRuntime, hosts: &H) -> ExitCode {
    let mut words = Vec::new(rt.alloc());
    match env::args(&rt) {
        Ok(args) => {
            for word in args.skip(1) {
                if words.push(word).is_err() {
                    return exit_code(Status(7));
                }
            }
        }
        Err(error) => {
            if matches!(error.kind(), io::ErrorKind::OutOfMemory) {
                return exit_code(Status(7));
            }
        }
    }
    let alloc = rt.alloc();
    let Ok(texts) = texts_of(alloc, words.as_slice()) else {
        return exit_code(Status(7));
    };
    let mut gestures = ReaderSource::new(rt.stdin());
    let mut out = WriterSink::new(rt.stdout());
    let mut place = FilePlace::new(rt);
    run(
        alloc,
        texts.as_slice(),
        hosts,
        &mut place,
        &mut gestures,
        &mut out,
    )
}

// Ends with the status of a run on these words.
fn run<H: Hosts, P: Place, G: Source, O: Sink>(
    alloc: Global,
    words: &[&str],
    hosts: &H,
    place: &mut P,
    gestures: &mut G,
    out: &mut O,
) -> ExitCode
    ensures ends { (spent : ℕ) × EndsWith (hosts_of H.bounds H.entries hosts.now) (map (λ w. w.now) words.now) (placed (P.file place.old)
        (P.app_faults place.old) (P.making_faults place.old)
        (wire_of (P.taken place.old) (P.writing_faults place.old) (P.tells place.old)))
        (placed (P.file place.new) (P.app_faults place.new) (P.making_faults place.new)
        (wire_of (P.taken place.new) (P.writing_faults place.new) (P.tells place.new)))
        (streams (G.left gestures.old) (G.faults gestures.old) (O.taken out.old) (O.faults out.old)
        0) (streams (G.left gestures.new) (G.faults gestures.new) (O.taken out.new)
        (O.faults out.new) spent) (exit_status result) }
    ensures keeps { KeptBy (invocation_of (map (λ w. w.now) words.now)) (P.by_name place.old)
        (placed (P.file place.old) (P.app_faults place.old) (P.making_faults place.old)
        (wire_of (P.taken place.old) (P.writing_faults place.old) (P.tells place.old)))
        (placed (P.file place.new) (P.app_faults place.new) (P.making_faults place.new)
        (wire_of (P.taken place.new) (P.writing_faults place.new) (P.tells place.new))) }

    // When they are due.
    ensures usage_due { IsNoCommand (map (λ w. w.now) words.now)
        → (exit_status result ≡ 2) ⊎ (exit_status result ≡ 5) ⊎ (exit_status result ≡ 7) }
    ensures refusal_due { (name : List ℕ) (reason : Reason) → Names (map (λ w. w.now) words.now) name
        → (Rose (P.app_faults place.old name) (P.app_faults place.new name) → ⊥)
        → HasRefusal (H.bounds hosts.now) (P.file place.old name) reason
        → (exit_status result ≡ 1) ⊎ (exit_status result ≡ 5) ⊎ (exit_status result ≡ 7) }
    ensures check_due { (name : List ℕ) → IsCheck (map (λ w. w.now) words.now) name
        → (Rose (P.app_faults place.old name) (P.app_faults place.new name) → ⊥)
        → DeclaresApplication (H.bounds hosts.now) (P.file place.old name)
        → (exit_status result ≡ 0) ⊎ (exit_status result ≡ 5) ⊎ (exit_status result ≡ 7) }
    ensures bench_due { (items : ℕ) → IsBench (map (λ w. w.now) words.now) items
        → DeclaresItems (H.bounds hosts.now) items
        → (exit_status result ≡ 0) ⊎ (exit_status result ≡ 5) ⊎ (exit_status result ≡ 7) }
    ensures bench_refusal_due { (items : ℕ) (reason : Reason) → IsBench (map (λ w. w.now) words.now) items
        → RefusesItems (H.bounds hosts.now) items reason
        → (exit_status result ≡ 1) ⊎ (exit_status result ≡ 5) ⊎ (exit_status result ≡ 7) }
    ensures complete { (name : List ℕ) (wire : Option (List ℕ)) (budget : Option ℕ)
        → IsRun (map (λ w. w.now) words.now) name wire budget
        → (Rose (P.app_faults place.old name) (P.app_faults place.new name) → ⊥)
        → (Rose (P.making_faults place.old) (P.making_faults place.new) → ⊥)
        → (Rose (G.faults gestures.old) (G.faults gestures.new) → ⊥)
        → (Rose (O.faults out.old) (O.faults out.new) → ⊥)
        → DeclaresApplication (H.bounds hosts.now) (P.file place.old name) → HasFewLines (G.left gestures.old)
        → (exit_status result ≡ 0) ⊎ (exit_status result ≡ 7) }
    ensures limit_due { (name : List ℕ) (wire : Option (List ℕ)) (budget : Option ℕ)
        → IsRun (map (λ w. w.now) words.now) name wire budget
        → (Rose (P.app_faults place.old name) (P.app_faults place.new name) → ⊥)
        → (Rose (P.making_faults place.old) (P.making_faults place.new) → ⊥)
        → (Rose (G.faults gestures.old) (G.faults gestures.new) → ⊥)
        → (Rose (O.faults out.old) (O.faults out.new) → ⊥)
        → DeclaresApplication (H.bounds hosts.now) (P.file place.old name) → HasManyLines (G.left gestures.old)
        → (exit_status result ≡ 8) ⊎ (exit_status result ≡ 7) }

    ensures place_lent { P.lent place.new ≡ P.lent place.old }
    ensures lent { G.lent gestures.new ≡ G.lent gestures.old }
    ensures out_lent { O.lent out.new ≡ O.lent out.old }
{
    let mut steps = own_steps();
    exit_code(clim_main(alloc, words, hosts, place, gestures, out, &mut steps))
}

// The words as texts.
fn texts_of<'a>(alloc: Global, words: &'a [String]) -> Result<Vec<&'a str>, AllocError>
    ensures { IfOk result (λ texts. map (λ t. t.now) texts.items ≡ map string_bytes words.now) }
{
    let mut texts = Vec::new(alloc);
    for word in words {
        texts.push(word.as_str())?;
    }
    Ok(texts)
}

fn exit_code(status: Status) -> ExitCode
    ensures { exit_status result ≡ status.0 }
{
    let Status(code) = status;
    ExitCode::from(code)
}
