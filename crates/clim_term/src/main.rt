//! The program: runs an application in a terminal. It reads the application from a file and keys from standard input, and writes what the
//! terminal is to show to standard output.
#![tactic(auto)]

ghost use Rattle.std.specs.Prelude.{◌≡◌, ◌⊎◌, ℕ, IfOk, List, None, Option, map, string_bytes};
ghost use Rattle.std.specs.Process.{exit_status};
ghost use Rattle.cl_ansi.specs.Terminal.{IsTelling};
ghost use Rattle.cl_frame.specs.Sending.{wire_of};
ghost use Rattle.cl_live.specs.Statuses.{EndsWith};
ghost use Rattle.cl_live.specs.Words.{IsLive, IsNoLive};
ghost use Rattle.cl_load.specs.Reason.{Reason};
ghost use Rattle.cl_outside.specs.Causes.{Rose};
ghost use Rattle.cl_program.specs.Commands.{KeepsFiles};
ghost use Rattle.cl_program.specs.Hosts.{hosts_of};
ghost use Rattle.cl_program.specs.Statuses.{DeclaresApplication, HasRefusal};
ghost use Rattle.cl_program.specs.Surroundings.{placed, streams};

use cl_host::{month_number, shipped_types, weekday_number};
use cl_live::{Ended, live_main};
use cl_outside::{FilePlace, Place, ReaderSource, Sink, Source, WriterSink, own_steps};
use cl_ptext::{HostTypes, Hosts};
use std::alloc::{AllocError, Global};
use std::process::ExitCode;
use std::{env, io};

/// Ends with the status of a run on the words behind the program's name, over the system's files, standard input and standard output, with
/// the host types `weekday` and `month`.
fn main(rt: HostRuntime) -> ExitCode {
    let alloc = rt.alloc();
    let Ok(day) = Box::new(alloc, |text: &[u8]| weekday_number(text)) else {
        return ExitCode::from(7);
    };
    let Ok(month) = Box::new(alloc, |text: &[u8]| month_number(text)) else {
        return ExitCode::from(7);
    };
    let Ok(types) = shipped_types(alloc, day, month) else {
        return ExitCode::from(7);
    };
    start(rt, &HostTypes { types: &types })
}

// Ends with the status of a run on the words behind the program's name. A word that is not UTF-8 makes the words no command.
fn start<H: Hosts>(rt: HostRuntime, hosts: &H) -> ExitCode {
    let mut words = Vec::new(rt.alloc());
    match env::args(&rt) {
        Ok(args) => {
            for word in args.skip(1) {
                if words.push(word).is_err() {
                    return ExitCode::from(7);
                }
            }
        }
        Err(error) => {
            if matches!(error.kind(), io::ErrorKind::OutOfMemory) {
                return ExitCode::from(7);
            }
        }
    }
    let alloc = rt.alloc();
    let Ok(texts) = texts_of(alloc, words.as_slice()) else {
        return ExitCode::from(7);
    };
    let mut keys = ReaderSource::new(rt.stdin());
    let out = WriterSink::new(rt.stdout());
    let mut place = FilePlace::new(rt);
    let (code, _out) = run(alloc, texts.as_slice(), hosts, &mut place, &mut keys, out);
    code
}

// Ends with the status of a run on these words.
fn run<H: Hosts, P: Place, G: Source, O: Sink>(
    alloc: Global,
    words: &[&str],
    hosts: &H,
    place: &mut P,
    keys: &mut G,
    out: O,
) -> (ExitCode, O)
    requires tells { IsTelling (O.lent out).told (O.taken out) }
    ensures ends { (spent : ℕ) × EndsWith (O.lent out).told (hosts_of H.bounds H.entries hosts.now) (map (λ w. w.now) words.now)
        (placed (P.file place.old) (P.app_faults place.old) (P.making_faults place.old)
        (wire_of (P.taken place.old) (P.writing_faults place.old) (P.tells place.old)))
        (placed (P.file place.new) (P.app_faults place.new) (P.making_faults place.new)
        (wire_of (P.taken place.new) (P.writing_faults place.new) (P.tells place.new)))
        (streams (G.left keys.old) (G.faults keys.old) (O.taken out) (O.faults out) 0)
        (streams (G.left keys.new) (G.faults keys.new) (O.taken result.1) (O.faults result.1) spent) (exit_status result.0) }
    ensures keeps { (name : List ℕ) (budget : Option ℕ) → IsLive (map (λ w. w.now) words.now) name budget
        → KeepsFiles name None (P.by_name place.old)
        (placed (P.file place.old) (P.app_faults place.old) (P.making_faults place.old)
        (wire_of (P.taken place.old) (P.writing_faults place.old) (P.tells place.old)))
        (placed (P.file place.new) (P.app_faults place.new) (P.making_faults place.new)
        (wire_of (P.taken place.new) (P.writing_faults place.new) (P.tells place.new))) }
    ensures untouched { IsNoLive (map (λ w. w.now) words.now)
        → placed (P.file place.new) (P.app_faults place.new) (P.making_faults place.new)
        (wire_of (P.taken place.new) (P.writing_faults place.new) (P.tells place.new))
        ≡ placed (P.file place.old) (P.app_faults place.old) (P.making_faults place.old)
        (wire_of (P.taken place.old) (P.writing_faults place.old) (P.tells place.old)) }

    // When they are due.
    ensures usage_due { IsNoLive (map (λ w. w.now) words.now)
        → (exit_status result.0 ≡ 2) ⊎ (exit_status result.0 ≡ 5) ⊎ (exit_status result.0 ≡ 7) }
    ensures refusal_due { (name : List ℕ) (budget : Option ℕ) (reason : Reason) → IsLive (map (λ w. w.now) words.now) name budget
        → (Rose (P.app_faults place.old name) (P.app_faults place.new name) → ⊥)
        → HasRefusal (H.bounds hosts.now) (P.file place.old name) reason
        → (exit_status result.0 ≡ 1) ⊎ (exit_status result.0 ≡ 5) ⊎ (exit_status result.0 ≡ 7) }
    ensures complete { (name : List ℕ) (budget : Option ℕ) → IsLive (map (λ w. w.now) words.now) name budget
        → (Rose (P.app_faults place.old name) (P.app_faults place.new name) → ⊥)
        → (Rose (G.faults keys.old) (G.faults keys.new) → ⊥)
        → (Rose (O.faults out) (O.faults result.1) → ⊥)
        → DeclaresApplication (H.bounds hosts.now) (P.file place.old name)
        → (exit_status result.0 ≡ 0) ⊎ (exit_status result.0 ≡ 8) ⊎ (exit_status result.0 ≡ 7) }

    ensures place_lent { P.lent place.new ≡ P.lent place.old }
    ensures lent { G.lent keys.new ≡ G.lent keys.old }
{
    let mut steps = own_steps();
    let Ended { status, out } = live_main(alloc, words, hosts, place, keys, out, &mut steps);
    (ExitCode::from(status), out)
}

// The words as texts.
fn texts_of<'a>(alloc: Global, words: &'a [String]) -> Result<Vec<&'a str>, AllocError>
    ensures { IfOk result (λ texts. map (λ t. t.now) texts.items ≡ map string_bytes words.now) }
{
    let mut texts = Vec::new(alloc);
    for word in words {
        texts.push(word.as_str())?;
    }
    Ok(texts)
}
