//! The run that words ask for.
ghost use Rattle.std.specs.Prelude.{◌≡◌, ◌≢◌, ◌≤◌, ℕ, List, None, Option, map};
ghost use Rattle.cl_ansi.specs.Terminal.{IsTelling};
ghost use Rattle.cl_application.specs.Panes.{IsPlaced};
ghost use Rattle.cl_frame.specs.Ground.{ground, ground_of, meanings_of};
ghost use Rattle.cl_frame.specs.Sending.{wire_of};
ghost use Rattle.cl_live.specs.Runs.{RanOn, RanText, Went};
ghost use Rattle.cl_live.specs.Words.{IsLive, IsNoLive};
ghost use Rattle.cl_opening.specs.Opening.{opening_slots};
ghost use Rattle.cl_program.specs.Commands.{KeepsFiles};
ghost use Rattle.cl_program.specs.Hosts.{hosts_of, meanings_in, reads_in};
ghost use Rattle.cl_program.specs.Surroundings.{placed, streams};
ghost use Rattle.cl_ptext.specs.Subtyping.{hierarchy_in};
ghost use Rattle.cl_tables.specs.Rings.{HasNoRing};
ghost use Rattle.cl_updating.specs.Redisplays.{CanReuse};

use crate::ends::How;
use crate::saying::{tell_refusal, tell_usage};
use crate::words::{Asked, read_run, with_run};
use cl_ansi::AnsiDevice;
use cl_eval::{Limits, Program, Slots, Types};
use cl_load::{Loaded, load};
use cl_outside::{Ledger, Place, Sink, Source, Steps};
use cl_program::{TextRead, limits_of, read_text};
use cl_ptext::{Hosts, TypeBook};
use cl_terminal::{RunEnd, run};
use std::alloc::Global;

// How an application is run: with this memory, and limits of its displays and commands.
#[derive(Clone, Copy)]
struct Setting {
    alloc: Global,
    limits: Limits,
}

/// Runs in a terminal what the words behind the program's name ask for, with these host types.
pub(crate) fn run_words<H: Hosts, P: Place, G: Source, O: Sink, L: Ledger>(
    alloc: Global,
    words: &[&str],
    hosts: &H,
    place: &mut P,
    keys: &mut G,
    mut out: O,
    steps: &mut Steps<L>,
) -> (How, O)
    requires tells { IsTelling (O.lent out).told (O.taken out) }
    ensures went { Went (O.lent out).told (hosts_of H.bounds H.entries hosts.now) (map (λ w. w.now) words.now)
        (placed (P.file place.old) (P.app_faults place.old) (P.making_faults place.old)
        (wire_of (P.taken place.old) (P.writing_faults place.old) (P.tells place.old)))
        (placed (P.file place.new) (P.app_faults place.new) (P.making_faults place.new)
        (wire_of (P.taken place.new) (P.writing_faults place.new) (P.tells place.new)))
        (streams (G.left keys.old) (G.faults keys.old) (O.taken out) (O.faults out) steps.old)
        (streams (G.left keys.new) (G.faults keys.new) (O.taken result.1) (O.faults result.1) steps.new) result.0 }
    ensures keeps { (name : List ℕ) (budget : Option ℕ) → IsLive (map (λ w. w.now) words.now) name budget
        → KeepsFiles name None (P.by_name place.old)
        (placed (P.file place.old) (P.app_faults place.old) (P.making_faults place.old)
        (wire_of (P.taken place.old) (P.writing_faults place.old) (P.tells place.old)))
        (placed (P.file place.new) (P.app_faults place.new) (P.making_faults place.new)
        (wire_of (P.taken place.new) (P.writing_faults place.new) (P.tells place.new))) }
    ensures untouched { IsNoLive (map (λ w. w.now) words.now)
        → placed (P.file place.new) (P.app_faults place.new) (P.making_faults place.new)
        (wire_of (P.taken place.new) (P.writing_faults place.new) (P.tells place.new))
        ≡ placed (P.file place.old) (P.app_faults place.old) (P.making_faults place.old)
        (wire_of (P.taken place.old) (P.writing_faults place.old) (P.tells place.old)) }
    ensures place_lent { P.lent place.new ≡ P.lent place.old }
    ensures lent { G.lent keys.new ≡ G.lent keys.old }
    ensures later { G.faults keys.old ≤ G.faults keys.new }
    ensures out_later { O.faults out ≤ O.faults result.1 }
    ensures steps_later { steps.old ≤ steps.new }
{
    let Ok(all) = with_run(alloc, words) else {
        return (How::Memory, out);
    };
    let Ok(read) = read_run(alloc, all.as_slice()) else {
        return (How::Memory, out);
    };
    match read {
        Some(asked) => run_asked(alloc, asked, hosts, place, keys, out, steps),
        None => (tell_usage(&mut out), out),
    }
}

// Runs the application that was asked for.
fn run_asked<H: Hosts, P: Place, G: Source, O: Sink, L: Ledger>(
    alloc: Global,
    asked: Asked<'_>,
    hosts: &H,
    place: &mut P,
    keys: &mut G,
    out: O,
    steps: &mut Steps<L>,
) -> (How, O)
    requires tells { IsTelling (O.lent out).told (O.taken out) }
    ensures went { (words : List (List ℕ)) → IsLive words asked.entry.application.now asked.entry.budget
        → Went (O.lent out).told (hosts_of H.bounds H.entries hosts.now) words
        (placed (P.file place.old) (P.app_faults place.old) (P.making_faults place.old)
        (wire_of (P.taken place.old) (P.writing_faults place.old) (P.tells place.old)))
        (placed (P.file place.new) (P.app_faults place.new) (P.making_faults place.new)
        (wire_of (P.taken place.new) (P.writing_faults place.new) (P.tells place.new)))
        (streams (G.left keys.old) (G.faults keys.old) (O.taken out) (O.faults out) steps.old)
        (streams (G.left keys.new) (G.faults keys.new) (O.taken result.1) (O.faults result.1) steps.new) result.0 }
    ensures keeps { KeepsFiles asked.entry.application.now None (P.by_name place.old)
        (placed (P.file place.old) (P.app_faults place.old) (P.making_faults place.old)
        (wire_of (P.taken place.old) (P.writing_faults place.old) (P.tells place.old)))
        (placed (P.file place.new) (P.app_faults place.new) (P.making_faults place.new)
        (wire_of (P.taken place.new) (P.writing_faults place.new) (P.tells place.new))) }
    ensures place_lent { P.lent place.new ≡ P.lent place.old }
    ensures lent { G.lent keys.new ≡ G.lent keys.old }
    ensures later { G.faults keys.old ≤ G.faults keys.new }
    ensures out_later { O.faults out ≤ O.faults result.1 }
    ensures steps_later { steps.old ≤ steps.new }
{
    let setting = Setting {
        alloc,
        limits: limits_of(asked.budget),
    };
    match read_text(alloc, place, asked.application) {
        TextRead::Text(text) => run_text(text.as_slice(), hosts, setting, keys, out, steps),
        TextRead::Failed => (How::AppFault, out),
        TextRead::Memory => (How::Memory, out),
    }
}

// Runs the application of a text.
fn run_text<H: Hosts, G: Source, O: Sink, L: Ledger>(
    text: &[u8],
    hosts: &H,
    setting: Setting,
    keys: &mut G,
    mut out: O,
    steps: &mut Steps<L>,
) -> (How, O)
    requires tells { IsTelling (O.lent out).told (O.taken out) }
    requires depth { setting.limits.depth ≤ 512 }
    ensures ran { RanText (O.lent out).told (hosts_of H.bounds H.entries hosts.now) text.now setting.limits
        (streams (G.left keys.old) (G.faults keys.old) (O.taken out) (O.faults out) steps.old)
        (streams (G.left keys.new) (G.faults keys.new) (O.taken result.1) (O.faults result.1) steps.new) result.0 }
    ensures lent { G.lent keys.new ≡ G.lent keys.old }
    ensures later { G.faults keys.old ≤ G.faults keys.new }
    ensures out_later { O.faults out ≤ O.faults result.1 }
    ensures steps_later { steps.old ≤ steps.new }
{
    match load(setting.alloc, text, hosts) {
        Ok(loaded) => {
            let (end, out) = run_application(loaded, hosts, setting, keys, out, steps);
            (How::Ran(end), out)
        }
        Err(refusal) => (tell_refusal(setting.alloc, &refusal, &mut out), out),
    }
}

// Runs an application on its own types.
fn run_application<H: Hosts, G: Source, O: Sink, L: Ledger>(
    loaded: Loaded,
    hosts: &H,
    setting: Setting,
    keys: &mut G,
    out: O,
    steps: &mut Steps<L>,
) -> (RunEnd, O)
    requires tells { IsTelling (O.lent out).told (O.taken out) }
    requires depth { setting.limits.depth ≤ 512 }
    requires reuse { CanReuse loaded.app (meanings_in (H.entries hosts.now) loaded.lattice loaded.app) }
    ensures ran { RanOn (O.lent out).told (ground loaded.app (meanings_in (H.entries hosts.now) loaded.lattice loaded.app)
        (reads_in (H.entries hosts.now) loaded.lattice loaded.app) (hierarchy_in loaded.lattice) setting.limits)
        (streams (G.left keys.old) (G.faults keys.old) (O.taken out) (O.faults out) steps.old)
        (streams (G.left keys.new) (G.faults keys.new) (O.taken result.1) (O.faults result.1) steps.new) result.0 }
    ensures lent { G.lent keys.new ≡ G.lent keys.old }
    ensures later { G.faults keys.old ≤ G.faults keys.new }
    ensures out_later { O.faults out ≤ O.faults result.1 }
    ensures steps_later { steps.old ≤ steps.new }
{
    let types = TypeBook::new(setting.alloc, &loaded.app, &loaded.lattice, hosts);
    run_types(&loaded, &types, setting, keys, out, steps)
}

// Runs an application on these types.
fn run_types<'a, T: Types, G: Source, O: Sink, L: Ledger>(
    loaded: &'a Loaded,
    types: &'a T,
    setting: Setting,
    keys: &mut G,
    out: O,
    steps: &mut Steps<L>,
) -> (RunEnd, O)
    requires tells { IsTelling (O.lent out).told (O.taken out) }
    requires depth { setting.limits.depth ≤ 512 }
    requires reuse { CanReuse loaded.now.app (meanings_of T.holds T.presents types.now) }
    ensures ran { RanOn (O.lent out).told (ground loaded.now.app (meanings_of T.holds T.presents types.now) (T.reads types.now) (T.hierarchy types.now) setting.limits)
        (streams (G.left keys.old) (G.faults keys.old) (O.taken out) (O.faults out) steps.old)
        (streams (G.left keys.new) (G.faults keys.new) (O.taken result.1) (O.faults result.1) steps.new) result.0 }
    ensures lent { G.lent keys.new ≡ G.lent keys.old }
    ensures later { G.faults keys.old ≤ G.faults keys.new }
    ensures out_later { O.faults out ≤ O.faults result.1 }
    ensures steps_later { steps.old ≤ steps.new }
{
    let program = Program {
        alloc: setting.alloc,
        app: &loaded.app,
        types,
        limits: setting.limits,
    };
    run_program(&program, &loaded.slots, keys, out, steps)
}

// Runs a program in the terminal that an output is.
fn run_program<T: Types, G: Source, O: Sink, L: Ledger>(
    program: &Program<'_, T>,
    slots: &Slots,
    keys: &mut G,
    out: O,
    steps: &mut Steps<L>,
) -> (RunEnd, O)
    requires tells { IsTelling (O.lent out).told (O.taken out) }
    requires depth { program.now.limits.depth ≤ 512 }
    requires placed { IsPlaced program.now.app.now.frame }
    requires no_ring { HasNoRing program.now.app.now.tables }
    requires reuse { CanReuse program.now.app.now (meanings_of T.holds T.presents program.now.types.now) }
    requires opening { slots.now ≡ opening_slots program.now.app.now }
    ensures ran { RanOn (O.lent out).told (ground_of T.holds T.presents T.reads T.hierarchy program.now)
        (streams (G.left keys.old) (G.faults keys.old) (O.taken out) (O.faults out) steps.old)
        (streams (G.left keys.new) (G.faults keys.new) (O.taken result.1) (O.faults result.1) steps.new) result.0 }
    ensures lent { G.lent keys.new ≡ G.lent keys.old }
    ensures later { G.faults keys.old ≤ G.faults keys.new }
    ensures out_later { O.faults out ≤ O.faults result.1 }
    ensures steps_later { steps.old ≤ steps.new }
{
    let mut device = AnsiDevice::new(out);
    let end = run(program, slots, keys, &mut device, steps);
    (end, device.into_sink())
}
