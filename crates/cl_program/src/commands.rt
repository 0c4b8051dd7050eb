//! The commands of the program: an application is run, or checked, or a bench is run.
ghost use Rattle.std.specs.Prelude.{◌≡◌, ◌≤◌, ℕ, List, Option, [], Some, None, map, option_map, true};
ghost use Rattle.cl_application.specs.Panes.{IsPlaced};
ghost use Rattle.cl_frame.specs.Ground.{ground, ground_of, meanings_of};
ghost use Rattle.cl_frame.specs.Sending.{wire_of};
ghost use Rattle.cl_invocation.specs.Words.{invocation_of};
ghost use Rattle.cl_opening.specs.Opening.{opening_slots};
ghost use Rattle.cl_program.specs.Commands.{Checked, Judges, KeepsFiles, KeptBy, MakesNoneAt, RanOn, RanText, Tells};
ghost use Rattle.cl_program.specs.Hosts.{hosts_of, meanings_in, reads_in};
ghost use Rattle.cl_program.specs.Run.{Ran, RanLoaded};
ghost use Rattle.cl_program.specs.Surroundings.{placed, streams};
ghost use Rattle.cl_ptext.specs.Subtyping.{hierarchy_in};
ghost use Rattle.cl_tables.specs.Rings.{HasNoRing};
ghost use Rattle.cl_updating.specs.Redisplays.{CanReuse};

use crate::benching::run_bench;
use crate::running::{How, limits_of, run_program};
use crate::saying::{say_loads, say_refusal, say_uncovered, say_usage};
use crate::texts::{TextRead, read_text};
use cl_cover::path_text;
use cl_eval::{Limits, Program, Slots, Types};
use cl_invocation::{Invocation, read_words};
use cl_load::{LoadRefusal, Loaded, load};
use cl_outside::{Ledger, NullDevice, Opened, Place, PlaceSink, Sink, Source, Steps};
use cl_ptext::{Hosts, TypeBook};
use cl_raster::WireDevice;
use std::alloc::Global;

// How an application is run: with this memory, a file that its wire goes to, and limits of its displays and commands.
#[derive(Clone, Copy)]
struct Setting<'a> {
    alloc: Global,
    wire: Option<&'a str>,
    limits: Limits,
}

/// Runs the program on these words, with these host types.
pub fn run_words<H: Hosts, P: Place, G: Source, O: Sink, L: Ledger>(
    alloc: Global,
    words: &[&str],
    hosts: &H,
    place: &mut P,
    gestures: &mut G,
    out: &mut O,
    steps: &mut Steps<L>,
) -> How
    ensures ran { Ran (hosts_of H.bounds H.entries hosts.now) (map (λ w. w.now) words.now) (placed (P.file place.old)
        (P.app_faults place.old) (P.making_faults place.old)
        (wire_of (P.taken place.old) (P.writing_faults place.old) (P.tells place.old)))
        (placed (P.file place.new) (P.app_faults place.new) (P.making_faults place.new)
        (wire_of (P.taken place.new) (P.writing_faults place.new) (P.tells place.new)))
        (streams (G.left gestures.old) (G.faults gestures.old) (O.taken out.old) (O.faults out.old)
        steps.old) (streams (G.left gestures.new) (G.faults gestures.new) (O.taken out.new)
        (O.faults out.new) steps.new) result }
    ensures keeps { KeptBy (invocation_of (map (λ w. w.now) words.now)) (P.by_name place.old)
        (placed (P.file place.old) (P.app_faults place.old) (P.making_faults place.old)
        (wire_of (P.taken place.old) (P.writing_faults place.old) (P.tells place.old)))
        (placed (P.file place.new) (P.app_faults place.new) (P.making_faults place.new)
        (wire_of (P.taken place.new) (P.writing_faults place.new) (P.tells place.new))) }
    ensures makes { MakesNoneAt result (placed (P.file place.old) (P.app_faults place.old) (P.making_faults place.old)
        (wire_of (P.taken place.old) (P.writing_faults place.old) (P.tells place.old)))
        (placed (P.file place.new) (P.app_faults place.new) (P.making_faults place.new)
        (wire_of (P.taken place.new) (P.writing_faults place.new) (P.tells place.new))) }
    ensures place_lent { P.lent place.new ≡ P.lent place.old }
    ensures lent { G.lent gestures.new ≡ G.lent gestures.old }
    ensures later { G.faults gestures.old ≤ G.faults gestures.new }
    ensures out_lent { O.lent out.new ≡ O.lent out.old }
    ensures out_later { O.faults out.old ≤ O.faults out.new }
    ensures steps_later { steps.old ≤ steps.new }
{
    let Ok(read) = read_words(alloc, words) else {
        return How::Memory;
    };
    match read {
        None => {
            if say_usage(out) {
                return How::Usage;
            }
            How::UsageCut
        }
        Some(
            Invocation::Run {
                application,
                wire,
                budget,
            },
        ) => {
            let setting = Setting {
                alloc,
                wire,
                limits: limits_of(budget),
            };
            match read_text(alloc, place, application) {
                TextRead::Text(text) => {
                    run_text(text.as_slice(), hosts, setting, place, gestures, out, steps)
                }
                TextRead::Failed => How::AppFault,
                TextRead::Memory => How::Memory,
            }
        }
        Some(Invocation::Check { application }) => match read_text(alloc, place, application) {
            TextRead::Text(text) => check_text(alloc, text.as_slice(), hosts, out),
            TextRead::Failed => How::AppFault,
            TextRead::Memory => How::Memory,
        },
        Some(Invocation::Bench { items }) => run_bench(alloc, items, hosts, out, steps),
    }
}

// Runs the application of a text.
fn run_text<H: Hosts, P: Place, G: Source, O: Sink, L: Ledger>(
    text: &[u8],
    hosts: &H,
    setting: Setting<'_>,
    place: &mut P,
    gestures: &mut G,
    out: &mut O,
    steps: &mut Steps<L>,
) -> How
    requires depth { setting.limits.depth ≤ 512 }
    ensures ran { RanText (hosts_of H.bounds H.entries hosts.now) text.now
        (option_map (λ name. name.now) setting.entry.wire) setting.entry.limits
        (placed (P.file place.old) (P.app_faults place.old) (P.making_faults place.old)
        (wire_of (P.taken place.old) (P.writing_faults place.old) (P.tells place.old)))
        (placed (P.file place.new) (P.app_faults place.new) (P.making_faults place.new)
        (wire_of (P.taken place.new) (P.writing_faults place.new) (P.tells place.new)))
        (streams (G.left gestures.old) (G.faults gestures.old) (O.taken out.old) (O.faults out.old)
        steps.old) (streams (G.left gestures.new) (G.faults gestures.new) (O.taken out.new)
        (O.faults out.new) steps.new) result }
    ensures keeps { (application : List ℕ) → KeepsFiles application
        (option_map (λ name. name.now) setting.entry.wire) (P.by_name place.old)
        (placed (P.file place.old) (P.app_faults place.old) (P.making_faults place.old)
        (wire_of (P.taken place.old) (P.writing_faults place.old) (P.tells place.old)))
        (placed (P.file place.new) (P.app_faults place.new) (P.making_faults place.new)
        (wire_of (P.taken place.new) (P.writing_faults place.new) (P.tells place.new))) }
    ensures makes { MakesNoneAt result (placed (P.file place.old) (P.app_faults place.old) (P.making_faults place.old)
        (wire_of (P.taken place.old) (P.writing_faults place.old) (P.tells place.old)))
        (placed (P.file place.new) (P.app_faults place.new) (P.making_faults place.new)
        (wire_of (P.taken place.new) (P.writing_faults place.new) (P.tells place.new))) }
    ensures place_lent { P.lent place.new ≡ P.lent place.old }
    ensures lent { G.lent gestures.new ≡ G.lent gestures.old }
    ensures later { G.faults gestures.old ≤ G.faults gestures.new }
    ensures out_lent { O.lent out.new ≡ O.lent out.old }
    ensures out_later { O.faults out.old ≤ O.faults out.new }
    ensures steps_later { steps.old ≤ steps.new }
{
    match load(setting.alloc, text, hosts) {
        Ok(loaded) => run_application(loaded, hosts, setting, place, gestures, out, steps),
        Err(refusal) => tell_refusal(setting.alloc, &refusal, out),
    }
}

// Runs an application on its own types.
fn run_application<H: Hosts, P: Place, G: Source, O: Sink, L: Ledger>(
    loaded: Loaded,
    hosts: &H,
    setting: Setting<'_>,
    place: &mut P,
    gestures: &mut G,
    out: &mut O,
    steps: &mut Steps<L>,
) -> How
    requires depth { setting.limits.depth ≤ 512 }
    requires reuse { CanReuse loaded.app (meanings_in (H.entries hosts.now) loaded.lattice loaded.app) }
    ensures ran { RanOn (option_map (λ name. name.now) setting.entry.wire)
        (ground loaded.app (meanings_in (H.entries hosts.now) loaded.lattice loaded.app)
        (reads_in (H.entries hosts.now) loaded.lattice loaded.app) (hierarchy_in loaded.lattice) setting.entry.limits)
        (placed (P.file place.old) (P.app_faults place.old) (P.making_faults place.old)
        (wire_of (P.taken place.old) (P.writing_faults place.old) (P.tells place.old)))
        (placed (P.file place.new) (P.app_faults place.new) (P.making_faults place.new)
        (wire_of (P.taken place.new) (P.writing_faults place.new) (P.tells place.new)))
        (streams (G.left gestures.old) (G.faults gestures.old) (O.taken out.old) (O.faults out.old)
        steps.old) (streams (G.left gestures.new) (G.faults gestures.new) (O.taken out.new)
        (O.faults out.new) steps.new) result }
    ensures keeps { (application : List ℕ) → KeepsFiles application
        (option_map (λ name. name.now) setting.entry.wire) (P.by_name place.old)
        (placed (P.file place.old) (P.app_faults place.old) (P.making_faults place.old)
        (wire_of (P.taken place.old) (P.writing_faults place.old) (P.tells place.old)))
        (placed (P.file place.new) (P.app_faults place.new) (P.making_faults place.new)
        (wire_of (P.taken place.new) (P.writing_faults place.new) (P.tells place.new))) }
    ensures place_lent { P.lent place.new ≡ P.lent place.old }
    ensures lent { G.lent gestures.new ≡ G.lent gestures.old }
    ensures later { G.faults gestures.old ≤ G.faults gestures.new }
    ensures out_lent { O.lent out.new ≡ O.lent out.old }
    ensures out_later { O.faults out.old ≤ O.faults out.new }
    ensures steps_later { steps.old ≤ steps.new }
{
    let types = TypeBook::new(setting.alloc, &loaded.app, &loaded.lattice, hosts);
    run_types(&loaded, &types, setting, place, gestures, out, steps)
}

// Runs an application on these types.
fn run_types<'a, T: Types, P: Place, G: Source, O: Sink, L: Ledger>(
    loaded: &'a Loaded,
    types: &'a T,
    setting: Setting<'_>,
    place: &mut P,
    gestures: &mut G,
    out: &mut O,
    steps: &mut Steps<L>,
) -> How
    requires depth { setting.limits.depth ≤ 512 }
    requires reuse { CanReuse loaded.now.app (meanings_of T.holds T.presents types.now) }
    ensures ran { RanOn (option_map (λ name. name.now) setting.entry.wire)
        (ground loaded.now.app (meanings_of T.holds T.presents types.now) (T.reads types.now) (T.hierarchy types.now) setting.entry.limits)
        (placed (P.file place.old) (P.app_faults place.old) (P.making_faults place.old)
        (wire_of (P.taken place.old) (P.writing_faults place.old) (P.tells place.old)))
        (placed (P.file place.new) (P.app_faults place.new) (P.making_faults place.new)
        (wire_of (P.taken place.new) (P.writing_faults place.new) (P.tells place.new)))
        (streams (G.left gestures.old) (G.faults gestures.old) (O.taken out.old) (O.faults out.old)
        steps.old) (streams (G.left gestures.new) (G.faults gestures.new) (O.taken out.new)
        (O.faults out.new) steps.new) result }
    ensures keeps { (application : List ℕ) → KeepsFiles application
        (option_map (λ name. name.now) setting.entry.wire) (P.by_name place.old)
        (placed (P.file place.old) (P.app_faults place.old) (P.making_faults place.old)
        (wire_of (P.taken place.old) (P.writing_faults place.old) (P.tells place.old)))
        (placed (P.file place.new) (P.app_faults place.new) (P.making_faults place.new)
        (wire_of (P.taken place.new) (P.writing_faults place.new) (P.tells place.new))) }
    ensures place_lent { P.lent place.new ≡ P.lent place.old }
    ensures lent { G.lent gestures.new ≡ G.lent gestures.old }
    ensures later { G.faults gestures.old ≤ G.faults gestures.new }
    ensures out_lent { O.lent out.new ≡ O.lent out.old }
    ensures out_later { O.faults out.old ≤ O.faults out.new }
    ensures steps_later { steps.old ≤ steps.new }
{
    let program = Program {
        alloc: setting.alloc,
        app: &loaded.app,
        types,
        limits: setting.limits,
    };
    run_on(
        &program,
        &loaded.slots,
        setting.wire,
        place,
        gestures,
        out,
        steps,
    )
}

// Runs a program: on the file of its wire, or on a screen at which nobody looks.
fn run_on<T: Types, P: Place, G: Source, O: Sink, L: Ledger>(
    program: &Program<'_, T>,
    slots: &Slots,
    wire: Option<&str>,
    place: &mut P,
    gestures: &mut G,
    out: &mut O,
    steps: &mut Steps<L>,
) -> How
    requires depth { program.now.limits.depth ≤ 512 }
    requires placed { IsPlaced program.now.app.now.frame }
    requires no_ring { HasNoRing program.now.app.now.tables }
    requires reuse { CanReuse program.now.app.now (meanings_of T.holds T.presents program.now.types.now) }
    requires opening { slots.now ≡ opening_slots program.now.app.now }
    ensures ran { RanOn (option_map (λ name. name.now) wire.entry)
        (ground_of T.holds T.presents T.reads T.hierarchy program.now) (placed (P.file place.old) (P.app_faults place.old)
        (P.making_faults place.old)
        (wire_of (P.taken place.old) (P.writing_faults place.old) (P.tells place.old)))
        (placed (P.file place.new) (P.app_faults place.new) (P.making_faults place.new)
        (wire_of (P.taken place.new) (P.writing_faults place.new) (P.tells place.new)))
        (streams (G.left gestures.old) (G.faults gestures.old) (O.taken out.old) (O.faults out.old)
        steps.old) (streams (G.left gestures.new) (G.faults gestures.new) (O.taken out.new)
        (O.faults out.new) steps.new) result }
    ensures keeps { (application : List ℕ) → KeepsFiles application
        (option_map (λ name. name.now) wire.entry) (P.by_name place.old)
        (placed (P.file place.old) (P.app_faults place.old) (P.making_faults place.old)
        (wire_of (P.taken place.old) (P.writing_faults place.old) (P.tells place.old)))
        (placed (P.file place.new) (P.app_faults place.new) (P.making_faults place.new)
        (wire_of (P.taken place.new) (P.writing_faults place.new) (P.tells place.new))) }
    ensures place_lent { P.lent place.new ≡ P.lent place.old }
    ensures lent { G.lent gestures.new ≡ G.lent gestures.old }
    ensures later { G.faults gestures.old ≤ G.faults gestures.new }
    ensures out_lent { O.lent out.new ≡ O.lent out.old }
    ensures out_later { O.faults out.old ≤ O.faults out.new }
    ensures steps_later { steps.old ≤ steps.new }
{
    let Some(name) = wire else {
        let mut device = NullDevice::new();
        return run_program(program, slots, &mut device, gestures, out, steps);
    };
    match place.make_sink(name) {
        Opened::Done => run_on_wire(program, slots, place, gestures, out, steps),
        Opened::Failed => How::WireFault,
        Opened::Memory => How::Memory,
    }
}

// Runs a program on the sink that the place has just made.
fn run_on_wire<T: Types, P: Place, G: Source, O: Sink, L: Ledger>(
    program: &Program<'_, T>,
    slots: &Slots,
    place: &mut P,
    gestures: &mut G,
    out: &mut O,
    steps: &mut Steps<L>,
) -> How
    requires depth { program.now.limits.depth ≤ 512 }
    requires placed { IsPlaced program.now.app.now.frame }
    requires no_ring { HasNoRing program.now.app.now.tables }
    requires reuse { CanReuse program.now.app.now (meanings_of T.holds T.presents program.now.types.now) }
    requires opening { slots.now ≡ opening_slots program.now.app.now }
    requires made { P.made place.old ≡ true }
    requires unused { P.tells place.old ≡ true → P.taken place.old ≡ Some [] }
    ensures ran { RanLoaded (ground_of T.holds T.presents T.reads T.hierarchy program.now) (streams (G.left gestures.old)
        (G.faults gestures.old) (O.taken out.old) (O.faults out.old) steps.old)
        (streams (G.left gestures.new) (G.faults gestures.new) (O.taken out.new) (O.faults out.new)
        steps.new) (wire_of (P.taken place.old) (P.writing_faults place.old) (P.tells place.old))
        (wire_of (P.taken place.new) (P.writing_faults place.new) (P.tells place.new)) result }
    ensures others { (name : List ℕ) → P.others place.new name ≡ P.others place.old name }
    ensures app_faults { (name : List ℕ)
        → P.app_faults place.new name ≡ P.app_faults place.old name }
    ensures making { P.making_faults place.new ≡ P.making_faults place.old }
    ensures writing_later { P.writing_faults place.old ≤ P.writing_faults place.new }
    ensures tells { P.tells place.new ≡ P.tells place.old }
    ensures place_lent { P.lent place.new ≡ P.lent place.old }
    ensures lent { G.lent gestures.new ≡ G.lent gestures.old }
    ensures later { G.faults gestures.old ≤ G.faults gestures.new }
    ensures out_lent { O.lent out.new ≡ O.lent out.old }
    ensures out_later { O.faults out.old ≤ O.faults out.new }
    ensures steps_later { steps.old ≤ steps.new }
{
    let mut device = WireDevice::new(PlaceSink::new(place));
    let how = run_program(program, slots, &mut device, gestures, out, steps);
    let sink = device.sink;
    let _place = sink.place;
    how
}

// Says whether a text declares an application on these host types.
fn check_text<H: Hosts, O: Sink>(alloc: Global, text: &[u8], hosts: &H, out: &mut O) -> How
    ensures checked { (left : Option (List ℕ)) (faults spent : ℕ)
        → Checked (H.bounds hosts.now) text.now
        (streams left faults (O.taken out.old) (O.faults out.old) spent)
        (streams left faults (O.taken out.new) (O.faults out.new) spent) result }
    ensures lent { O.lent out.new ≡ O.lent out.old }
    ensures later { O.faults out.old ≤ O.faults out.new }
{
    match refusal_of(alloc, text, hosts) {
        None => {
            if say_loads(out) {
                return How::Loads;
            }
            How::LoadsCut
        }
        Some(refusal) => tell_refusal(alloc, &refusal, out),
    }
}

// Why a text does not load, where it does not.
#[tactic(auto, using(crate::proofs::CommandLemmas::stands))]
fn refusal_of<H: Hosts>(alloc: Global, text: &[u8], hosts: &H) -> Option<LoadRefusal>
    ensures { Judges (H.bounds hosts.now) text.now result }
{
    match load(alloc, text, hosts) {
        Ok(_) => return None,
        Err(refusal) => return Some(refusal),
    }
}

/// Says why a text does not load.
pub(crate) fn tell_refusal<O: Sink>(alloc: Global, refusal: &LoadRefusal, out: &mut O) -> How
    ensures tells { (left : Option (List ℕ)) (faults spent : ℕ) → Tells refusal.now
        (streams left faults (O.taken out.old) (O.faults out.old) spent)
        (streams left faults (O.taken out.new) (O.faults out.new) spent) result }
    ensures lent { O.lent out.new ≡ O.lent out.old }
    ensures later { O.faults out.old ≤ O.faults out.new }
{
    match refusal {
        LoadRefusal::Refused(number, offset) => {
            if say_refusal(out, *number, *offset) {
                return How::Refused;
            }
            How::RefusalCut
        }
        LoadRefusal::Uncovered(offset, path) => {
            let Ok(text) = path_text(alloc, path) else {
                return How::Memory;
            };
            if say_uncovered(out, *offset, text.as_slice()) {
                return How::Refused;
            }
            How::RefusalCut
        }
        LoadRefusal::Memory => How::Memory,
    }
}
