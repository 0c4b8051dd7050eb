//! The bench: a workload of some items is made, run and counted.
ghost use Rattle.std.specs.Prelude.{◌≡◌, ◌≤◌, ℕ, List, Option};
ghost use Rattle.cl_program.specs.Commands.{RanBench, TellsTotals};
ghost use Rattle.cl_program.specs.Hosts.{hosts_of};
ghost use Rattle.cl_program.specs.Surroundings.{streams};

use crate::commands::tell_refusal;
use crate::measuring::measure;
use crate::running::How;
use crate::saying::say_bench;
use cl_gen::make;
use cl_load::load;
use cl_outside::{Ledger, Sink, Steps};
use cl_ptext::Hosts;
use cl_session::Totals;
use std::alloc::{AllocError, Global};

/// Runs the bench of so many items, and writes its line.
pub fn run_bench<H: Hosts, O: Sink, L: Ledger>(
    alloc: Global,
    items: u32,
    hosts: &H,
    out: &mut O,
    steps: &mut Steps<L>,
) -> How
    requires least { 1 ≤ items }
    requires most { items ≤ 1000 }
    ensures ran { (left : Option (List ℕ)) (faults : ℕ) → RanBench (hosts_of H.bounds H.entries hosts.now) items
        (streams left faults (O.taken out.old) (O.faults out.old) steps.old)
        (streams left faults (O.taken out.new) (O.faults out.new) steps.new) result }
    ensures out_lent { O.lent out.new ≡ O.lent out.old }
    ensures out_later { O.faults out.old ≤ O.faults out.new }
    ensures steps_later { steps.old ≤ steps.new }
{
    let Ok((application, gestures)) = make(alloc, items) else {
        return How::Memory;
    };
    match load(alloc, application.as_slice(), hosts) {
        Ok(loaded) => match measure(alloc, &loaded, hosts, gestures.as_slice(), steps) {
            Ok(totals) => tell_totals(items, totals, out),
            Err(AllocError) => How::Memory,
        },
        Err(refusal) => tell_refusal(alloc, &refusal, out),
    }
}

// Says the sums of a bench, where memory was enough for all its gestures.
fn tell_totals<O: Sink>(items: u32, totals: Totals, out: &mut O) -> How
    requires { items ≤ 1000 }
    ensures tells { TellsTotals items totals (O.taken out.old) (O.taken out.new) (O.faults out.old) (O.faults out.new) result }
    ensures lent { O.lent out.new ≡ O.lent out.old }
    ensures later { O.faults out.old ≤ O.faults out.new }
{
    if totals.memory != 0 {
        return How::Memory;
    }
    if say_bench(out, items, &totals) {
        return How::Benched;
    }
    How::BenchCut
}
