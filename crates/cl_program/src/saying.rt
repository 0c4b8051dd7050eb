//! The usage line, the line of a refusal, and that of a bench.
ghost use Rattle.std.specs.Prelude.{◌≡◌, ◌≤◌};
ghost use Rattle.cl_outside.specs.Writing.{Says};
ghost use Rattle.cl_program.specs.Command.{bench_head, bench_line, bench_tail, loads_line, refusal_line, uncovered_line, usage_line};

use cl_outside::{Sink, write_all, write_pieces};
use cl_session::Totals;
use itoa::Buffer;

/// The line that is said of words that are no command.
const USAGE: &str = "usage: clim_run run APP [--wire NAME] [--budget N] | check APP | bench N\n";

/// Writes the usage line; false where the sink failed.
pub fn say_usage<O: Sink>(out: &mut O) -> bool
    ensures lent { O.lent out.new ≡ O.lent out.old }
    ensures says { Says result (O.taken out.old) (O.taken out.new) usage_line (O.faults out.old)
        (O.faults out.new) }
    ensures later { O.faults out.old ≤ O.faults out.new }
{
    write_all(out, USAGE.as_bytes())
}

/// Writes the line that says that a text loads; false where the sink failed.
pub fn say_loads<O: Sink>(out: &mut O) -> bool
    ensures lent { O.lent out.new ≡ O.lent out.old }
    ensures says { Says result (O.taken out.old) (O.taken out.new) loads_line (O.faults out.old)
        (O.faults out.new) }
    ensures later { O.faults out.old ≤ O.faults out.new }
{
    write_all(out, b"loads\n")
}

/// Writes the line of a refusal with this number, at this offset in bytes; false where the sink
/// failed. It takes no memory.
pub fn say_refusal<O: Sink>(out: &mut O, number: u8, offset: u32) -> bool
    ensures lent { O.lent out.new ≡ O.lent out.old }
    ensures says { Says result (O.taken out.old) (O.taken out.new) (refusal_line number offset)
        (O.faults out.old) (O.faults out.new) }
    ensures later { O.faults out.old ≤ O.faults out.new }
{
    let mut number_digits = Buffer::new();
    let mut offset_digits = Buffer::new();
    write_pieces(
        out,
        &[
            b"refused ",
            number_digits.format(number).as_bytes(),
            b" at ",
            offset_digits.format(offset).as_bytes(),
            b"\n",
        ],
    )
}

/// Writes the line of an update at this offset that does not cover a path, by its text; false where the sink
/// failed. It takes no memory.
pub fn say_uncovered<O: Sink>(out: &mut O, offset: u32, path: &[u8]) -> bool
    ensures lent { O.lent out.new ≡ O.lent out.old }
    ensures says { Says result (O.taken out.old) (O.taken out.new) (uncovered_line offset path.now)
        (O.faults out.old) (O.faults out.new) }
    ensures later { O.faults out.old ≤ O.faults out.new }
{
    let mut offset_digits = Buffer::new();
    write_pieces(
        out,
        &[
            b"refused 11 at ",
            offset_digits.format(offset).as_bytes(),
            b" path ",
            path,
            b"\n",
        ],
    )
}

/// Writes the line of a bench of so many items, with the sums over what was told of its pane; false where the sink
/// failed. It takes no memory.
pub fn say_bench<O: Sink>(out: &mut O, items: u32, totals: &Totals) -> bool
    requires { items ≤ 1000 }
    ensures lent { O.lent out.new ≡ O.lent out.old }
    ensures says { Says result (O.taken out.old) (O.taken out.new) (bench_line items totals.now)
        (O.faults out.old) (O.faults out.new) }
    ensures later { O.faults out.old ≤ O.faults out.new }
{
    if !say_bench_head(out, items, totals.kept, totals.moved) {
        return false;
    }
    say_bench_tail(out, totals.drawn, totals.erased)
}

// `bench N gestures G kept K moved M`.
fn say_bench_head<O: Sink>(out: &mut O, items: u32, kept: u64, moved: u64) -> bool
    requires { items ≤ 1000 }
    ensures lent { O.lent out.new ≡ O.lent out.old }
    ensures says { Says result (O.taken out.old) (O.taken out.new) (bench_head items kept moved)
        (O.faults out.old) (O.faults out.new) }
    ensures later { O.faults out.old ≤ O.faults out.new }
{
    let mut item_digits = Buffer::new();
    let mut gesture_digits = Buffer::new();
    let mut kept_digits = Buffer::new();
    let mut moved_digits = Buffer::new();
    write_pieces(
        out,
        &[
            b"bench ",
            item_digits.format(items).as_bytes(),
            b" gestures ",
            gesture_digits.format(2 * items + 2).as_bytes(),
            b" kept ",
            kept_digits.format(kept).as_bytes(),
            b" moved ",
            moved_digits.format(moved).as_bytes(),
        ],
    )
}

// ` drawn D erased E` and the line feed.
fn say_bench_tail<O: Sink>(out: &mut O, drawn: u64, erased: u64) -> bool
    ensures lent { O.lent out.new ≡ O.lent out.old }
    ensures says { Says result (O.taken out.old) (O.taken out.new) (bench_tail drawn erased)
        (O.faults out.old) (O.faults out.new) }
    ensures later { O.faults out.old ≤ O.faults out.new }
{
    let mut drawn_digits = Buffer::new();
    let mut erased_digits = Buffer::new();
    write_pieces(
        out,
        &[
            b" drawn ",
            drawn_digits.format(drawn).as_bytes(),
            b" erased ",
            erased_digits.format(erased).as_bytes(),
            b"\n",
        ],
    )
}
