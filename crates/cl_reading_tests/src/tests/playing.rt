//! Operations on a wire, and its playback.
ghost use Rattle.std.specs.Prelude.{◌≡◌, [], IfOk};
ghost use Rattle.cl_outside.specs.Memory.{AllPositive};

use super::saying::put_bytes;
use cl_outside::{Device, MemSink, Sent};
use cl_raster::{Raster, WireDevice, play};
use std::alloc::{AllocError, Global};
use std::test::Fail;

/// The rows of a raster: its glyphs, and then its inks, each row with a slash behind it.
fn put_rows(said: &mut String, raster: &Raster) -> Result<(), AllocError> {
    for y in 0..raster.height() {
        put_bytes(said, raster.row(y))?;
        said.push('|')?;
        for ink in raster.inks(y) {
            write!(said, "{ink}")?;
        }
        said.push('/')?;
    }
    Ok(())
}

/// Bytes of a wire, and what their playback shows: lines that are no operation, or half of one, change nothing.
const WIRES: &[(&[u8], &str)] = &[
    (b"", " |0/"),
    (b"S 0 0 1 a\n", " |0/"),
    (
        b"C 3 2\nS 1 0 2 abc\nS 0 1 7 x\nS 3 0 1 q\nS 0 2 1 q\n",
        " ab|022/x  |700/",
    ),
    (b"C 3 1\nS 0 0 1 ab", "   |000/"),
    (b"C 3 1\nS 0 0 1  a \n", " a |111/"),
    (b"C 3 1\nS 0 0 8 a\nS 0 0 1 \nS 00 0 1 a\n", "   |000/"),
    (b"C 3 1\nS +0 0 1 a\nS 0  0 1 a\ns 0 0 1 a\n", "   |000/"),
    (
        b"C 3 1\nC 3 1 \nC 03 1\nC 0 1\nC 513 1\n\nC 1\n",
        "   |000/",
    ),
    (
        b"C 3 1\nS 99999999999999999999 0 1 a\nS 0 65536 1 a\nS 0 0 1 \t\n",
        "   |000/",
    ),
    (b"C 3 1\nS 0 0 1 ab\nC 12\nC 2 1\n", "  |00/"),
    (b"C 3 1\nS 0 0 1 abC 2 1\n", "abC|111/"),
];

#[test]
fn wires_are_played(rt: HostRuntime) -> Result<(), Fail> {
    for (bytes, shown) in WIRES {
        let mut said = String::new(rt.alloc());
        put_rows(&mut said, &play(rt.alloc(), bytes)?)?;
        assert_eq!(rt; said.as_str(), *shown);
    }
    Ok(())
}

/// A sink that takes three bytes of its second write, and whose third write fails.
fn sink(alloc: Global) -> Result<MemSink, AllocError>
    ensures { IfOk result (λ s. s.taken ≡ []) }
{
    MemSink::new(alloc, 200, pieces(alloc)?, [3].to_vec(alloc)?)
}

/// What its first writes take.
fn pieces(alloc: Global) -> Result<Vec<usize>, AllocError>
    ensures { IfOk result (λ v. AllPositive v.items) }
{
    [100, 3].to_vec(alloc)
}

/// A picture is cleared and painted; the sink fails in the span, and a `clear` mends what broke off.
fn sent(device: &mut WireDevice<MemSink>, said: &mut String) -> Result<(), AllocError> {
    let mut answers = [Sent::Done; 4];
    answers[0] = device.clear(12, 2);
    if !device.broken {
        answers[1] = device.span(0, 1, 3, b"ab");
    }
    answers[2] = device.clear(12, 2);
    if !device.broken {
        answers[3] = device.span(0, 1, 3, b"ab");
    }
    for answer in answers {
        said.push_str(if answer == Sent::Done {
            "done|"
        } else {
            "failed|"
        })?;
    }
    Ok(())
}

#[test]
fn an_operation_breaks_off(rt: HostRuntime) -> Result<(), Fail> {
    let mut device = WireDevice::new(sink(rt.alloc())?);
    let mut said = String::new(rt.alloc());
    sent(&mut device, &mut said)?;
    assert_eq!(rt; said.as_str(), "done|failed|done|done|");
    let wanted: &[u8] = b"C 12 2\nS 0\nC 12 2\nS 0 1 3 ab\n";
    assert_eq!(rt; device.sink.taken(), wanted);
    Ok(())
}
