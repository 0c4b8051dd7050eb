//! The bytes that a terminal is sent.
ghost use Rattle.cl_outside.specs.Device.{IsSpan};

use crate::AnsiDevice;
use cl_outside::{Device, MemSink, Sent};
use std::alloc::{AllocError, Global};
use std::test::Fail;

/// A terminal over a sink of which these writes fail.
fn terminal(alloc: Global, fails: &[u64]) -> Result<AnsiDevice<MemSink>, AllocError> {
    let sink = MemSink::new(alloc, 200, Vec::new(alloc), fails.to_vec(alloc)?)?;
    Ok(AnsiDevice::new(sink))
}

/// A span, where the terminal is whole.
fn show(device: &mut AnsiDevice<MemSink>, x: u16, y: u16, ink: u8, glyphs: &[u8]) -> Sent
    requires { IsSpan ink glyphs.now }
{
    if device.is_broken() {
        return Sent::Failed;
    }
    device.span(x, y, ink, glyphs)
}

#[test]
fn spans_behind_a_clear(rt: HostRuntime) -> Result<(), Fail> {
    let mut device = terminal(rt.alloc(), &[])?;
    assert_eq!(rt; device.clear(80, 24), Sent::Done);
    assert_eq!(rt; show(&mut device, 10, 3, 3, b"ab"), Sent::Done);
    assert_eq!(rt; show(&mut device, 0, 0, 0, b"c d"), Sent::Done);
    let wanted: &[u8] =
        b"\x1b[0m\x1b[2J\x1b[H\x1b[4;11H\x1b[33mab\x1b[0m\x1b[1;1H\x1b[39mc d\x1b[0m";
    assert_eq!(rt; device.into_sink().taken(), wanted);
    Ok(())
}

#[test]
fn what_lies_outside_is_not_sent(rt: HostRuntime) -> Result<(), Fail> {
    let mut device = terminal(rt.alloc(), &[])?;
    assert_eq!(rt; show(&mut device, 0, 0, 1, b"a"), Sent::Done);
    assert_eq!(rt; device.clear(3, 2), Sent::Done);
    assert_eq!(rt; show(&mut device, 1, 0, 7, b"abcd"), Sent::Done);
    assert_eq!(rt; show(&mut device, 3, 0, 7, b"a"), Sent::Done);
    assert_eq!(rt; show(&mut device, 0, 2, 7, b"a"), Sent::Done);
    let wanted: &[u8] = b"\x1b[0m\x1b[2J\x1b[H\x1b[1;2H\x1b[37mab\x1b[0m";
    assert_eq!(rt; device.into_sink().taken(), wanted);
    Ok(())
}

// The third write is the second one of a span.
#[test]
fn a_clear_mends_a_span_that_broke_off(rt: HostRuntime) -> Result<(), Fail> {
    let mut device = terminal(rt.alloc(), &[3])?;
    assert_eq!(rt; device.clear(3, 1), Sent::Done);
    assert_eq!(rt; show(&mut device, 0, 0, 1, b"a"), Sent::Failed);
    assert!(rt; device.is_broken());
    assert_eq!(rt; device.clear(3, 1), Sent::Done);
    assert_eq!(rt; show(&mut device, 0, 0, 1, b"a"), Sent::Done);
    let wanted: &[u8] = b"\x1b[0m\x1b[2J\x1b[H\x1b[\x1b[0m\x1b[2J\x1b[H\x1b[1;1H\x1b[31ma\x1b[0m";
    assert_eq!(rt; device.into_sink().taken(), wanted);
    Ok(())
}

#[test]
fn a_terminal_is_taken_over_and_given_back(rt: HostRuntime) -> Result<(), Fail> {
    let mut device = terminal(rt.alloc(), &[])?;
    assert_eq!(rt; device.enter(), Sent::Done);
    assert_eq!(rt; device.write(b"hi"), Sent::Done);
    assert_eq!(rt; device.leave(), Sent::Done);
    let wanted: &[u8] =
        b"\x1b[?1049h\x1b[?1000h\x1b[?1006h\x1b[2J\x1b[Hhi\x1b[0m\x1b[?1006l\x1b[?1000l\x1b[?1049l";
    assert_eq!(rt; device.into_sink().taken(), wanted);
    Ok(())
}
