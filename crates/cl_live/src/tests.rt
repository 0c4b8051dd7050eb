//! Runs in a terminal of memory.
use crate::{Ended, live_main};
use cl_outside::{MemPlace, MemSink, MemSource, own_steps};
use cl_ptext::HostTypes;
use std::alloc::{AllocError, Global};
use std::test::Fail;

// A counter. Its display enters three forms.
const COUNTER: &[u8] =
    b"(define-application-frame counter (:size 3 1) (:slots (n integer 0)) (:panes (main 0 0 3 1 show)))
(define-display show () (write-text (text (slot n))))
(define-command com-add () (setf (slot n) (+ (slot n) 1)))
";

// Keys, and the numbers of the reads and of the writes that fail.
#[derive(Clone, Copy)]
struct Given<'a> {
    bytes: &'a [u8],
    reads_fail: &'a [u64],
    writes_fail: &'a [u64],
}

// Keys of which no read fails, nor a write.
fn quiet(bytes: &[u8]) -> Given<'_> {
    Given {
        bytes,
        reads_fail: &[],
        writes_fail: &[],
    }
}

// A run on these words, over a place with the counter and with a text that is refused.
fn run(alloc: Global, words: &[&str], keys: &Given<'_>) -> Result<Ended<MemSink>, AllocError> {
    let mut files = Vec::new(alloc);
    files.push((String::from_str(alloc, "app")?, COUNTER.to_vec(alloc)?))?;
    files.push((String::from_str(alloc, "bad")?, b"(".to_vec(alloc)?))?;
    let mut place = MemPlace::new(alloc, files, 0, Vec::new(alloc), Vec::new(alloc));
    let mut source = MemSource::new(keys.bytes.to_vec(alloc)?, keys.reads_fail.to_vec(alloc)?);
    let out = MemSink::new(
        alloc,
        4096,
        Vec::new(alloc),
        keys.writes_fail.to_vec(alloc)?,
    )?;
    let hosts = HostTypes { types: &[] };
    Ok(live_main(
        alloc,
        words,
        &hosts,
        &mut place,
        &mut source,
        out,
        &mut own_steps(),
    ))
}

#[test]
fn a_key_is_shown_up_to_the_end(rt: HostRuntime) -> Result<(), Fail> {
    let ended = run(rt.alloc(), &["app"], &quiet(b"add\r\x04add\r"))?;
    assert_eq!(rt; ended.status, 0);
    let wanted: &[u8] =
        b"\x1b[?1049h\x1b[?1000h\x1b[?1006h\x1b[2J\x1b[H\x1b[0m\x1b[2J\x1b[H\x1b[1;1H\x1b[39m0  \x1b[0m\
        \x1b[3;1Ha command\x1b[K\x1b[4;1H\x1b[K\x1b[5;1H\x1b[K\x1b[6;1H\x1b[K\x1b[7;1H\x1b[K\x1b[2;1H> \x1b[K\
        \x1b[1;1H\x1b[39m1\x1b[0m\x1b[0m\x1b[?1006l\x1b[?1000l\x1b[?1049l";
    assert_eq!(rt; ended.out.taken(), wanted);
    Ok(())
}

#[test]
fn a_budget_holds_displays(rt: HostRuntime) -> Result<(), Fail> {
    let ended = run(rt.alloc(), &["app", "--budget", "2"], &quiet(b""))?;
    assert_eq!(rt; ended.status, 0);
    let wanted: &[u8] =
        b"\x1b[?1049h\x1b[?1000h\x1b[?1006h\x1b[2J\x1b[H\x1b[0m\x1b[2J\x1b[H\x1b[1;1H\x1b[39mtra\x1b[0m\
        \x1b[3;1Ha command\x1b[K\x1b[4;1H\x1b[K\x1b[5;1H\x1b[K\x1b[6;1H\x1b[K\x1b[7;1H\x1b[K\x1b[2;1H> \x1b[K\
        \x1b[0m\x1b[?1006l\x1b[?1000l\x1b[?1049l";
    assert_eq!(rt; ended.out.taken(), wanted);
    Ok(())
}

#[test]
fn words_that_are_no_command(rt: HostRuntime) -> Result<(), Fail> {
    let usage: &[u8] = b"usage: clim_term APP [--budget N]\n";
    let ended = run(rt.alloc(), &["app", "--wire", "w"], &quiet(b""))?;
    assert_eq!(rt; ended.status, 2);
    assert_eq!(rt; ended.out.taken(), usage);
    assert_eq!(rt; run(rt.alloc(), &[], &quiet(b""))?.status, 2);
    assert_eq!(rt; run(rt.alloc(), &["check", "app"], &quiet(b""))?.status, 2);
    Ok(())
}

#[test]
fn texts_that_do_not_load(rt: HostRuntime) -> Result<(), Fail> {
    let refused: &[u8] = b"refused 2 at 1\n";
    let ended = run(rt.alloc(), &["bad"], &quiet(b"a"))?;
    assert_eq!(rt; ended.status, 1);
    assert_eq!(rt; ended.out.taken(), refused);
    let none: &[u8] = b"";
    let ended = run(rt.alloc(), &["none"], &quiet(b"a"))?;
    assert_eq!(rt; ended.status, 3);
    assert_eq!(rt; ended.out.taken(), none);
    Ok(())
}

// The first read of the keys fails, and the terminal is given back. Then the first write fails.
#[test]
fn faults(rt: HostRuntime) -> Result<(), Fail> {
    let unread = Given {
        bytes: b"a",
        reads_fail: &[1],
        writes_fail: &[],
    };
    let ended = run(rt.alloc(), &["app"], &unread)?;
    assert_eq!(rt; ended.status, 4);
    assert!(rt;
        ended
            .out
            .taken()
            .ends_with(b"\x1b[0m\x1b[?1006l\x1b[?1000l\x1b[?1049l")
    );
    let unwritten = Given {
        bytes: b"\x04",
        reads_fail: &[],
        writes_fail: &[1],
    };
    assert_eq!(rt; run(rt.alloc(), &["app"], &unwritten)?.status, 5);
    Ok(())
}
