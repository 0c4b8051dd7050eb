//! What is told in memory and over files, with a call that fails in the middle.
ghost use Rattle.std.specs.Prelude.{◌≡◌, true, false};

use cl_outside::{
    Cell, Device, FilePlace, LentSource, MemDevice, MemPlace, MemSink, MemSource, NullSink, Opened,
    Place, PlaceSink, ReaderSource, Sent, Sink, Source, Took, WriterSink, own_steps,
};
use std::alloc::{AllocError, Global};
use std::test::Fail;
use std::{env, fs, process};

/// What a call took of these bytes, in brackets, or `F`.
fn put_took(said: &mut String, took: Took, bytes: &[u8]) -> Result<(), AllocError> {
    let Took::Bytes(count) = took else {
        return Ok(said.push('F')?);
    };
    said.push('[')?;
    for byte in bytes.iter().take(count) {
        said.push(char::from(*byte))?;
    }
    Ok(said.push(']')?)
}

/// What so many reads hand over.
fn reads<S: Source>(alloc: Global, source: &mut S, calls: u8) -> Result<String, AllocError> {
    let mut said = String::new(alloc);
    let mut buf = [0u8; 4];
    for _ in 0..calls {
        let took = source.read(&mut buf);
        put_took(&mut said, took, &buf)?;
    }
    Ok(said)
}

/// What one write takes.
fn write<S: Sink>(said: &mut String, sink: &mut S, text: &str) -> Result<(), AllocError> {
    let bytes = text.as_bytes();
    if bytes.is_empty() {
        return Ok(());
    }
    let took = sink.write(bytes);
    put_took(said, took, bytes)
}

/// What writes of `abc`, `defg` and `hijk` take.
fn writes<S: Sink>(alloc: Global, sink: &mut S) -> Result<String, AllocError> {
    let mut said = String::new(alloc);
    write(&mut said, sink, "abc")?;
    write(&mut said, sink, "defg")?;
    write(&mut said, sink, "hijk")?;
    Ok(said)
}

#[test]
fn a_source_in_memory(rt: HostRuntime) -> Result<(), Fail> {
    let alloc = rt.alloc();
    let mut source = MemSource::new(b"abcdef".to_vec(alloc)?, [2].to_vec(alloc)?);
    let mut lent = LentSource::new(&mut source);
    assert_eq!(rt; reads(alloc, &mut lent, 4)?.as_str(), "[abcd]F[ef][]");
    Ok(())
}

#[test]
fn a_sink_in_memory(rt: HostRuntime) -> Result<(), Fail> {
    let alloc = rt.alloc();
    let mut sink = MemSink::new(alloc, 6, Vec::new(alloc), [2].to_vec(alloc)?)?;
    assert_eq!(rt; writes(alloc, &mut sink)?.as_str(), "[abc]F[hij]");
    assert_eq!(rt; sink.taken(), b"abchij".as_slice());
    Ok(())
}

#[test]
fn a_sink_that_drops_all(rt: HostRuntime) -> Result<(), Fail> {
    let mut sink = NullSink::new();
    assert_eq!(rt;
        writes(rt.alloc(), &mut sink)?.as_str(),
        "[abc][defg][hijk]"
    );
    Ok(())
}

/// One read more of the open source.
fn read_on<P: Place>(said: &mut String, place: &mut P) -> Result<(), AllocError>
    requires { P.opened place.old ≡ true }
    ensures { P.opened place.new ≡ true }
{
    let mut buf = [0u8; 4];
    let took = place.read_source(&mut buf);
    put_took(said, took, &buf)
}

/// What two reads of a file hand over, or what the opening answers.
fn read_through<P: Place>(alloc: Global, place: &mut P, name: &str) -> Result<String, AllocError> {
    let mut said = String::new(alloc);
    match place.open_source(name) {
        Opened::Failed => said.push_str("failed")?,
        Opened::Memory => said.push_str("memory")?,
        Opened::Done => {
            read_on(&mut said, place)?;
            read_on(&mut said, place)?;
        }
    }
    Ok(said)
}

/// What the writes to a new file of this name take, or what the making answers.
fn write_through<P: Place>(alloc: Global, place: &mut P, name: &str) -> Result<String, AllocError> {
    match place.make_sink(name) {
        Opened::Failed => String::from_str(alloc, "failed"),
        Opened::Memory => String::from_str(alloc, "memory"),
        Opened::Done => writes(alloc, &mut PlaceSink::new(place)),
    }
}

/// A place with the file `a`; the fifth of its calls fails.
fn place(alloc: Global) -> Result<MemPlace, AllocError> {
    let name = String::from_str(alloc, "a")?;
    let content = b"abcdef".to_vec(alloc)?;
    let mut files = Vec::new(alloc);
    files.push((name, content))?;
    let fails = [5].to_vec(alloc)?;
    Ok(MemPlace::new(alloc, files, 7, Vec::new(alloc), fails))
}

/// Whether the file of this name has these bytes.
fn has(place: &MemPlace, name: &str, bytes: &[u8]) -> bool {
    place.file(name) == Some(bytes)
}

#[test]
fn a_place_in_memory(rt: HostRuntime) -> Result<(), Fail> {
    let alloc = rt.alloc();
    let mut place = place(alloc)?;
    assert_eq!(rt;
        read_through(alloc, &mut place, "a")?.as_str(),
        "[abcd][ef]"
    );
    // calls 4 to 7
    assert_eq!(rt;
        write_through(alloc, &mut place, "b")?.as_str(),
        "F[defg][hij]"
    );
    assert_eq!(rt; read_through(alloc, &mut place, "c")?.as_str(), "failed");
    assert!(rt; has(&place, "a", b"abcdef"));
    assert!(rt; has(&place, "b", b"defghij"));
    Ok(())
}

#[test]
fn a_device_that_was_not_cleared(rt: HostRuntime) -> Result<(), Fail> {
    let mut device = MemDevice::new(rt.alloc(), Vec::new(rt.alloc()))?;
    assert_eq!(rt; device.span(0, 0, 1, b"A"), Sent::Done);
    Ok(())
}

#[test]
fn a_device_in_memory(rt: HostRuntime) -> Result<(), Fail> {
    let mut device = MemDevice::new(rt.alloc(), Vec::new(rt.alloc()))?;
    if device.clear(4, 2) == Sent::Done && device.span(2, 1, 3, b"abc") == Sent::Done {
        let cell = Cell {
            glyph: b'b',
            ink: 3,
        };
        assert_eq!(rt; device.cell(3, 1), cell);
        return Ok(());
    }
    Err("no device".into())
}

#[test]
fn a_device_that_fails(rt: HostRuntime) -> Result<(), Fail> {
    let mut device = MemDevice::new(rt.alloc(), [1].to_vec(rt.alloc())?)?;
    assert_eq!(rt; device.clear(4, 2), Sent::Failed);
    assert_eq!(rt; device.clear(3, 1), Sent::Done);
    Ok(())
}

#[test]
fn steps_in_a_ledger(rt: HostRuntime) {
    let mut steps = own_steps();
    for _ in 0..5 {
        steps.tick();
    }
    assert_eq!(rt; steps.ledger().seen(), 5);
}

/// The path of a file of one test.
fn path(rt: &HostRuntime, test: &str) -> Result<String, Fail> {
    let number = process::id(rt.process());
    let name = format!(in rt.alloc(); "cl_outside_{test}_{number}")?;
    Ok(
        env::temp_dir(rt)?
            .join(rt.alloc(), name.as_str())?
            .into_string(),
    )
}

#[test]
fn files(rt: HostRuntime) -> Result<(), Fail> {
    let alloc = rt.alloc();
    let path = path(&rt, "place")?;
    let mut place = FilePlace::new(rt.clone()?);
    assert_eq!(rt;
        write_through(alloc, &mut place, path.as_str())?.as_str(),
        "[abc][defg][hijk]"
    );
    assert_eq!(rt;
        read_through(alloc, &mut place, path.as_str())?.as_str(),
        "[abcd][efgh]"
    );
    assert_eq!(rt; write_through(alloc, &mut place, "/")?.as_str(), "failed");
    // a folder can be opened and not read
    assert_eq!(rt; read_through(alloc, &mut place, "/")?.as_str(), "FF");
    fs::remove_file(&rt, path.as_str())?;
    Ok(())
}

#[test]
fn adapters_over_files(rt: HostRuntime) -> Result<(), Fail> {
    let alloc = rt.alloc();
    let path = path(&rt, "adapters")?;
    let path = path.as_str();
    let mut sink = WriterSink::new(fs::create(&rt, path)?);
    assert_eq!(rt; writes(alloc, &mut sink)?.as_str(), "[abc][defg][hijk]");
    let mut source = ReaderSource::new(fs::open(&rt, path)?);
    assert_eq!(rt;
        reads(alloc, &mut source, 4)?.as_str(),
        "[abcd][efgh][ijk][]"
    );
    // a file that was opened to be read takes no byte
    let mut sink = WriterSink::new(fs::open(&rt, path)?);
    assert_eq!(rt; writes(alloc, &mut sink)?.as_str(), "FFF");
    fs::remove_file(&rt, path)?;
    Ok(())
}
