//! Rows below a screen, and a line with objects.
use crate::{interactor, put_typed};
use cl_line::Line;
use cl_value::Value;
use std::test::Fail;

#[test]
fn rows_stand_below_the_screen(rt: HostRuntime) -> Result<(), Fail> {
    let typed = b"Add \x1bx";
    let bytes = interactor(rt.alloc(), 9, typed, b"how many", b"ok Add\nmain\n")?;
    assert_eq!(rt;
        bytes.as_slice(),
        b"\x1b[11;1Hhow many\x1b[K\x1b[12;1Hok Add\x1b[K\x1b[13;1Hmain\x1b[K\x1b[14;1H\x1b[K\x1b[15;1H\x1b[K\x1b[10;1H> Add ?x\x1b[K".as_slice()
    );
    Ok(())
}

#[test]
fn objects_are_shown_as_they_are_printed(rt: HostRuntime) -> Result<(), Fail> {
    let alloc = rt.alloc();
    let mut line = Line::new(alloc)?;
    let _ = line.push_text(b"Move ");
    let _ = line.push_object(4, Value::Int(-7));
    let mut bytes = Vec::new(alloc);
    put_typed(&mut bytes, &line)?;
    assert_eq!(rt; bytes.as_slice(), b"Move -7".as_slice());
    Ok(())
}
