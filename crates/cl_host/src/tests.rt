//! Host types that the program brings.
use crate::{HostType, month_names, month_number, weekday_names, weekday_number};
use cl_value::Text;
use std::test::Fail;

#[test]
fn days_are_read_by_their_names(rt: HostRuntime) -> Result<(), Fail> {
    let name = Text::from_slice(rt.alloc(), b"weekday")?;
    let names = weekday_names(rt.alloc())?;
    let read: Box<dyn Fn(&[u8]) -> Option<i64>> = Box::new(
        rt.alloc(),
        |text: &[u8]| weekday_number(text),
    )?;
    let weekday = HostType::new(name, 0, 6, names, read);
    assert_eq!(rt; weekday.read(b"Tuesday"), Some(1));
    assert_eq!(rt; weekday.read(b"tuesday"), None);
    assert_eq!(rt; weekday.name().as_slice(), b"weekday".as_slice());
    Ok(())
}

#[test]
fn months_are_read_by_their_names(rt: HostRuntime) -> Result<(), Fail> {
    let name = Text::from_slice(rt.alloc(), b"month")?;
    let names = month_names(rt.alloc())?;
    let read: Box<dyn Fn(&[u8]) -> Option<i64>> = Box::new(
        rt.alloc(),
        |text: &[u8]| month_number(text),
    )?;
    let month = HostType::new(name, 1, 12, names, read);
    assert_eq!(rt; month.read(b"December"), Some(12));
    assert_eq!(rt; month.read(b"Undecimber"), None);
    assert_eq!(rt; month.low(), 1);
    assert_eq!(rt; month.high(), 12);
    assert_eq!(rt; month.names().len(), 12);
    Ok(())
}
