//! What is found in forms that no application has: they are refused before. Offsets are those of a separate reference.
use super::reading::data_of;
use cl_forms::outers_of;
use cl_phases::{first_past, first_twice};
use std::test::Fail;

/// Forms, with the offset of the first name that is declared twice or is reserved.
const TWICE: [(&str, Option<u32>); 4] = [
    (
        "(define-command (com-a :command-table t1) ())(define-command com-a ())",
        Some(61),
    ),
    ("(define-command com-a ((k integer) (k integer)))", Some(36)),
    (
        "(define-application-frame w (:slots (p) (q)) (:panes (q) (p) (q)))",
        Some(62),
    ),
    ("(a) 5", None),
];

#[test]
fn names_that_stand_twice_are_found(rt: HostRuntime) -> Result<(), Fail> {
    for (text, wanted) in TWICE {
        let data = data_of(rt.alloc(), text.as_bytes())?;
        let outers = outers_of(rt.alloc(), data.as_slice())?;
        let found = first_twice(rt.alloc(), outers.as_slice())?;
        assert_eq!(rt; found, wanted, "{text}");
    }
    Ok(())
}

/// 4,096 numbers behind a declaration are one form too many.
#[test]
fn one_form_too_many_is_found(rt: HostRuntime) -> Result<(), Fail> {
    let numbers = " 1".repeat(rt.alloc(), 4096)?;
    let text = format!(in rt.alloc(); "(define-record r x){numbers}")?;
    let data = data_of(rt.alloc(), text.as_bytes())?;
    assert_eq!(rt; first_past(data.as_slice()), Some(8210));
    Ok(())
}

/// A frame has at most 16 panes, though it may have 256 slots.
#[test]
fn one_pane_too_many_is_found(rt: HostRuntime) -> Result<(), Fail> {
    let panes = " (n t 1)".repeat(rt.alloc(), 17)?;
    let text = format!(in rt.alloc(); "(define-application-frame w (:panes{panes}))")?;
    let data = data_of(rt.alloc(), text.as_bytes())?;
    assert_eq!(rt; first_past(data.as_slice()), Some(164));
    Ok(())
}
