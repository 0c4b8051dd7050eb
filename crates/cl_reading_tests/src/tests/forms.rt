//! A text and its forms.
use cl_forms::{Form, all_forms};
use cl_sexp::read_forms;
use std::test::Fail;

/// Offsets and contents are those of a separate reference.
const TEXT: &[u8] = b"(Define-X 'Ab \"c\\\"d\\\\\" -5 ()) ;e\n\"\xe9\"";

/// An atom's kind, content and offset.
fn shown(form: &Form) -> (u8, &[u8], u32) {
    match form {
        Form::Number(_, at) => (0, b"", *at),
        Form::Literal(text, at) => (1, text.as_slice(), *at),
        Form::Name(text, at) => (2, text.as_slice(), *at),
        Form::Parts(_, at) => (3, b"", *at),
    }
}

#[test]
fn puts_forms_together(rt: HostRuntime) -> Result<(), Fail> {
    assert!(rt; TEXT.len() <= 1_048_576);
    let tokens = read_forms(rt.alloc(), TEXT)?;
    let forms = all_forms(rt.alloc(), TEXT, tokens.as_slice())?;
    let [first, second] = forms.as_slice() else {
        return Err(Fail::from("two forms"));
    };
    assert_eq!(rt; shown(second), (1, b"\xe9".as_slice(), 33));
    let Form::Parts(parts, 0) = first else {
        return Err(Fail::from("a form"));
    };
    let [define, quote, name, text, number, empty] = parts.as_slice() else {
        return Err(Fail::from("six parts"));
    };
    assert_eq!(rt; shown(define), (2, b"define-x".as_slice(), 1));
    assert_eq!(rt; shown(quote), (2, b"'".as_slice(), 10));
    assert_eq!(rt; shown(name), (2, b"ab".as_slice(), 11));
    assert_eq!(rt; shown(text), (1, b"c\"d\\".as_slice(), 14));
    assert!(rt; matches!(number, Form::Number(-5, 23)));
    assert!(rt; matches!(empty, Form::Parts(_, 26)));
    Ok(())
}
