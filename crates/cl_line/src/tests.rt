//! Lines of characters and objects, with memory for all. In these texts an `@` stands for an object.
use crate::{Line, LineSlot, MAX_ELEMENTS, Named, Pushed, Token, TokenKind};
use cl_value::Value;
use std::alloc::{AllocError, Global};
use std::test::Fail;

/// A line, where tokens begin, and its tokens, the place, and how many elements it has with one more object.
const CUTS: [(&str, usize, &str); 46] = [
    ("", 0, "name 1"),
    ("   ", 0, "1 4"),
    ("Pick", 4, "name 5"),
    ("Pick ", 4, "1 6"),
    ("Pick 7", 4, "plain 5-6 7 | 1 6"),
    ("Pick 7 ", 4, "plain 5-6 7 | 2 8"),
    ("Pick 7 8", 4, "plain 5-6 7 | plain 7-8 8 | 2 8"),
    ("Pick 7 8 ", 4, "plain 5-6 7 | plain 7-8 8 | past 10"),
    (
        "Pick 7 8 9",
        4,
        "plain 5-6 7 | plain 7-8 8 | plain 9-10 9 | past 10",
    ),
    ("Pick 7@", 4, "plain 5-6 7 | object 6-7 | past 8"),
    ("Pick @7", 4, "object 5-6 | plain 6-7 7 | 2 7"),
    ("Pick@", 4, "object 4-5 | 2 6"),
    (
        "Pick @@ @",
        4,
        "object 5-6 | object 6-7 | object 8-9 | past 10",
    ),
    ("Pick \"a b\"", 4, "quoted 5-10 a b | 2 11"),
    ("Pick \"a b", 4, "open 5-9 | 1 6"),
    ("Pick \"a b\" ", 4, "quoted 5-10 a b | 2 12"),
    ("Pick \"a\"b", 4, "quoted 5-8 a | plain 8-9 b | 2 9"),
    (
        "Pick \"a\"\"b\"",
        4,
        "quoted 5-8 a | quoted 8-11 b | past 12",
    ),
    ("Pick a\"b c\"", 4, "plain 5-8 a\"b | plain 9-11 c\" | 2 10"),
    ("Pick \"\"", 4, "quoted 5-7  | 2 8"),
    ("Pick \"", 4, "open 5-6 | 1 6"),
    ("Pick \"a\\\"b\"", 4, "quoted 5-11 a\"b | 2 12"),
    ("Pick \"a\\\\\"", 4, "quoted 5-10 a\\ | 2 11"),
    ("Pick \"a\\", 4, "open 5-8 | 1 6"),
    ("Pick \"a\\\" ", 4, "open 5-10 | 1 6"),
    ("Pick \"\\a\"", 4, "quoted 5-9 a | 2 10"),
    (
        "Pick \"a@b\"",
        4,
        "open 5-7 | object 7-8 | plain 8-10 b\" | past 9",
    ),
    ("Pick \"a\\@", 4, "open 5-8 | object 8-9 | past 10"),
    (
        "Pick \"a@ b",
        4,
        "open 5-7 | object 7-8 | plain 9-10 b | past 10",
    ),
    (
        "Pick a@b",
        4,
        "plain 5-6 a | object 6-7 | plain 7-8 b | past 8",
    ),
    (
        "Pick a@ b",
        4,
        "plain 5-6 a | object 6-7 | plain 8-9 b | past 9",
    ),
    ("Pick \\\"a", 4, "plain 5-8 \\\"a | 1 6"),
    ("Pick a\\ b", 4, "plain 5-7 a\\ | plain 8-9 b | 2 9"),
    ("Pick   7   8", 4, "plain 7-8 7 | plain 11-12 8 | 2 12"),
    (" a b", 0, "plain 1-2 a | plain 3-4 b | 2 4"),
    ("\"", 0, "open 0-1 | 1 1"),
    ("@", 0, "object 0-1 | 2 2"),
    ("@ @", 0, "object 0-1 | object 2-3 | past 4"),
    ("a@", 1, "object 1-2 | 2 3"),
    (
        "Pick \"a\" \"b\" \"c\"",
        4,
        "quoted 5-8 a | quoted 9-12 b | quoted 13-16 c | past 17",
    ),
    (
        "Pick \"a\" \"b\" \"c",
        4,
        "quoted 5-8 a | quoted 9-12 b | open 13-15 | past 14",
    ),
    ("Pick 'a b'", 4, "plain 5-7 'a | plain 8-10 b' | 2 9"),
    ("Pick (1 2)", 4, "plain 5-7 (1 | plain 8-10 2) | 2 9"),
    (
        "Pick \"a b\" c d",
        4,
        "quoted 5-10 a b | plain 11-12 c | plain 13-14 d | past 14",
    ),
    ("x", 9, "1 2"),
    ("Pick \"\" \"\"", 4, "quoted 5-7  | quoted 8-10  | past 11"),
];

// The line of a text, which is short.
fn line_of(alloc: Global, text: &str) -> Result<Line, AllocError> {
    let mut line = Line::new(alloc)?;
    for byte in text.as_bytes() {
        let _ = match *byte {
            b'@' => {
                let end = line.elements().len();
                line.push_object(end, Value::Int(7))
            }
            other => line.push_text(&[other]),
        };
    }
    Ok(line)
}

fn word_of(kind: TokenKind) -> &'static str {
    match kind {
        TokenKind::Plain => "plain",
        TokenKind::Quoted => "quoted",
        TokenKind::Open => "open",
        TokenKind::Object => "object",
    }
}

// A token with its text, behind the others.
fn show_token(
    alloc: Global,
    line: &Line,
    token: Token,
    shown: &mut String,
) -> Result<(), AllocError> {
    let place = format!(in alloc; "{} {}-{}", word_of(token.kind), token.start, token.end)?;
    shown.push_str(place.as_str())?;
    if let Some(text) = line.text_of(token) {
        shown.push(' ')?;
        shown.push_str(String::from_utf8_lossy(alloc, text.as_slice())?.as_str())?;
    }
    shown.push_str(" | ")
}

fn show_slot(alloc: Global, slot: LineSlot, shown: &mut String) -> Result<(), AllocError> {
    match slot {
        LineSlot::Name => shown.push_str("name"),
        LineSlot::Arg(number) => shown.push_str(format!(in alloc; "{number}")?.as_str()),
        LineSlot::Past => shown.push_str("past"),
    }
}

// What a line is cut to.
fn cut(alloc: Global, text: &str, from: usize) -> Result<String, AllocError> {
    let mut shown = String::new(alloc);
    let mut line = line_of(alloc, text)?;
    let mut at = from;
    for _ in 0..MAX_ELEMENTS {
        let Some(token) = line.next_token(at) else {
            break;
        };
        show_token(alloc, &line, token, &mut shown)?;
        at = token.end;
    }
    let named = Named {
        end: from,
        arguments: 2,
    };
    show_slot(alloc, line.slot(Some(named)), &mut shown)?;
    let _ = line.push_object(from, Value::Null);
    shown.push_str(format!(in alloc; " {}", line.elements().len())?.as_str())?;
    Ok(shown)
}

#[test]
fn lines_are_cut(rt: HostRuntime) -> Result<(), Fail> {
    let alloc = rt.alloc();
    for (text, from, wanted) in &CUTS {
        assert_eq!(rt; cut(alloc, *text, *from)?.as_str(), *wanted);
    }
    Ok(())
}

#[test]
fn a_line_has_at_most_256_elements(rt: HostRuntime) -> Result<(), Fail> {
    let alloc = rt.alloc();
    let mut line = Line::new(alloc)?;
    for _ in 0..MAX_ELEMENTS - 1 {
        assert_eq!(rt; line.push_text(b"x"), Pushed::Done);
    }
    assert_eq!(rt; line.push_text(b"yz"), Pushed::Full);
    assert_eq!(rt; line.push_text(b" "), Pushed::Done);
    assert_eq!(rt; line.push_text(b"y"), Pushed::Full);
    assert_eq!(rt; line.push_object(0, Value::Int(7)), Pushed::Full);
    line.rubout();
    assert_eq!(rt; line.front().len(), 255);
    assert_eq!(rt; line.push_object(0, Value::Int(7)), Pushed::Done);
    assert_eq!(rt; line.elements().len(), 1);
    line.clear();
    line.rubout();
    assert_eq!(rt; line.elements().len(), 0);
    assert_eq!(rt; line.slot(None), LineSlot::Name);
    Ok(())
}

// Whether the first token from an element on gives an object and no text.
fn gives_object(line: &Line, from: usize) -> bool {
    match line.next_token(from) {
        Some(token) => line.object_of(token).is_some() && line.text_of(token).is_none(),
        None => false,
    }
}

#[test]
fn a_name_begins_behind_spaces_and_ends_before_an_object(rt: HostRuntime) -> Result<(), Fail> {
    let alloc = rt.alloc();
    let line = line_of(alloc, "  Show it@ now")?;
    assert_eq!(rt; line.front_start(), 2);
    assert_eq!(rt; line.front().as_slice(), b"Show it".as_slice());
    assert_eq!(rt; gives_object(&line, 9), true);
    assert_eq!(rt; gives_object(&line, 10), false);
    Ok(())
}
