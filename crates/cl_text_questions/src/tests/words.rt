//! Texts and symbols, both ways.
use super::asking::ask_all;
use super::declared::DECLARED;
use std::test::Fail;

/// Texts.
const STRINGS: [(&str, &str); 35] = [
    (r#"accept string "abc""#, r#""abc""#),
    (r#"accept string """#, r#""""#),
    (r#"accept string " ""#, r#"" ""#),
    (r#"accept string " a ""#, r#"" a ""#),
    (r#"accept string "a,b""#, r#""a,b""#),
    (r#"accept string "\"a\"""#, r#""\"a\"""#),
    (r#"accept string "\\""#, r#""\\""#),
    (r#"accept string "Yes""#, r#""Yes""#),
    (r#"accept string "5""#, r#""5""#),
    (r#"accept string "é""#, r#""é""#),
    (r#"accept (string 3) "abc""#, r#""abc""#),
    (r#"accept (string 3) "ab""#, "refused"),
    (r#"accept (string 3) "abcd""#, "refused"),
    (r#"accept (string 3) """#, "refused"),
    (r#"accept (string 3) "é1""#, r#""é1""#),
    (r#"accept (string 3) "\"a\"""#, r#""\"a\"""#),
    (r#"accept (string 0) """#, r#""""#),
    (r#"accept (string 0) "a""#, "refused"),
    (r#"accept (string 2) "é""#, r#""é""#),
    (r#"accept (string 2) "\"""#, "refused"),
    (r#"text "" string"#, r#""""#),
    (r#"text "abc" string"#, "abc"),
    (r#"text "a b" string"#, r#""a b""#),
    (r#"text " " string"#, r#"" ""#),
    (r#"text "a,b" string"#, r#""a,b""#),
    (r#"text "a\"b" string"#, r#""a\"b""#),
    (r#"text "a\\b" string"#, r#""a\\b""#),
    (r#"text "\\" string"#, r#""\\""#),
    (r#"text "a;b" string"#, "a;b"),
    (r#"text "a(b)" string"#, "a(b)"),
    (r#"text "é" string"#, "é"),
    (r#"text "None" string"#, "None"),
    (r#"text "12" string"#, "12"),
    (r#"text "abc" (string 3)"#, "abc"),
    (r#"text "a c" (string 3)"#, r#""a c""#),
];

/// Symbols.
const SYMBOLS: [(&str, &str); 36] = [
    (r#"accept symbol "red""#, "red"),
    (r#"accept symbol "RED""#, "red"),
    (r#"accept symbol "Dark-Red""#, "dark-red"),
    (r#"accept symbol ":x""#, ":x"),
    (r#"accept symbol ":""#, ":"),
    (r#"accept symbol "true""#, "refused"),
    (r#"accept symbol "FALSE""#, "refused"),
    (r#"accept symbol "null""#, "refused"),
    (r#"accept symbol "*""#, "refused"),
    (r#"accept symbol "**""#, "**"),
    (r#"accept symbol "12""#, "refused"),
    (r#"accept symbol "-5""#, "refused"),
    (r#"accept symbol "-""#, "-"),
    (r#"accept symbol "--""#, "--"),
    (r#"accept symbol "-a""#, "-a"),
    (r#"accept symbol "1+""#, "1+"),
    (r#"accept symbol "1-2""#, "1-2"),
    (r#"accept symbol """#, "refused"),
    (r#"accept symbol " red""#, "refused"),
    (r#"accept symbol "dark red""#, "refused"),
    (r#"accept symbol "a(b""#, "refused"),
    (r#"accept symbol "a)b""#, "refused"),
    (r#"accept symbol "a;b""#, "refused"),
    (r#"accept symbol "a\"b""#, "refused"),
    (r#"accept symbol "'a""#, "refused"),
    (r#"accept symbol "a,b""#, "a,b"),
    (r#"accept symbol "a\\b""#, r#"a\b"#),
    (r#"accept symbol "é""#, "refused"),
    (
        r#"accept symbol "aaaaaaaaaaaaaaaaaaaaaaaaaaaaaaaaaaaaaaaaaaaaaaaaaaaaaaaaaaaaaaaa""#,
        "aaaaaaaaaaaaaaaaaaaaaaaaaaaaaaaaaaaaaaaaaaaaaaaaaaaaaaaaaaaaaaaa",
    ),
    (
        r#"accept symbol "BBBBBBBBBBBBBBBBBBBBBBBBBBBBBBBBBBBBBBBBBBBBBBBBBBBBBBBBBBBBBBBBB""#,
        "bbbbbbbbbbbbbbbbbbbbbbbbbbbbbbbbbbbbbbbbbbbbbbbbbbbbbbbbbbbbbbbbb",
    ),
    (r#"accept symbol "none""#, "none"),
    (r#"accept symbol "yes""#, "yes"),
    ("text 'red symbol", "red"),
    ("text '- symbol", "-"),
    ("text ':x symbol", ":x"),
    (
        "text 'aaaaaaaaaaaaaaaaaaaaaaaaaaaaaaaaaaaaaaaaaaaaaaaaaaaaaaaaaaaaaaaa symbol",
        "aaaaaaaaaaaaaaaaaaaaaaaaaaaaaaaaaaaaaaaaaaaaaaaaaaaaaaaaaaaaaaaa",
    ),
];

/// Types that read nothing, and texts by types of which the values are no members.
const OTHERS: [(&str, &str); 33] = [
    (r#"accept t """#, "refused"),
    (r#"accept t "5""#, "refused"),
    (r#"accept t "x""#, "refused"),
    (r#"accept nil """#, "refused"),
    (r#"accept nil "5""#, "refused"),
    (r#"accept blank-area "(p 1 2)""#, "refused"),
    (r#"accept command "Clear""#, "refused"),
    (r#"accept command "(com-clear)""#, "refused"),
    (r#"accept dialog-choice "exit""#, "refused"),
    ("text 5 t", "5"),
    (r#"text "a b" t"#, "a b"),
    ("text 'red t", "red"),
    ("text true t", "Yes"),
    ("text null t", "None"),
    ("text (list) t", "()"),
    (
        r#"text (list 1 "a b" null (list true)) t"#,
        r#"(1 "a b" null (true))"#,
    ),
    (r#"text (make seat 1 "x") t"#, r#"#seat(1 "x")"#),
    ("text 5 nil", "5"),
    (r#"text "a b" nil"#, "a b"),
    ("text (list 'p 1 2) blank-area", "(p 1 2)"),
    ("text (list 'com-clear) command", "(com-clear)"),
    ("text 'exit dialog-choice", "exit"),
    (r#"text "a b" dialog-choice"#, "a b"),
    (r#"text "x" command"#, "x"),
    (r#"text "a b" integer"#, "a b"),
    ("text null integer", "None"),
    ("text true integer", "Yes"),
    ("text (list 1 'a) integer", "(1 a)"),
    ("text 5 boolean", "5"),
    (r#"text "x" boolean"#, "x"),
    ("text null boolean", "None"),
    (r#"text "a b" symbol"#, "a b"),
    ("text 5 symbol", "5"),
];

#[test]
fn texts(rt: HostRuntime) -> Result<(), Fail> {
    ask_all(&rt, DECLARED, &STRINGS)
}

#[test]
fn symbols(rt: HostRuntime) -> Result<(), Fail> {
    ask_all(&rt, DECLARED, &SYMBOLS)
}

#[test]
fn types_that_read_nothing(rt: HostRuntime) -> Result<(), Fail> {
    ask_all(&rt, DECLARED, &OTHERS)
}
