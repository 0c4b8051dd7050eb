//! Quotes and backslashes in parts.
use super::asking::ask_all;
use super::declared::DECLARED;
use std::test::Fail;

/// Parts in quotes.
const QUOTED: [(&str, &str); 27] = [
    (r#"accept (sequence string) "\"a b\",c""#, r#"("a b" "c")"#),
    (r#"accept (sequence string) "\"\"""#, r#"("")"#),
    (r#"accept (sequence string) "\"\",\"\"""#, r#"("" "")"#),
    (r#"accept (sequence string) "\" a \"""#, r#"(" a ")"#),
    (r#"accept (sequence string) " \"a\" ""#, r#"("a")"#),
    (
        r#"accept (sequence string) "\"a\" ,  \"b\"""#,
        r#"("a" "b")"#,
    ),
    (r#"accept (sequence string) "\"a,b\",c""#, r#"("a,b" "c")"#),
    (r#"accept (sequence string) "\"a,b,c\"""#, r#"("a,b,c")"#),
    (r#"accept (sequence string) "\"a\" b""#, "refused"),
    (r#"accept (sequence string) "\"a\"b""#, "refused"),
    (r#"accept (sequence string) "\"a\"\"b\"""#, "refused"),
    (r#"accept (sequence string) "\"a\" \"b\"""#, "refused"),
    (r#"accept (sequence string) "\"a\",b\"""#, r#"("a" "b\"")"#),
    (r#"accept (sequence string) "a\"b""#, r#"("a\"b")"#),
    (
        r#"accept (sequence string) "a \"b,c\"""#,
        r#"("a \"b" "c\"")"#,
    ),
    (r#"accept (sequence string) "a\"""#, r#"("a\"")"#),
    (r#"accept (sequence string) "\"""#, "refused"),
    (r#"accept (sequence string) "\"a""#, "refused"),
    (r#"accept (sequence string) "\"a,b""#, "refused"),
    (r#"accept (sequence string) "a,\"b""#, "refused"),
    (r#"accept (sequence string) "a,\"b,c""#, "refused"),
    (r#"accept (sequence string) "\"a\"x,b""#, "refused"),
    (
        r#"accept (sequence string) "a , \"b c\" , d""#,
        r#"("a" "b c" "d")"#,
    ),
    (r#"accept (sequence string) "\",\"""#, r#"(",")"#),
    (r#"accept (sequence string) "\"a\";b""#, "refused"),
    (r#"accept (sequence string) "'a,b'""#, r#"("'a" "b'")"#),
    (r#"accept (sequence string) "\" \"""#, r#"(" ")"#),
];

/// Backslashes.
const ESCAPES: [(&str, &str); 19] = [
    (r#"accept (sequence string) "\"a\\\"b\"""#, r#"("a\"b")"#),
    (r#"accept (sequence string) "\"a\\\\\"""#, r#"("a\\")"#),
    (
        r#"accept (sequence string) "\"a\\\\\",b""#,
        r#"("a\\" "b")"#,
    ),
    (r#"accept (sequence string) "\"a\\""#, "refused"),
    (r#"accept (sequence string) "\"a\\\"""#, "refused"),
    (r#"accept (sequence string) "\"a\\\",b""#, "refused"),
    (r#"accept (sequence string) "\"a\\n\"""#, r#"("an")"#),
    (r#"accept (sequence string) "\"\\a\\,\\ \"""#, r#"("a, ")"#),
    (r#"accept (sequence string) "\"\\\\\\\"\"""#, r#"("\\\"")"#),
    (r#"accept (sequence string) "a\\,b""#, r#"("a\\" "b")"#),
    (r#"accept (sequence string) "a\\""#, r#"("a\\")"#),
    (r#"accept (sequence string) "\\\"a\"""#, r#"("\\\"a\"")"#),
    (r#"accept (sequence string) "\\""#, r#"("\\")"#),
    (r#"accept (sequence string) "\"\\\"""#, "refused"),
    (r#"accept (sequence string) "\"\\\\""#, "refused"),
    (
        r#"accept ((sequence string) :separator ";") "\"a\\;b\";c""#,
        r#"("a;b" "c")"#,
    ),
    (
        r#"accept ((sequence string) :separator ";") "\"a\\\";b\";c""#,
        r#"("a\";b" "c")"#,
    ),
    (r#"text (list "\\" "\"") (sequence string)"#, r#""\\","\"""#),
    (
        r#"text (list "a\\,b" "c\" d") (sequence string)"#,
        r#""a\\,b","c\" d""#,
    ),
];

/// What stands in no list keeps its quotes.
const ALONE: [(&str, &str); 11] = [
    (r#"accept string "\"a b\"""#, r#""\"a b\"""#),
    (r#"accept string "\"a""#, r#""\"a""#),
    (r#"accept string "a\\\"b""#, r#""a\\\"b""#),
    (r#"accept integer "\"5\"""#, "refused"),
    (r#"accept symbol "\"a\"""#, "refused"),
    (r#"accept (member "a b") "\"a b\"""#, "refused"),
    (r#"accept (member "a b") "a b""#, r#""a b""#),
    (r#"accept weekday "\"Monday\"""#, "refused"),
    (
        r#"accept (null-or-type string) "\"None\"""#,
        r#""\"None\"""#,
    ),
    (r#"accept (null-or-type string) "\"a\"""#, r#""\"a\"""#),
    (r#"accept (or integer string) "\"5\"""#, r#""\"5\"""#),
];

#[test]
fn parts_in_quotes(rt: HostRuntime) -> Result<(), Fail> {
    ask_all(&rt, DECLARED, &QUOTED)
}

#[test]
fn backslashes(rt: HostRuntime) -> Result<(), Fail> {
    ask_all(&rt, DECLARED, &ESCAPES)
}

#[test]
fn quotes_outside_lists(rt: HostRuntime) -> Result<(), Fail> {
    ask_all(&rt, DECLARED, &ALONE)
}
