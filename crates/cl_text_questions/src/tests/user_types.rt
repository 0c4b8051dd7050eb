//! User types with parameters and predicates, both ways.
use super::asking::ask_all;
use super::declared::DECLARED;
use std::test::Fail;

/// Predicates.
const PREDICATES: [(&str, &str); 41] = [
    (r#"accept even "4""#, "4"),
    (r#"accept even "3""#, "refused"),
    (r#"accept even "-2""#, "-2"),
    (r#"accept even "0""#, "0"),
    (r#"accept even "x""#, "refused"),
    (r#"accept even "9223372036854775807""#, "refused"),
    (
        r#"accept even "-9223372036854775808""#,
        "-9223372036854775808",
    ),
    (r#"accept never "5""#, "refused"),
    (r#"accept numbered "5""#, "refused"),
    (r#"accept refusing "x""#, "refused"),
    (r#"accept laboured "5""#, "refused"),
    (r#"accept whatever "x""#, "refused"),
    (r#"accept whatever """#, "refused"),
    (r#"accept bare "x""#, "refused"),
    (r#"accept bare "5""#, "refused"),
    (r#"accept (within 3 5) "3""#, "3"),
    (r#"accept (within 3 5) "6""#, "refused"),
    (r#"accept (within * 5) "5""#, "5"),
    (r#"accept (within * 5) "-100""#, "-100"),
    (r#"accept (within * 5) "6""#, "refused"),
    (r#"accept (within 3 *) "3""#, "3"),
    (r#"accept (within 3 *) "2""#, "refused"),
    (r#"accept (within * *) "12""#, "12"),
    (r#"accept (within "a" 5) "3""#, "refused"),
    (r#"accept (or even integer) "3""#, "3"),
    (r#"accept (or even integer) "4""#, "4"),
    (r#"accept (or never string) "5""#, r#""5""#),
    (r#"accept (sequence even) "2,4""#, "(2 4)"),
    (r#"accept (sequence even) "2,3""#, "refused"),
    ("text 4 even", "4"),
    ("text 3 even", "3"),
    (r#"text "a b" even"#, "a b"),
    ("text 5 never", "5"),
    (r#"text "a b" refusing"#, r#""a b""#),
    (r#"text "a b" whatever"#, "a b"),
    ("text null whatever", "None"),
    ("text (list 1) bare", "(1)"),
    (r#"text "x y" bare"#, "x y"),
    ("text 3 (or even string)", "3"),
    ("text 4 (or even string)", "4"),
    ("text 3 (or numbered laboured never weekday)", "Thursday"),
];

/// Parameters.
const PARAMETERS: [(&str, &str); 37] = [
    (r#"accept (reach 0 9) "5""#, "5"),
    (r#"accept (reach 0 9) "10""#, "refused"),
    (r#"accept (reach * 9) "-5""#, "-5"),
    (r#"accept (reach * 9) "10""#, "refused"),
    (r#"accept (reach 3 *) "3""#, "3"),
    (r#"accept (reach 3 *) "2""#, "refused"),
    (r#"accept (at-least 3) "3""#, "3"),
    (r#"accept (at-least 3) "2""#, "refused"),
    (r#"accept (at-least *) "-9""#, "-9"),
    (r#"accept (turned 9 0) "5""#, "5"),
    (r#"accept (turned 9 0) "10""#, "refused"),
    (r#"accept (one-of red "b c") "RED""#, "red"),
    (r#"accept (one-of red "b c") "B c""#, r#""b c""#),
    (r#"accept (one-of red "b c") "green""#, "refused"),
    (r#"accept (some-of a b) "a;B""#, "(a b)"),
    (r#"accept (some-of a b) "a,b""#, "refused"),
    (r#"accept (some-of a b) "a;a""#, "refused"),
    (r#"accept (some-of a b) """#, "()"),
    (r#"accept (word-of 2) "ab""#, r#""ab""#),
    (r#"accept (word-of 2) "abc""#, "refused"),
    (r#"accept (row-of 1 3) "1,2,3""#, "(1 2 3)"),
    (r#"accept (row-of 1 3) "1,4""#, "refused"),
    (r#"accept (row-of 1 3) """#, "()"),
    (r#"accept (row-of * 3) "-1,3""#, "(-1 3)"),
    (r#"accept (choice x) "X""#, "x"),
    (r#"accept (choice x) "7""#, "7"),
    (r#"accept (choice x) "12""#, "refused"),
    (r#"accept digit "9""#, "9"),
    (r#"accept digit "10""#, "refused"),
    ("text 5 (reach 0 9)", "5"),
    ("text (list 'a 'b) (some-of a b)", "a;b"),
    ("text (list 1 2) (row-of 1 3)", "1,2"),
    (r#"text "a b" (word-of 3)"#, r#""a b""#),
    ("text 'x (choice x)", "x"),
    ("text 7 (choice x)", "7"),
    ("text 12 (choice x)", "12"),
    (r#"text "b c" (one-of red "b c")"#, "b c"),
];

#[test]
fn predicates(rt: HostRuntime) -> Result<(), Fail> {
    ask_all(&rt, DECLARED, &PREDICATES)
}

#[test]
fn parameters(rt: HostRuntime) -> Result<(), Fail> {
    ask_all(&rt, DECLARED, &PARAMETERS)
}
