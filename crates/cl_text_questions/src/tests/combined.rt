//! Types of types, both ways.
use super::asking::ask_all;
use super::declared::DECLARED;
use std::test::Fail;

/// By one of some types.
const OR: [(&str, &str); 49] = [
    (r#"accept (or integer string) "5""#, "5"),
    (r#"accept (or integer string) "x""#, r#""x""#),
    (r#"accept (or integer string) """#, r#""""#),
    (r#"accept (or integer string) "05""#, "5"),
    (
        r#"accept (or integer string) "9223372036854775808""#,
        r#""9223372036854775808""#,
    ),
    (r#"accept (or string integer) "5""#, r#""5""#),
    (r#"accept (or (integer 0 9) (integer 20 29)) "5""#, "5"),
    (r#"accept (or (integer 0 9) (integer 20 29)) "25""#, "25"),
    (
        r#"accept (or (integer 0 9) (integer 20 29)) "15""#,
        "refused",
    ),
    (r#"accept (or weekday month) "5""#, "5"),
    (r#"accept (or weekday month) "March""#, "3"),
    (r#"accept (or weekday month) "12""#, "12"),
    (r#"accept (or weekday month) "13""#, "refused"),
    (r#"accept (or weekday month) "00""#, "0"),
    (r#"accept (or weekday month) "Monday""#, "0"),
    (r#"accept (or weekday month) "May""#, "5"),
    (r#"accept (or weekday month) "may""#, "refused"),
    (r#"accept (or boolean symbol) "yes""#, "true"),
    (r#"accept (or boolean symbol) "maybe""#, "maybe"),
    (r#"accept (or boolean symbol) "a b""#, "refused"),
    (r#"accept (or symbol boolean) "YES""#, "yes"),
    (r#"accept (or nil integer) "5""#, "5"),
    (r#"accept (or t integer) "5""#, "5"),
    (r#"accept (or t) "5""#, "refused"),
    (
        r#"accept (or (sequence integer) (sequence string)) "1,2""#,
        "(1 2)",
    ),
    (
        r#"accept (or (sequence integer) (sequence string)) "1,x""#,
        r#"("1" "x")"#,
    ),
    (
        r#"accept (or (sequence integer) (sequence string)) """#,
        "()",
    ),
    (
        r#"accept (or (sequence integer) (sequence string)) "\"1,2\"""#,
        r#"("1,2")"#,
    ),
    (
        r#"accept (or (member red) (or (member blue) integer)) "BLUE""#,
        "blue",
    ),
    (
        r#"accept (or (member red) (or (member blue) integer)) "7""#,
        "7",
    ),
    (
        r#"accept (or (member red) (or (member blue) integer)) "green""#,
        "refused",
    ),
    ("text 5 (or integer string)", "5"),
    (r#"text "a b" (or integer string)"#, r#""a b""#),
    ("text 'red (or integer string)", "red"),
    ("text null (or integer string)", "None"),
    ("text (list 1 2) (or integer string)", "(1 2)"),
    ("text 5 (or weekday month)", "Saturday"),
    ("text 7 (or weekday month)", "July"),
    ("text 12 (or weekday month)", "December"),
    ("text 13 (or weekday month)", "13"),
    ("text 0 (or weekday month)", "Monday"),
    ("text 5 (or month weekday)", "May"),
    ("text 0 (or month weekday)", "Monday"),
    (r#"text "a b" (or (sequence string) string)"#, r#""a b""#),
    (
        r#"text (list "a b" "c") (or (sequence string) string)"#,
        r#""a b",c"#,
    ),
    (
        r#"text (list "a b" 5) (or (sequence string) string)"#,
        r#"("a b" 5)"#,
    ),
    ("text 1 (or (integer 0 1) weekday)", "1"),
    ("text 2 (or (integer 0 1) weekday)", "Wednesday"),
    ("text 1 (or t weekday)", "1"),
];

/// By all of some types.
const AND: [(&str, &str); 35] = [
    (r#"accept (and (integer 0 9) even) "4""#, "4"),
    (r#"accept (and (integer 0 9) even) "3""#, "refused"),
    (r#"accept (and (integer 0 9) even) "12""#, "refused"),
    (r#"accept (and (integer 0 9) even) "-2""#, "refused"),
    (r#"accept (and (integer 0 9) even) "04""#, "4"),
    (r#"accept (and even (integer 0 9)) "8""#, "8"),
    (r#"accept (and even (integer 0 9)) "10""#, "refused"),
    (r#"accept (and even (integer 0 9)) "7""#, "refused"),
    (r#"accept (and integer (member 3 5)) "5""#, "5"),
    (r#"accept (and integer (member 3 5)) "4""#, "refused"),
    (r#"accept (and symbol (member red blue)) "RED""#, "red"),
    (
        r#"accept (and symbol (member red blue)) "green""#,
        "refused",
    ),
    (r#"accept (and weekday (integer 0 4)) "Friday""#, "4"),
    (r#"accept (and weekday (integer 0 4)) "Sunday""#, "refused"),
    (r#"accept (and weekday (integer 0 4)) "4""#, "4"),
    (r#"accept (and (integer 0 4) weekday) "Friday""#, "refused"),
    (r#"accept (and (integer 0 4) weekday) "4""#, "4"),
    (r#"accept (and string (string 2)) "ab""#, r#""ab""#),
    (r#"accept (and string (string 2)) "abc""#, "refused"),
    (r#"accept (and t integer) "5""#, "refused"),
    (r#"accept (and integer t) "5""#, "5"),
    (r#"accept (and integer nil) "5""#, "refused"),
    (r#"accept (and (or integer string) string) "5""#, "refused"),
    (r#"accept (and (or integer string) string) "x""#, r#""x""#),
    (
        r#"accept (and (sequence integer) (sequence even)) "2,4""#,
        "(2 4)",
    ),
    (
        r#"accept (and (sequence integer) (sequence even)) "2,3""#,
        "refused",
    ),
    (
        r#"accept (and (sequence integer) (sequence even)) """#,
        "()",
    ),
    (r#"accept (and integer) "6""#, "6"),
    (r#"accept (and integer) "x""#, "refused"),
    ("text 4 (and (integer 0 9) even)", "4"),
    ("text 3 (and (integer 0 9) even)", "3"),
    ("text 3 (and weekday integer)", "Thursday"),
    ("text 3 (and integer weekday)", "3"),
    (r#"text "a b" (and string symbol)"#, r#""a b""#),
    ("text 8 (and (or weekday month) integer)", "August"),
];

/// Null, or tokens, beside a type.
const BESIDE: [(&str, &str); 48] = [
    (r#"accept (null-or-type integer) "None""#, "null"),
    (r#"accept (null-or-type integer) "none""#, "null"),
    (r#"accept (null-or-type integer) "NONE""#, "null"),
    (r#"accept (null-or-type integer) "5""#, "5"),
    (r#"accept (null-or-type integer) "null""#, "refused"),
    (r#"accept (null-or-type integer) """#, "refused"),
    (r#"accept (null-or-type integer) "x""#, "refused"),
    (r#"accept (null-or-type string) "nOnE""#, "null"),
    (r#"accept (null-or-type string) """#, r#""""#),
    (r#"accept (null-or-type string) "none ""#, r#""none ""#),
    (r#"accept (null-or-type string) "x""#, r#""x""#),
    (r#"accept (null-or-type (member none)) "none""#, "null"),
    (r#"accept (null-or-type (integer 0 9)) "12""#, "refused"),
    (
        r#"accept (null-or-type (null-or-type integer)) "none""#,
        "null",
    ),
    (r#"accept (null-or-type (null-or-type integer)) "3""#, "3"),
    (r#"accept (token-or-type (all none) digit) "all""#, "all"),
    (r#"accept (token-or-type (all none) digit) "ALL""#, "all"),
    (r#"accept (token-or-type (all none) digit) "None""#, "none"),
    (r#"accept (token-or-type (all none) digit) "5""#, "5"),
    (r#"accept (token-or-type (all none) digit) "12""#, "refused"),
    (
        r#"accept (token-or-type (all none) digit) "some""#,
        "refused",
    ),
    (r#"accept (token-or-type (all none) digit) """#, "refused"),
    (r#"accept (token-or-type () integer) "5""#, "5"),
    (r#"accept (token-or-type () integer) "x""#, "refused"),
    (r#"accept (token-or-type (a b) symbol) "A""#, "a"),
    (r#"accept (token-or-type (a b) symbol) "C""#, "c"),
    (r#"accept (token-or-type (a b) symbol) "1""#, "refused"),
    (r#"accept (token-or-type (|1|) string) "|1|""#, "|1|"),
    (r#"accept (token-or-type (|1|) string) "1""#, r#""1""#),
    (
        r#"accept (token-or-type (all) (null-or-type integer)) "none""#,
        "null",
    ),
    (
        r#"accept (token-or-type (all) (null-or-type integer)) "all""#,
        "all",
    ),
    (
        r#"accept (token-or-type (all) (null-or-type integer)) "3""#,
        "3",
    ),
    ("text null (null-or-type integer)", "None"),
    ("text 5 (null-or-type integer)", "5"),
    (r#"text "x y" (null-or-type integer)"#, "x y"),
    ("text null (null-or-type string)", "None"),
    (r#"text "a b" (null-or-type string)"#, r#""a b""#),
    (r#"text "None" (null-or-type string)"#, "None"),
    (r#"text "" (null-or-type string)"#, r#""""#),
    ("text 2 (null-or-type weekday)", "Wednesday"),
    ("text null (null-or-type weekday)", "None"),
    ("text 'all (token-or-type (all none) weekday)", "all"),
    ("text 'none (token-or-type (all none) weekday)", "none"),
    ("text 2 (token-or-type (all none) weekday)", "Wednesday"),
    ("text 'some (token-or-type (all none) weekday)", "some"),
    (r#"text "a b" (token-or-type (all) string)"#, r#""a b""#),
    (r#"text "all" (token-or-type (all) string)"#, "all"),
    ("text 'all (token-or-type (all) string)", "all"),
];

#[test]
fn one_of_some_types(rt: HostRuntime) -> Result<(), Fail> {
    ask_all(&rt, DECLARED, &OR)
}

#[test]
fn all_of_some_types(rt: HostRuntime) -> Result<(), Fail> {
    ask_all(&rt, DECLARED, &AND)
}

#[test]
fn null_and_tokens(rt: HostRuntime) -> Result<(), Fail> {
    ask_all(&rt, DECLARED, &BESIDE)
}
