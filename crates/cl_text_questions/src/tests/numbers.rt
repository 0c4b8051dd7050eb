//! Truth values and numbers, both ways.
use super::asking::ask_all;
use super::declared::DECLARED;
use std::test::Fail;

/// Truth values.
const BOOLEANS: [(&str, &str); 15] = [
    (r#"accept boolean "Yes""#, "true"),
    (r#"accept boolean "No""#, "false"),
    (r#"accept boolean "yes""#, "true"),
    (r#"accept boolean "NO""#, "false"),
    (r#"accept boolean "nO""#, "false"),
    (r#"accept boolean "YeS""#, "true"),
    (r#"accept boolean "true""#, "refused"),
    (r#"accept boolean "false""#, "refused"),
    (r#"accept boolean "Y""#, "refused"),
    (r#"accept boolean """#, "refused"),
    (r#"accept boolean " yes""#, "refused"),
    (r#"accept boolean "yes ""#, "refused"),
    (r#"accept boolean "1""#, "refused"),
    ("text true boolean", "Yes"),
    ("text false boolean", "No"),
];

/// Numbers.
const NUMBERS: [(&str, &str); 28] = [
    (r#"accept integer "0""#, "0"),
    (r#"accept integer "5""#, "5"),
    (r#"accept integer "-5""#, "-5"),
    (r#"accept integer "+5""#, "refused"),
    (r#"accept integer "007""#, "7"),
    (r#"accept integer "-0""#, "0"),
    (r#"accept integer "-007""#, "-7"),
    (r#"accept integer """#, "refused"),
    (r#"accept integer "-""#, "refused"),
    (r#"accept integer "--1""#, "refused"),
    (r#"accept integer " 5""#, "refused"),
    (r#"accept integer "5 ""#, "refused"),
    (r#"accept integer "1 2""#, "refused"),
    (r#"accept integer "1.0""#, "refused"),
    (r#"accept integer "0x1""#, "refused"),
    (r#"accept integer "1-""#, "refused"),
    (r#"accept integer "five""#, "refused"),
    (
        r#"accept integer "9223372036854775807""#,
        "9223372036854775807",
    ),
    (r#"accept integer "9223372036854775808""#, "refused"),
    (
        r#"accept integer "-9223372036854775808""#,
        "-9223372036854775808",
    ),
    (r#"accept integer "-9223372036854775809""#, "refused"),
    (
        r#"accept integer "000000000000000000000000000000009223372036854775807""#,
        "9223372036854775807",
    ),
    (
        r#"accept integer "-00000000000000000000000000000000000000000""#,
        "0",
    ),
    (
        r#"accept integer "99999999999999999999999999999999999999999999""#,
        "refused",
    ),
    ("text 0 integer", "0"),
    ("text -7 integer", "-7"),
    ("text 9223372036854775807 integer", "9223372036854775807"),
    ("text -9223372036854775808 integer", "-9223372036854775808"),
];

/// Numbers within bounds.
const BOUNDED: [(&str, &str); 18] = [
    (r#"accept (integer 0 9) "0""#, "0"),
    (r#"accept (integer 0 9) "9""#, "9"),
    (r#"accept (integer 0 9) "10""#, "refused"),
    (r#"accept (integer 0 9) "-1""#, "refused"),
    (r#"accept (integer 0 9) "-0""#, "0"),
    (r#"accept (integer 0 9) "0009""#, "9"),
    (r#"accept (integer 3) "3""#, "3"),
    (r#"accept (integer 3) "2""#, "refused"),
    (
        r#"accept (integer * 9) "-9223372036854775808""#,
        "-9223372036854775808",
    ),
    (r#"accept (integer * 9) "9""#, "9"),
    (r#"accept (integer * 9) "10""#, "refused"),
    (r#"accept (integer 3 *) "3""#, "3"),
    (r#"accept (integer 3 *) "2""#, "refused"),
    (
        r#"accept (integer 3 *) "9223372036854775807""#,
        "9223372036854775807",
    ),
    (r#"accept (integer 5 4) "5""#, "refused"),
    (r#"accept (integer 5 4) "4""#, "refused"),
    ("text 4 (integer 0 9)", "4"),
    ("text 12 (integer 0 9)", "12"),
];

#[test]
fn truth_values(rt: HostRuntime) -> Result<(), Fail> {
    ask_all(&rt, DECLARED, &BOOLEANS)
}

#[test]
fn numbers(rt: HostRuntime) -> Result<(), Fail> {
    ask_all(&rt, DECLARED, &NUMBERS)
}

#[test]
fn numbers_within_bounds(rt: HostRuntime) -> Result<(), Fail> {
    ask_all(&rt, DECLARED, &BOUNDED)
}
