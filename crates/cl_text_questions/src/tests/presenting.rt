//! Present methods and what they cost.
use super::asking::ask_all;
use super::declared::DECLARED;
use std::test::Fail;

/// Present methods.
const METHODS: [(&str, &str); 30] = [
    ("text (make point 3 4) point", "3/4 cost 12"),
    (r#"text (make point -1 "x y") point"#, "-1/x y cost 12"),
    ("text (make point null 1) point", "trap 1 at 8"),
    ("text 5 point", "trap 1 at 3"),
    ("text (make seat 1 2) point", "trap 1 at 3"),
    (r#"text (make badge "Ann Lee") badge"#, "Ann Lee cost 2"),
    ("text (make badge 'ann) badge", "trap 1 at 2"),
    (r#"text (make badge "") badge"#, " cost 2"),
    (r#"text (make seat 1 "a b") seat"#, r#"#seat(1 "a b")"#),
    ("text 5 seat", "5"),
    ("text 5 price", "5 EUR cost 4"),
    (r#"text "5" price"#, "5 EUR cost 4"),
    ("text null price", "trap 1 at 3"),
    ("text 5 sale", "5 EUR cost 4"),
    ("text 5 gift", "free cost 1"),
    ("text null gift", "free cost 1"),
    ("text 4 share", "3 cost 4"),
    ("text 0 share", "trap 3 at 4"),
    (r#"text "x" share"#, "trap 1 at 4"),
    ("text 5 wordless", "trap 1 at 1"),
    (r#"text "x" wordless"#, "x cost 1"),
    (r#"text "a" joined"#, "a+ cost 3"),
    (r#"text "a b" joined"#, "a b+ cost 3"),
    ("text 5 joined", "trap 1 at 3"),
    ("text 10 endless", "550 cost 376"),
    ("text 576 endless", "95717376 cost 999366"),
    ("text 577 endless", "trap 5 at 1000000"),
    ("text 3 wide", "    cost 3"),
    ("text 65536 wide", "trap 7 at 3"),
    ("text -5 wide", " cost 3"),
];

/// Present methods within other types.
const AROUND: [(&str, &str); 29] = [
    ("text (list 10 20) (sequence endless)", "550,4200 cost 1722"),
    (
        "text (list 500 500) (sequence endless)",
        "trap 5 at 1000000",
    ),
    (
        "text (list (make point 1 2) (make point 3 4)) (sequence point)",
        "1/2,3/4 cost 24",
    ),
    ("text (list) (sequence point)", ""),
    (
        "text (list 1 2 3) (sequence price)",
        "1 EUR,2 EUR,3 EUR cost 12",
    ),
    ("text (list 1) (sequence price)", "1 EUR cost 4"),
    (
        r#"text (list 1 "x") (sequence price)"#,
        "1 EUR,x EUR cost 8",
    ),
    (r#"text (list 1 "x" null) (sequence price)"#, "trap 1 at 11"),
    ("text (list 3 0 4) (sequence share)", "trap 3 at 8"),
    ("text (list 0 3) (sequence share)", "trap 3 at 4"),
    (
        "text (list (list 1 2) (list 3)) (sequence (sequence share))",
        "12,6,4 cost 12",
    ),
    ("text 5 (or string price)", "5 EUR cost 4"),
    (r#"text "a b" (or string price)"#, r#""a b""#),
    ("text 3 (or weekday price)", "Thursday"),
    ("text 30 (or weekday price)", "30 EUR cost 4"),
    ("text (make point 1 2) (or badge point)", "1/2 cost 12"),
    (r#"text (make badge "x") (or badge point)"#, "x cost 2"),
    ("text 4 (or even price)", "4"),
    ("text 3 (or even price)", "3 EUR cost 4"),
    ("text 3 (and price even)", "3 EUR cost 4"),
    ("text 3 (and even price)", "3"),
    ("text null (null-or-type price)", "None"),
    ("text 5 (null-or-type price)", "5 EUR cost 4"),
    ("text 'all (token-or-type (all) share)", "all"),
    ("text 6 (token-or-type (all) share)", "2 cost 4"),
    ("text 0 (token-or-type (all) share)", "trap 3 at 4"),
    ("text 'none (token-or-type (all) share)", "trap 1 at 4"),
    (
        r#"text (list 1 2) ((sequence sale) :separator ";")"#,
        "1 EUR;2 EUR cost 8",
    ),
    (
        "text (list null 2 null 6) (sequence (null-or-type share))",
        "None,6,None,2 cost 8",
    ),
];

#[test]
fn present_methods(rt: HostRuntime) -> Result<(), Fail> {
    ask_all(&rt, DECLARED, &METHODS)
}

#[test]
fn present_methods_within(rt: HostRuntime) -> Result<(), Fail> {
    ask_all(&rt, DECLARED, &AROUND)
}
