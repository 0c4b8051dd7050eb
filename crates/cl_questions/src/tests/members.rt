//! Members of types.
use super::asking::{TYPES, ask_all};
use std::test::Fail;

/// Members of types of every value, of truth values and of numbers.
const NUMBERS: [(&str, &str); 23] = [
    ("member 5 t", "yes"),
    ("member null t", "yes"),
    ("member (list) t", "yes"),
    ("member 5 nil", "no"),
    ("member null nil", "no"),
    ("member true boolean", "yes"),
    ("member false boolean", "yes"),
    ("member null boolean", "no"),
    ("member 0 boolean", "no"),
    ("member \"true\" boolean", "no"),
    ("member 5 integer", "yes"),
    ("member \"5\" integer", "no"),
    ("member 0 (integer 0 9)", "yes"),
    ("member 9 (integer 0 9)", "yes"),
    ("member -1 (integer 0 9)", "no"),
    ("member 10 (integer 0 9)", "no"),
    ("member 10 (integer 0 *)", "yes"),
    ("member -1 (integer 0 *)", "no"),
    ("member -9223372036854775808 (integer * 9)", "yes"),
    ("member 10 (integer * 9)", "no"),
    (
        "member 9223372036854775807 (integer 9223372036854775807)",
        "yes",
    ),
    (
        "member 9223372036854775806 (integer 9223372036854775807)",
        "no",
    ),
    ("member 3 (integer 3 2)", "no"),
];

/// Members of types of texts, symbols, places, records and host types.
const ATOMS: [(&str, &str); 37] = [
    ("member \"\" string", "yes"),
    ("member 'abc string", "no"),
    ("member \"\" (string 0)", "yes"),
    ("member \"abc\" (string 3)", "yes"),
    ("member \"ab\" (string 3)", "no"),
    ("member \"abcd\" (string 3)", "no"),
    ("member \"é\" (string 2)", "yes"),
    ("member \"é\" (string 1)", "no"),
    ("member \"\" (string -1)", "no"),
    ("member 'red symbol", "yes"),
    ("member \"red\" symbol", "no"),
    ("member null symbol", "no"),
    ("member (list 'p 1 2) blank-area", "yes"),
    ("member (list 'p -1 -2) blank-area", "yes"),
    ("member (list 'p 1) blank-area", "no"),
    ("member (list 'p 1 2 3) blank-area", "no"),
    ("member (list \"p\" 1 2) blank-area", "no"),
    ("member (list 'p \"1\" 2) blank-area", "no"),
    ("member (list 'p 1 null) blank-area", "no"),
    ("member (list) blank-area", "no"),
    ("member null blank-area", "no"),
    ("member 'exit dialog-choice", "yes"),
    ("member \"exit\" dialog-choice", "no"),
    ("member (list 'exit) dialog-choice", "no"),
    ("member null dialog-choice", "no"),
    ("member (make point 1 2) point", "yes"),
    ("member (make point \"a\" null) point", "yes"),
    ("member (make point 1 2) span", "no"),
    ("member 'point point", "no"),
    ("member (list 1 2) point", "no"),
    ("member 0 weekday", "yes"),
    ("member 6 weekday", "yes"),
    ("member 7 weekday", "no"),
    ("member -1 weekday", "no"),
    ("member 0 month", "no"),
    ("member 12 month", "yes"),
    ("member \"0\" weekday", "no"),
];

/// Constants, and lists of constants of which none stands twice.
const CONSTANTS: [(&str, &str); 29] = [
    ("member 1 (member 1 2)", "yes"),
    ("member 3 (member 1 2)", "no"),
    ("member \"1\" (member 1)", "no"),
    ("member 'red (member red)", "yes"),
    ("member 'red (member 'red)", "yes"),
    ("member \"red\" (member red)", "no"),
    ("member 'red (member \"red\")", "no"),
    ("member null (member null)", "yes"),
    ("member false (member true false)", "yes"),
    ("member 0 (member false null)", "no"),
    ("member 1 (member)", "no"),
    ("member null (member)", "no"),
    ("member (list) (subset 1 2)", "yes"),
    ("member (list) (subset)", "yes"),
    ("member (list 1) (subset)", "no"),
    ("member (list 1) (subset 1 2)", "yes"),
    ("member (list 2 1) (subset 1 2)", "yes"),
    ("member (list 1 1) (subset 1 2)", "no"),
    ("member (list 1 2 1) (subset 1 2)", "no"),
    ("member (list 1) (subset 1 1)", "yes"),
    ("member (list 1 1) (subset 1 1)", "no"),
    ("member (list 3) (subset 1 2)", "no"),
    ("member (list 1 3) (subset 1 2)", "no"),
    ("member (list 1 \"1\") (subset 1 \"1\")", "yes"),
    ("member (list 'a \"a\") (subset a)", "no"),
    ("member 1 (subset 1)", "no"),
    ("member null (subset)", "no"),
    ("member (list (list 1)) (subset 1)", "no"),
    ("member (make point 1 2) (subset 1 2)", "no"),
];

/// Members of types that are made of others.
const PARTS: [(&str, &str); 40] = [
    ("member (list) (sequence nil)", "yes"),
    ("member (list 1) (sequence nil)", "no"),
    ("member (list 1 2) (sequence digit)", "yes"),
    ("member (list 1 12) (sequence digit)", "no"),
    ("member (list 12 1) (sequence digit)", "no"),
    ("member null (sequence t)", "no"),
    ("member (make point 1 2) (sequence t)", "no"),
    ("member (list 1 \"a\" null) (sequence t)", "yes"),
    (
        "member (list (list 1) (list)) (sequence (sequence digit))",
        "yes",
    ),
    ("member (list (list 1) 2) (sequence (sequence digit))", "no"),
    (
        "member (list 1 (list)) (sequence (or digit (sequence nil)))",
        "yes",
    ),
    (
        "member (list 1 (list 1)) (sequence (or digit (sequence nil)))",
        "no",
    ),
    (
        "member (list 1 \"b\" 'c) (sequence (or symbol digit string))",
        "yes",
    ),
    (
        "member (list 1 \"b\" null) (sequence (or symbol digit string))",
        "no",
    ),
    (
        "member (list 1 2) (and (sequence digit) (subset 1 2 3))",
        "yes",
    ),
    (
        "member (list 1 1) (and (sequence digit) (subset 1 2 3))",
        "no",
    ),
    ("member 5 (or string integer)", "yes"),
    ("member 'a (or string integer)", "no"),
    ("member \"a\" (or string integer)", "yes"),
    ("member 5 (and integer (integer 5 *))", "yes"),
    ("member 4 (and integer (integer 5 *))", "no"),
    ("member 5 (and integer string)", "no"),
    (
        "member 5 (and (or string integer) (or symbol (integer 0 9)))",
        "yes",
    ),
    ("member null (null-or-type digit)", "yes"),
    ("member 5 (null-or-type digit)", "yes"),
    ("member 10 (null-or-type digit)", "no"),
    ("member null (null-or-type nil)", "yes"),
    ("member null (null-or-type (null-or-type digit))", "yes"),
    (
        "member (list null 1) (sequence (null-or-type digit))",
        "yes",
    ),
    ("member 'all (token-or-type (all none) digit)", "yes"),
    ("member 'none (token-or-type (all none) digit)", "yes"),
    ("member 'some (token-or-type (all none) digit)", "no"),
    ("member \"all\" (token-or-type (all none) digit)", "no"),
    ("member 5 (token-or-type (all none) digit)", "yes"),
    ("member 10 (token-or-type (all none) digit)", "no"),
    ("member 'some (token-or-type (all) symbol)", "yes"),
    ("member 5 (token-or-type () digit)", "yes"),
    ("member 'all (token-or-type () digit)", "no"),
    (
        "member (list 'all 3) (sequence (token-or-type (all) digit))",
        "yes",
    ),
    (
        "member null (token-or-type (all) (null-or-type digit))",
        "yes",
    ),
];

#[test]
fn members_numbers(rt: HostRuntime) -> Result<(), Fail> {
    ask_all(&rt, TYPES, &NUMBERS)
}

#[test]
fn members_atoms(rt: HostRuntime) -> Result<(), Fail> {
    ask_all(&rt, TYPES, &ATOMS)
}

#[test]
fn members_constants(rt: HostRuntime) -> Result<(), Fail> {
    ask_all(&rt, TYPES, &CONSTANTS)
}

#[test]
fn members_parts(rt: HostRuntime) -> Result<(), Fail> {
    ask_all(&rt, TYPES, &PARTS)
}
