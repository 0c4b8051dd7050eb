//! Which of two types is a subtype of the other: standard types.
use super::asking::{TYPES, ask_all};
use std::test::Fail;

/// What every type is below, and what is below every type; numbers by their bounds; texts by their length.
const EDGES: [(&str, &str); 37] = [
    ("subtype t t", "yes"),
    ("subtype integer t", "yes"),
    ("subtype t integer", "no"),
    ("subtype (or integer t) t", "yes"),
    ("subtype t (or integer t)", "yes"),
    ("subtype nil integer", "yes"),
    ("subtype nil nil", "yes"),
    ("subtype integer nil", "no"),
    ("subtype t nil", "no"),
    ("subtype nil (member)", "yes"),
    ("subtype (member) nil", "no"),
    ("subtype (integer 0 9) (integer 0 9)", "yes"),
    ("subtype (integer 0 9) (integer 0 10)", "yes"),
    ("subtype (integer 0 9) (integer -1 9)", "yes"),
    ("subtype (integer 0 9) (integer 1 9)", "no"),
    ("subtype (integer 0 9) (integer 0 8)", "no"),
    ("subtype (integer 0 9) (integer 0 *)", "yes"),
    ("subtype (integer 0 9) (integer * 9)", "yes"),
    ("subtype (integer 0 *) (integer 0 9)", "no"),
    ("subtype (integer * 9) (integer 0 9)", "no"),
    ("subtype (integer 0 *) (integer 0)", "yes"),
    ("subtype (integer 0) (integer 0 *)", "yes"),
    ("subtype (integer * *) integer", "yes"),
    ("subtype integer (integer * *)", "yes"),
    (
        "subtype integer (integer -9223372036854775808 9223372036854775807)",
        "no",
    ),
    (
        "subtype (integer -9223372036854775808 9223372036854775807) integer",
        "yes",
    ),
    ("subtype (integer 3 2) nil", "no"),
    ("subtype (integer 3 2) (integer 2 3)", "yes"),
    ("subtype (integer 3 2) (integer 3 2)", "yes"),
    ("subtype (integer 3 2) (integer 4 1)", "no"),
    ("subtype (string 3) string", "yes"),
    ("subtype string (string 3)", "no"),
    ("subtype (string 3) (string 3)", "yes"),
    ("subtype (string 3) (string 4)", "no"),
    ("subtype string string", "yes"),
    ("subtype string symbol", "no"),
    ("subtype (string 3) symbol", "no"),
];

/// A type without parts, a declared type with equal arguments, and constants that are all among others.
const WHOLES: [(&str, &str); 47] = [
    ("subtype boolean boolean", "yes"),
    ("subtype symbol symbol", "yes"),
    ("subtype symbol boolean", "no"),
    ("subtype blank-area blank-area", "yes"),
    ("subtype command command", "yes"),
    ("subtype dialog-choice dialog-choice", "yes"),
    ("subtype dialog-choice t", "yes"),
    ("subtype dialog-choice symbol", "no"),
    ("subtype symbol dialog-choice", "no"),
    ("subtype (member exit) dialog-choice", "no"),
    ("subtype dialog-choice (or symbol dialog-choice)", "yes"),
    ("subtype command (sequence t)", "no"),
    ("subtype blank-area (sequence t)", "no"),
    ("subtype point point", "yes"),
    ("subtype point span", "no"),
    ("subtype span t", "yes"),
    ("subtype point (or span point)", "yes"),
    ("subtype weekday weekday", "yes"),
    ("subtype weekday month", "no"),
    ("subtype digit digit", "yes"),
    ("subtype (reach 0 9) (reach 0 9)", "yes"),
    ("subtype (reach 0 9) (reach 0 10)", "no"),
    ("subtype (reach * 9) (reach * 9)", "yes"),
    ("subtype (reach * 9) (reach 0 9)", "no"),
    ("subtype (reach 0 9) (reach * 9)", "no"),
    ("subtype (one-of red \"red\") (one-of red \"red\")", "yes"),
    ("subtype (one-of red blue) (one-of blue red)", "no"),
    ("subtype (member 1 2) (member 2 3 1)", "yes"),
    ("subtype (member 1 2) (member 2 3)", "no"),
    ("subtype (member) (member 1)", "yes"),
    ("subtype (member) (member)", "yes"),
    ("subtype (member 1) (member)", "no"),
    ("subtype (member 1 1) (member 1)", "yes"),
    ("subtype (member 1) integer", "no"),
    ("subtype (member red) symbol", "no"),
    ("subtype (member red) (member 'red)", "yes"),
    ("subtype (member \"red\") (member red)", "no"),
    ("subtype (member true) (member false true)", "yes"),
    ("subtype (member null) (null-or-type nil)", "no"),
    (
        "subtype (member red) (or (member blue) (member green red))",
        "yes",
    ),
    (
        "subtype (member red blue) (or (member red) (member blue))",
        "no",
    ),
    ("subtype (subset 1 2) (subset 2 3 1)", "yes"),
    ("subtype (subset 1 2) (subset 1)", "no"),
    ("subtype (subset) (subset 1)", "yes"),
    ("subtype (subset red) (sequence symbol)", "no"),
    ("subtype (member 1) (subset 1)", "no"),
    ("subtype (subset 1) (member 1)", "no"),
];

/// Lists, or, and.
const PARTS: [(&str, &str); 38] = [
    ("subtype (sequence digit) (sequence integer)", "yes"),
    ("subtype (sequence integer) (sequence digit)", "no"),
    ("subtype (sequence nil) (sequence integer)", "yes"),
    (
        "subtype (sequence (sequence digit)) (sequence (sequence t))",
        "yes",
    ),
    ("subtype (sequence integer) integer", "no"),
    ("subtype integer (sequence integer)", "no"),
    ("subtype (sequence t) t", "yes"),
    (
        "subtype (sequence (or digit string)) (sequence (or string integer))",
        "yes",
    ),
    (
        "subtype (sequence (or digit string)) (or (sequence string) (sequence integer))",
        "no",
    ),
    (
        "subtype (or (sequence digit) (sequence string)) (sequence (or string integer))",
        "yes",
    ),
    ("subtype (or integer string) (or string integer)", "yes"),
    ("subtype (or integer string) integer", "no"),
    ("subtype (or digit weekday) integer", "yes"),
    ("subtype (or nil nil) nil", "yes"),
    ("subtype integer (or string integer)", "yes"),
    ("subtype integer (or string symbol)", "no"),
    (
        "subtype (or (integer 0 4) (integer 5 9)) (integer 0 9)",
        "yes",
    ),
    (
        "subtype (integer 0 9) (or (integer 0 4) (integer 5 9))",
        "no",
    ),
    ("subtype (or integer) integer", "yes"),
    ("subtype integer (or integer)", "yes"),
    (
        "subtype (or (or digit string) symbol) (or symbol (or string integer))",
        "yes",
    ),
    ("subtype (and integer string) string", "yes"),
    ("subtype (and integer string) nil", "no"),
    ("subtype integer (and integer digit)", "no"),
    ("subtype digit (and integer digit)", "yes"),
    ("subtype (and digit symbol) (and symbol integer)", "yes"),
    (
        "subtype (and digit symbol) (and symbol (integer 1 9))",
        "no",
    ),
    ("subtype (and integer t) (or string integer)", "yes"),
    ("subtype (and t) t", "yes"),
    ("subtype (and integer) (integer * *)", "yes"),
    (
        "subtype (and (and digit string) symbol) (or boolean (and string integer))",
        "yes",
    ),
    (
        "subtype (or (and digit symbol) string) (and (or integer string) (or symbol string))",
        "yes",
    ),
    (
        "subtype (and (or integer string) (or symbol string)) (or (and integer symbol) string)",
        "no",
    ),
    (
        "subtype (and integer (or symbol string)) (or (and integer symbol) (and integer string))",
        "no",
    ),
    (
        "subtype (or (and integer symbol) (and integer string)) (and integer (or symbol string))",
        "yes",
    ),
    (
        "subtype (and (or digit weekday) symbol) (integer 0 9)",
        "yes",
    ),
    (
        "subtype (and (or digit weekday) symbol) (integer 0 8)",
        "no",
    ),
    (
        "subtype (or (and digit string) (and weekday string)) (and string (or weekday digit))",
        "yes",
    ),
];

/// Null or a type, and tokens or a type.
const OPTIONAL: [(&str, &str); 30] = [
    ("subtype (null-or-type digit) (null-or-type integer)", "yes"),
    ("subtype (null-or-type integer) (null-or-type digit)", "no"),
    ("subtype digit (null-or-type integer)", "yes"),
    ("subtype (null-or-type digit) digit", "no"),
    ("subtype (null-or-type nil) nil", "no"),
    ("subtype nil (null-or-type nil)", "yes"),
    (
        "subtype (null-or-type digit) (or (null-or-type integer) string)",
        "yes",
    ),
    (
        "subtype (null-or-type digit) (or integer (null-or-type string))",
        "no",
    ),
    (
        "subtype (null-or-type (null-or-type digit)) (null-or-type integer)",
        "no",
    ),
    (
        "subtype (null-or-type digit) (null-or-type (null-or-type integer))",
        "yes",
    ),
    (
        "subtype (null-or-type (or digit string)) (or (null-or-type integer) (null-or-type string))",
        "no",
    ),
    (
        "subtype (or (null-or-type digit) (null-or-type string)) (null-or-type (or string integer))",
        "yes",
    ),
    (
        "subtype (and (null-or-type digit) (null-or-type symbol)) (null-or-type integer)",
        "yes",
    ),
    (
        "subtype (null-or-type (and digit symbol)) (and (null-or-type integer) (null-or-type symbol))",
        "yes",
    ),
    (
        "subtype (token-or-type (all) digit) (token-or-type (none all) integer)",
        "yes",
    ),
    (
        "subtype (token-or-type (none all) digit) (token-or-type (all) integer)",
        "no",
    ),
    (
        "subtype (token-or-type (all) integer) (token-or-type (all) digit)",
        "no",
    ),
    ("subtype digit (token-or-type (all) integer)", "yes"),
    ("subtype (token-or-type (all) digit) digit", "no"),
    ("subtype (token-or-type () digit) digit", "no"),
    (
        "subtype (token-or-type () digit) (token-or-type (all) digit)",
        "yes",
    ),
    (
        "subtype (token-or-type (all all) digit) (token-or-type (all) digit)",
        "yes",
    ),
    ("subtype (member all) (token-or-type (all) digit)", "no"),
    ("subtype (token-or-type (all) nil) symbol", "no"),
    (
        "subtype (token-or-type (all) (null-or-type digit)) (null-or-type (token-or-type (all) digit))",
        "no",
    ),
    (
        "subtype (null-or-type (token-or-type (all) digit)) (token-or-type (all) (null-or-type digit))",
        "no",
    ),
    (
        "subtype (token-or-type (all) digit) (null-or-type (token-or-type (all) integer))",
        "yes",
    ),
    (
        "subtype (null-or-type digit) (token-or-type (all) (null-or-type integer))",
        "yes",
    ),
    (
        "subtype (token-or-type (all) (token-or-type (none) digit)) (token-or-type (all none) integer)",
        "no",
    ),
    (
        "subtype (token-or-type (all) digit) (token-or-type (none) (token-or-type (all) integer))",
        "yes",
    ),
];

#[test]
fn subtypes_edges(rt: HostRuntime) -> Result<(), Fail> {
    ask_all(&rt, TYPES, &EDGES)
}

#[test]
fn subtypes_wholes(rt: HostRuntime) -> Result<(), Fail> {
    ask_all(&rt, TYPES, &WHOLES)
}

#[test]
fn subtypes_parts(rt: HostRuntime) -> Result<(), Fail> {
    ask_all(&rt, TYPES, &PARTS)
}

#[test]
fn subtypes_optional(rt: HostRuntime) -> Result<(), Fail> {
    ask_all(&rt, TYPES, &OPTIONAL)
}
