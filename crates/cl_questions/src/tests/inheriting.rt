//! Which of two types is a subtype of the other: declared types.
use super::asking::{TYPES, ask_all};
use std::test::Fail;

/// Types of numbers by what they inherit, with parameters put in.
const BOUNDS: [(&str, &str); 28] = [
    ("subtype digit integer", "yes"),
    ("subtype digit (integer 0 9)", "yes"),
    ("subtype digit (integer 0 8)", "no"),
    ("subtype (integer 0 9) digit", "no"),
    ("subtype digit (reach 0 9)", "no"),
    ("subtype (reach 0 9) digit", "no"),
    ("subtype (reach 0 9) (integer 0 9)", "yes"),
    ("subtype (reach 0 9) (integer 1 9)", "no"),
    ("subtype (reach * 9) (integer * 9)", "yes"),
    ("subtype (reach * 9) (integer 0 9)", "no"),
    ("subtype (reach * *) integer", "yes"),
    ("subtype (at-least 5) (reach 5 *)", "yes"),
    ("subtype (at-least 5) (reach 5 9)", "no"),
    ("subtype (at-least 5) (integer 5 *)", "yes"),
    ("subtype (at-least 5) (integer 4 *)", "yes"),
    ("subtype (at-least 5) (integer 6 *)", "no"),
    ("subtype (at-least 5) (at-least 5)", "yes"),
    ("subtype (at-least 5) (at-least 4)", "no"),
    ("subtype (at-least *) integer", "yes"),
    ("subtype (turned 9 0) (reach 0 9)", "yes"),
    ("subtype (turned 9 0) (reach 9 0)", "no"),
    ("subtype (turned 9 0) (integer 0 9)", "yes"),
    ("subtype (turned 9 0) (turned 0 9)", "no"),
    ("subtype weekday integer", "yes"),
    ("subtype weekday (integer 0 6)", "yes"),
    ("subtype weekday (integer 1 6)", "no"),
    ("subtype (integer 0 6) weekday", "no"),
    ("subtype month (integer 1 *)", "yes"),
];

/// Other declared types by what they inherit.
const INHERITED: [(&str, &str); 44] = [
    ("subtype counted integer", "yes"),
    ("subtype counted (integer 1 *)", "no"),
    ("subtype integer counted", "no"),
    ("subtype (within 0 9) integer", "yes"),
    ("subtype (within 0 9) (integer 0 9)", "no"),
    ("subtype (within 0 9) (within 0 9)", "yes"),
    ("subtype (within 0 9) (within 0 *)", "no"),
    ("subtype bare t", "yes"),
    ("subtype t bare", "no"),
    ("subtype bare bare", "yes"),
    ("subtype bare integer", "no"),
    ("subtype never nil", "no"),
    ("subtype both digit", "yes"),
    ("subtype both (member 3 5 12)", "yes"),
    ("subtype both (member 3 5)", "no"),
    ("subtype both (and (member 12 5 3) integer)", "yes"),
    ("subtype perhaps (null-or-type integer)", "yes"),
    ("subtype perhaps integer", "no"),
    ("subtype amount (token-or-type (none all) integer)", "yes"),
    ("subtype amount (token-or-type (all) integer)", "no"),
    ("subtype (one-of 1 2) (member 2 1)", "yes"),
    ("subtype (one-of 1 2) (member 1)", "no"),
    ("subtype (one-of 1 1) (member 1)", "yes"),
    ("subtype (member 1 2) (one-of 1 2)", "no"),
    ("subtype (some-of 1 2) (subset 3 2 1)", "yes"),
    ("subtype (word-of 3) string", "yes"),
    ("subtype (word-of 3) (string 3)", "yes"),
    ("subtype (word-of 3) (string 4)", "no"),
    ("subtype (row-of 0 9) (sequence (integer 0 9))", "yes"),
    ("subtype (row-of 0 9) (sequence digit)", "no"),
    ("subtype (row-of 0 9) (sequence (reach 0 9))", "yes"),
    ("subtype (row-of 0 *) (sequence (integer 0 9))", "no"),
    ("subtype (choice red) (or (member red blue) integer)", "yes"),
    ("subtype (choice red) (or (member blue) integer)", "no"),
    ("subtype (choice red) (choice blue)", "no"),
    ("subtype twice-asked counted", "yes"),
    ("subtype twice-asked (within * 5)", "yes"),
    ("subtype twice-asked (within 0 5)", "no"),
    (
        "subtype (sequence digit) (sequence (or weekday digit))",
        "yes",
    ),
    ("subtype (or digit weekday) (or weekday digit)", "yes"),
    ("subtype (and digit weekday) (integer 0 6)", "yes"),
    (
        "subtype ((integer 0 9) :description \"a digit\") (integer 0 9)",
        "yes",
    ),
    (
        "subtype (integer 0 9) ((integer 0 9) :description \"a digit\")",
        "yes",
    ),
    (
        "subtype ((sequence digit) :separator \";\") ((sequence integer) :separator \",\")",
        "yes",
    ),
];

#[test]
fn subtypes_bounds(rt: HostRuntime) -> Result<(), Fail> {
    ask_all(&rt, TYPES, &BOUNDS)
}

#[test]
fn subtypes_inherited(rt: HostRuntime) -> Result<(), Fail> {
    ask_all(&rt, TYPES, &INHERITED)
}
