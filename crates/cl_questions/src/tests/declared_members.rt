//! Members of declared types, and commands.
use super::asking::{TYPES, ask_all};
use std::test::Fail;

/// Members of declared types, by what they inherit.
const INHERITED: [(&str, &str); 35] = [
    ("member 0 digit", "yes"),
    ("member 9 digit", "yes"),
    ("member 10 digit", "no"),
    ("member 'a digit", "no"),
    ("member 0 (reach 0 9)", "yes"),
    ("member 9 (reach 0 9)", "yes"),
    ("member 10 (reach 0 9)", "no"),
    ("member 10 (reach 0 *)", "yes"),
    ("member -1 (reach * 9)", "yes"),
    ("member 5 (at-least 5)", "yes"),
    ("member 4 (at-least 5)", "no"),
    ("member -5 (at-least *)", "yes"),
    ("member 5 (turned 9 0)", "yes"),
    ("member 5 (turned 0 9)", "no"),
    ("member 'red (one-of red blue)", "yes"),
    ("member 'green (one-of red blue)", "no"),
    ("member 2 (one-of 1 2)", "yes"),
    ("member (list 2 1) (some-of 1 2)", "yes"),
    ("member (list 1 1) (some-of 1 2)", "no"),
    ("member \"abc\" (word-of 3)", "yes"),
    ("member \"abcd\" (word-of 3)", "no"),
    ("member (list 1 2 3) (row-of 1 3)", "yes"),
    ("member (list 1 2 4) (row-of 1 3)", "no"),
    ("member (list) (row-of 3 1)", "yes"),
    ("member 'red (choice red)", "yes"),
    ("member 'blue (choice red)", "no"),
    ("member 5 (choice red)", "yes"),
    ("member 3 both", "yes"),
    ("member 4 both", "no"),
    ("member 12 both", "no"),
    ("member null perhaps", "yes"),
    ("member 9 perhaps", "yes"),
    ("member 10 perhaps", "no"),
    ("member 'all amount", "yes"),
    ("member 'some amount", "no"),
];

/// Members of declared types, by what they inherit and the functions that they satisfy.
const SATISFIED: [(&str, &str); 22] = [
    ("member 1 counted", "yes"),
    ("member 0 counted", "no"),
    ("member \"a\" counted", "no"),
    ("member 5 (within 2 7)", "yes"),
    ("member 8 (within 2 7)", "no"),
    ("member 8 (within 2 *)", "yes"),
    ("member -8 (within * 7)", "yes"),
    ("member 8 (within * 7)", "no"),
    ("member 0 (within * *)", "yes"),
    ("member 1 never", "no"),
    ("member null never", "no"),
    ("member 1 whatever", "yes"),
    ("member null whatever", "yes"),
    ("member null bare", "yes"),
    ("member (make span 1 2) bare", "yes"),
    ("member 3 twice-asked", "yes"),
    ("member 6 twice-asked", "no"),
    ("member 0 twice-asked", "no"),
    ("member (list 3 1) (sequence twice-asked)", "yes"),
    ("member (list 3 0) (sequence twice-asked)", "no"),
    ("member 5 (or never digit)", "yes"),
    ("member 5 (and whatever never)", "no"),
];

/// Commands, with all their arguments.
const COMMANDS: [(&str, &str); 32] = [
    ("member (list 'com-clear) command", "yes"),
    ("member (list 'com-clear 1) command", "no"),
    ("member (list 'com-clear null) command", "no"),
    ("member 'com-clear command", "no"),
    ("member (list) command", "no"),
    ("member null command", "no"),
    ("member (list \"com-clear\") command", "no"),
    ("member (list 'com-none) command", "no"),
    ("member (list 'com-add 5) command", "yes"),
    ("member (list 'com-add 10) command", "no"),
    ("member (list 'com-add) command", "no"),
    ("member (list 'com-add 5 5) command", "no"),
    ("member (list \"com-add\" 5) command", "no"),
    (
        "member (list 'com-move (make point 1 2) null) command",
        "yes",
    ),
    (
        "member (list 'com-move (make point 1 2) (make point 3 4)) command",
        "yes",
    ),
    (
        "member (list 'com-move (make point 1 2) (make span 3 4)) command",
        "no",
    ),
    (
        "member (list 'com-move null (make point 3 4)) command",
        "no",
    ),
    ("member (list 'com-all (list)) command", "yes"),
    (
        "member (list 'com-all (list (list 'com-clear) (list 'com-add 3))) command",
        "yes",
    ),
    (
        "member (list 'com-all (list (list 'com-clear) (list 'com-add 13))) command",
        "no",
    ),
    (
        "member (list 'com-all (list (list 'com-all (list (list 'com-clear))))) command",
        "yes",
    ),
    (
        "member (list 'com-all (list (list 'com-all (list 'com-clear)))) command",
        "no",
    ),
    ("member (list 'com-all 'com-clear) command", "no"),
    ("member (list 'com-pick 3) command", "yes"),
    ("member (list 'com-pick 6) command", "no"),
    ("member (list 'com-pick 'red) command", "yes"),
    ("member (list 'com-pick 'blue) command", "no"),
    (
        "member (list (list 'com-clear) (list 'com-add 0)) (sequence command)",
        "yes",
    ),
    (
        "member (list (list 'com-clear) null) (sequence command)",
        "no",
    ),
    (
        "member (list 'com-add 5) (and command (sequence (or symbol digit)))",
        "yes",
    ),
    ("member (list 'com-add 5) (or blank-area command)", "yes"),
    (
        "member (list 'com-clear 1 2) (or blank-area command)",
        "yes",
    ),
];

#[test]
fn members_inherited(rt: HostRuntime) -> Result<(), Fail> {
    ask_all(&rt, TYPES, &INHERITED)
}

#[test]
fn members_satisfied(rt: HostRuntime) -> Result<(), Fail> {
    ask_all(&rt, TYPES, &SATISFIED)
}

#[test]
fn members_commands(rt: HostRuntime) -> Result<(), Fail> {
    ask_all(&rt, TYPES, &COMMANDS)
}
