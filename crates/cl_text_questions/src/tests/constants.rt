//! Constants of member and subset, both ways.
use super::asking::ask_all;
use super::declared::DECLARED;
use std::test::Fail;

/// Constants of member.
const MEMBERS: [(&str, &str); 35] = [
    (r#"accept (member red green) "red""#, "red"),
    (r#"accept (member red green) "GREEN""#, "green"),
    (r#"accept (member red green) "Red""#, "red"),
    (r#"accept (member red green) "blue""#, "refused"),
    (r#"accept (member red green) """#, "refused"),
    (r#"accept (member red green) " red""#, "refused"),
    (r#"accept (member "Red" "Dark Blue") "red""#, r#""Red""#),
    (
        r#"accept (member "Red" "Dark Blue") "dark blue""#,
        r#""Dark Blue""#,
    ),
    (
        r#"accept (member "Red" "Dark Blue") "DARK BLUE""#,
        r#""Dark Blue""#,
    ),
    (r#"accept (member "Red" "Dark Blue") "\"red\"""#, "refused"),
    (
        r#"accept (member "Red" "Dark Blue") "dark  blue""#,
        "refused",
    ),
    (r#"accept (member "A" "a") "a""#, r#""A""#),
    (r#"accept (member "A" "a") "A""#, r#""A""#),
    (r#"accept (member 5 "5" "-5") "5""#, "5"),
    (r#"accept (member 5 "5" "-5") "05""#, "refused"),
    (r#"accept (member 5 "5" "-5") "-5""#, r#""-5""#),
    (r#"accept (member "5" 5) "5""#, r#""5""#),
    (r#"accept (member true false null) "yes""#, "true"),
    (r#"accept (member true false null) "NO""#, "false"),
    (r#"accept (member true false null) "None""#, "null"),
    (r#"accept (member true false null) "true""#, "refused"),
    (r#"accept (member true false null) "null""#, "refused"),
    (r#"accept (member "None" null) "none""#, r#""None""#),
    (r#"accept (member "") """#, r#""""#),
    (r#"accept (member "") " ""#, "refused"),
    (r#"accept (member) """#, "refused"),
    (r#"accept (member) "a""#, "refused"),
    (r#"accept (member "é") "é""#, r#""é""#),
    (r#"accept (member "é") "É""#, "refused"),
    (r#"text 'red (member red "Dark Blue" 5 true null)"#, "red"),
    (
        r#"text "Dark Blue" (member red "Dark Blue" 5 true null)"#,
        "Dark Blue",
    ),
    (r#"text 5 (member red "Dark Blue" 5 true null)"#, "5"),
    (r#"text true (member red "Dark Blue" 5 true null)"#, "Yes"),
    (r#"text null (member red "Dark Blue" 5 true null)"#, "None"),
    (
        r#"text "other one" (member red "Dark Blue" 5 true null)"#,
        "other one",
    ),
];

/// Lists of constants.
const SUBSETS: [(&str, &str); 43] = [
    (r#"accept (subset red green blue) "red""#, "(red)"),
    (r#"accept (subset red green blue) "red,blue""#, "(red blue)"),
    (
        r#"accept (subset red green blue) "BLUE , Red""#,
        "(blue red)",
    ),
    (r#"accept (subset red green blue) """#, "()"),
    (r#"accept (subset red green blue) " ""#, "refused"),
    (r#"accept (subset red green blue) ",""#, "refused"),
    (r#"accept (subset red green blue) "red,""#, "refused"),
    (r#"accept (subset red green blue) ",red""#, "refused"),
    (r#"accept (subset red green blue) "red,red""#, "refused"),
    (r#"accept (subset red green blue) "red,RED""#, "refused"),
    (r#"accept (subset red green blue) "red,pink""#, "refused"),
    (r#"accept (subset red green blue) "red green""#, "refused"),
    (
        r#"accept (subset red green blue) "\"red\",blue""#,
        "(red blue)",
    ),
    (r#"accept (subset red green blue) "\" red\"""#, "refused"),
    (r#"accept (subset red green blue) "red;blue""#, "refused"),
    (r#"accept (subset "a,b" "c d" "") "\"a,b\"""#, r#"("a,b")"#),
    (r#"accept (subset "a,b" "c d" "") "a,b""#, "refused"),
    (r#"accept (subset "a,b" "c d" "") "c d""#, r#"("c d")"#),
    (
        r#"accept (subset "a,b" "c d" "") " C D , \"A,B\" ""#,
        r#"("c d" "a,b")"#,
    ),
    (r#"accept (subset "a,b" "c d" "") "\"\"""#, r#"("")"#),
    (r#"accept (subset "a,b" "c d" "") " ""#, r#"("")"#),
    (r#"accept (subset "a,b" "c d" "") "c d,""#, r#"("c d" "")"#),
    (r#"accept (subset "a,b" "c d" "") "\"c d""#, "refused"),
    (
        r#"accept (subset "a,b" "c d" "") "\"c\\ d\"""#,
        r#"("c d")"#,
    ),
    (
        r#"accept ((subset red green) :separator ";") "green;red""#,
        "(green red)",
    ),
    (
        r#"accept ((subset red green) :separator ";") "green,red""#,
        "refused",
    ),
    (
        r#"accept ((subset red green) :separator ";") "red;red""#,
        "refused",
    ),
    (
        r#"accept ((subset red green) :separator ";") "green; red""#,
        "(green red)",
    ),
    (
        r#"accept (subset 1 true null) "1,yes,none""#,
        "(1 true null)",
    ),
    (r#"accept (subset 1 true null) "01""#, "refused"),
    (r#"accept (subset 1 true null) "None,Yes""#, "(null true)"),
    (r#"accept (subset 1 true null) "yes,YES""#, "refused"),
    (r#"accept (subset "x" x) "x""#, r#"("x")"#),
    (r#"accept (subset "x" x) "x,x""#, "refused"),
    (r#"accept (subset) """#, "()"),
    (r#"accept (subset) "a""#, "refused"),
    ("text (list) (subset red green)", ""),
    ("text (list 'red) (subset red green)", "red"),
    ("text (list 'green 'red) (subset red green)", "green,red"),
    ("text (list 'red 'red) (subset red green)", "red,red"),
    (
        r#"text (list 'green 'red) ((subset red green) :separator ";")"#,
        "green;red",
    ),
    (
        r#"text (list "c d" "a,b" "") (subset "a,b" "c d" "" 5 true null)"#,
        "c d,a,b,",
    ),
    (
        r#"text (list true null 5) (subset "a,b" "c d" "" 5 true null)"#,
        "Yes,None,5",
    ),
];

#[test]
fn members(rt: HostRuntime) -> Result<(), Fail> {
    ask_all(&rt, DECLARED, &MEMBERS)
}

#[test]
fn subsets(rt: HostRuntime) -> Result<(), Fail> {
    ask_all(&rt, DECLARED, &SUBSETS)
}
