//! Accept methods.
use super::asking::ask_all;
use super::declared::DECLARED;
use std::test::Fail;

/// Accept methods.
const METHODS: [(&str, &str); 37] = [
    (r#"accept point "origin""#, "#point(0 0)"),
    (r#"accept point "Origin""#, "refused"),
    (r#"accept point """#, "refused"),
    (r#"accept badge "x""#, "refused"),
    (r#"accept seat "x""#, "refused"),
    (r#"accept sized "a""#, "1"),
    (r#"accept sized "abc""#, "3"),
    (r#"accept sized "abcd""#, "refused"),
    (r#"accept sized """#, "refused"),
    (r#"accept sized "é""#, "2"),
    (r#"accept sized "\"a\"""#, "3"),
    (r#"accept resized "ab""#, "2"),
    (r#"accept resized "abcd""#, "refused"),
    (r#"accept halved "ab""#, "2"),
    (r#"accept halved "a""#, "refused"),
    (r#"accept halved """#, "0"),
    (r#"accept nulled "x""#, "refused"),
    (r#"accept nulled """#, "refused"),
    (r#"accept hollow "x""#, "trap 1"),
    (r#"accept doubled "x""#, "trap 1"),
    (r#"accept loose "x""#, "trap 1"),
    (r#"accept loose """#, "trap 1"),
    (r#"accept parted "ab""#, "3"),
    (r#"accept parted """#, "trap 3"),
    (r#"accept summed "a""#, "5050"),
    (r#"accept summed """#, "0"),
    (r#"accept summed "abcd""#, "80200"),
    (
        r#"accept summed "xxxxxxxxxxxxxxxxxxxxxxxxxxxxxxxxx""#,
        "5446650",
    ),
    (
        r#"accept summed "xxxxxxxxxxxxxxxxxxxxxxxxxxxxxxxxxx""#,
        "trap 5",
    ),
    (r#"accept deep "x""#, "trap 6"),
    (r#"accept limited "abc""#, r#""abc+""#),
    (r#"accept limited "1234567""#, r#""1234567+""#),
    (r#"accept limited "12345678""#, "refused"),
    (r#"accept limited """#, r#""+""#),
    (r#"accept short "1234567""#, r#""1234567""#),
    (r#"accept short "12345678""#, "refused"),
    (r#"accept strict "x""#, "refused"),
];

/// Accept methods within other types.
const AROUND: [(&str, &str); 44] = [
    (r#"accept (sequence sized) "a,bb,ccc""#, "(1 2 3)"),
    (r#"accept (sequence sized) "a,""#, "refused"),
    (r#"accept (sequence sized) """#, "()"),
    (r#"accept (sequence sized) "a,bbbb""#, "refused"),
    (r#"accept (sequence sized) "\"a b\",c""#, "(3 1)"),
    (r#"accept (sequence sized) "a , b""#, "(1 1)"),
    (r#"accept (sequence parted) "a,bb""#, "(6 3)"),
    (r#"accept (sequence parted) "a,,b""#, "trap 3"),
    (r#"accept (sequence parted) ",a""#, "trap 3"),
    (r#"accept (sequence nulled) """#, "()"),
    (r#"accept (sequence nulled) "a""#, "refused"),
    (
        r#"accept (sequence point) "origin,origin""#,
        "(#point(0 0) #point(0 0))",
    ),
    (r#"accept (sequence point) "origin,here""#, "refused"),
    (
        r#"accept ((sequence sized) :separator ";") "a;b,c""#,
        "(1 3)",
    ),
    (r#"accept (or nulled integer) "5""#, "5"),
    (r#"accept (or nulled integer) "x""#, "refused"),
    (r#"accept (or integer nulled) "5""#, "5"),
    (r#"accept (or integer nulled) "x""#, "refused"),
    (r#"accept (or parted string) """#, "trap 3"),
    (r#"accept (or parted string) "ab""#, "3"),
    (r#"accept (or string parted) """#, r#""""#),
    (r#"accept (or (integer 1 2) sized integer) "123""#, "3"),
    (r#"accept (or (integer 1 2) sized integer) "1234""#, "1234"),
    (r#"accept (or (integer 1 2) sized integer) "2""#, "2"),
    (r#"accept (or hollow string) "x""#, "trap 1"),
    (r#"accept (or strict string) "x""#, r#""x""#),
    (r#"accept (or point badge string) "origin""#, "#point(0 0)"),
    (r#"accept (or point badge string) "here""#, r#""here""#),
    (r#"accept (and sized even) "ab""#, "2"),
    (r#"accept (and sized even) "abc""#, "refused"),
    (r#"accept (and even sized) "ab""#, "refused"),
    (r#"accept (and even sized) "2""#, "2"),
    (r#"accept (and loose string) "x""#, "trap 1"),
    (r#"accept (and parted nil) """#, "trap 3"),
    (r#"accept (and parted nil) "a""#, "refused"),
    (r#"accept (null-or-type parted) "none""#, "null"),
    (r#"accept (null-or-type parted) """#, "trap 3"),
    (r#"accept (null-or-type parted) "abc""#, "2"),
    (r#"accept (token-or-type (all) doubled) "ALL""#, "all"),
    (r#"accept (token-or-type (all) doubled) "some""#, "trap 1"),
    (r#"accept (sequence (or parted string)) "a,""#, "trap 3"),
    (r#"accept (sequence (or parted string)) "\"\",a""#, "trap 3"),
    (r#"accept (sequence summed) "a,b""#, "(5050 5050)"),
    (
        r#"accept (sequence summed) "a,xxxxxxxxxxxxxxxxxxxxxxxxxxxxxxxxxx""#,
        "trap 5",
    ),
];

#[test]
fn accept_methods(rt: HostRuntime) -> Result<(), Fail> {
    ask_all(&rt, DECLARED, &METHODS)
}

#[test]
fn accept_methods_within(rt: HostRuntime) -> Result<(), Fail> {
    ask_all(&rt, DECLARED, &AROUND)
}
