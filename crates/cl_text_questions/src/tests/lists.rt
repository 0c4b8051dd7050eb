//! Lists and their separators, both ways.
use super::asking::ask_all;
use super::declared::DECLARED;
use std::test::Fail;

/// Lists that are read.
const SEQUENCES: [(&str, &str); 39] = [
    (r#"accept (sequence integer) """#, "()"),
    (r#"accept (sequence integer) "1""#, "(1)"),
    (r#"accept (sequence integer) "1,2,3""#, "(1 2 3)"),
    (r#"accept (sequence integer) " 1 ,  2 ""#, "(1 2)"),
    (r#"accept (sequence integer) "1,""#, "refused"),
    (r#"accept (sequence integer) ",1""#, "refused"),
    (r#"accept (sequence integer) "1,,2""#, "refused"),
    (r#"accept (sequence integer) " ""#, "refused"),
    (r#"accept (sequence integer) "1 2""#, "refused"),
    (r#"accept (sequence integer) "1;2""#, "refused"),
    (r#"accept (sequence integer) "\"1\",2""#, "(1 2)"),
    (r#"accept (sequence integer) "\" 1\"""#, "refused"),
    (r#"accept (sequence integer) "-1,-0,007""#, "(-1 0 7)"),
    (r#"accept (sequence integer) "1,x""#, "refused"),
    (
        r#"accept (sequence integer) "1, 9223372036854775808""#,
        "refused",
    ),
    (r#"accept (sequence (integer 0 9)) "0,9""#, "(0 9)"),
    (r#"accept (sequence (integer 0 9)) "0,10""#, "refused"),
    (r#"accept (sequence string) """#, "()"),
    (r#"accept (sequence string) " ""#, r#"("")"#),
    (r#"accept (sequence string) ",""#, r#"("" "")"#),
    (r#"accept (sequence string) "a""#, r#"("a")"#),
    (r#"accept (sequence string) "a,b""#, r#"("a" "b")"#),
    (r#"accept (sequence string) "a,""#, r#"("a" "")"#),
    (r#"accept (sequence string) ",a""#, r#"("" "a")"#),
    (r#"accept (sequence string) " a b , c ""#, r#"("a b" "c")"#),
    (r#"accept (sequence string) "a,,b""#, r#"("a" "" "b")"#),
    (r#"accept (sequence string) " , ""#, r#"("" "")"#),
    (r#"accept (sequence string) "é,É""#, r#"("é" "É")"#),
    (r#"accept (sequence boolean) "yes,NO""#, "(true false)"),
    (r#"accept (sequence boolean) "yes,maybe""#, "refused"),
    (r#"accept (sequence symbol) "A,b-c""#, "(a b-c)"),
    (r#"accept (sequence symbol) "a,""#, "refused"),
    (r#"accept (sequence symbol) "a,1""#, "refused"),
    (r#"accept (sequence (string 2)) "ab, cd""#, r#"("ab" "cd")"#),
    (r#"accept (sequence (string 2)) "ab,c""#, "refused"),
    (r#"accept (sequence t) """#, "()"),
    (r#"accept (sequence t) "a""#, "refused"),
    (r#"accept (sequence nil) """#, "()"),
    (r#"accept (sequence nil) ",""#, "refused"),
];

/// Other separators.
const SEPARATORS: [(&str, &str); 23] = [
    (
        r#"accept ((sequence integer) :separator ";") "1;2""#,
        "(1 2)",
    ),
    (
        r#"accept ((sequence integer) :separator ";") "1,2""#,
        "refused",
    ),
    (
        r#"accept ((sequence integer) :separator ";") "1; 2 ;3""#,
        "(1 2 3)",
    ),
    (
        r#"accept ((sequence integer) :separator ";") ";""#,
        "refused",
    ),
    (
        r#"accept ((sequence integer) :separator "-") "1-2""#,
        "(1 2)",
    ),
    (
        r#"accept ((sequence integer) :separator "-") "-1""#,
        "refused",
    ),
    (
        r#"accept ((sequence integer) :separator "-") "1--2""#,
        "refused",
    ),
    (
        r#"accept ((sequence string) :separator "|") "a|b""#,
        r#"("a" "b")"#,
    ),
    (
        r#"accept ((sequence string) :separator "|") "a,b|c""#,
        r#"("a,b" "c")"#,
    ),
    (
        r#"accept ((sequence string) :separator "|") "\"a|b\"|c""#,
        r#"("a|b" "c")"#,
    ),
    (
        r#"accept ((sequence string) :separator "|") "\"a|b""#,
        "refused",
    ),
    (
        r#"accept ((sequence string) :separator "|") "a|""#,
        r#"("a" "")"#,
    ),
    (
        r#"accept ((sequence string) :separator "(") "a(b""#,
        r#"("a" "b")"#,
    ),
    (
        r#"accept ((sequence string) :separator "(") "\"a(b""#,
        "refused",
    ),
    (
        r#"accept ((sequence string) :separator "'") "a'b""#,
        r#"("a" "b")"#,
    ),
    (
        r#"accept ((sequence string) :description "rows" :separator "/") "a/b c/\"d/e\"""#,
        r#"("a" "b c" "d/e")"#,
    ),
    (
        r#"accept ((sequence string) :description "rows" :separator "/") "/""#,
        r#"("" "")"#,
    ),
    (
        r#"text (list 1 2) ((sequence integer) :separator ";")"#,
        "1;2",
    ),
    (r#"text (list) ((sequence integer) :separator ";")"#, ""),
    (
        r#"text (list -1) ((sequence integer) :separator ";")"#,
        "-1",
    ),
    (
        r#"text (list "a;b" "c") ((sequence string) :separator ";")"#,
        "a;b;c",
    ),
    (
        r#"text (list "a,b" "" "c d") ((sequence string) :separator ";")"#,
        r#""a,b";"";"c d""#,
    ),
    (
        r#"text (list true false) ((sequence boolean) :separator "/")"#,
        "Yes/No",
    ),
];

/// Lists in lists.
const NESTED: [(&str, &str); 28] = [
    (r#"accept (sequence (sequence integer)) """#, "()"),
    (r#"accept (sequence (sequence integer)) "1,2""#, "((1) (2))"),
    (
        r#"accept (sequence (sequence integer)) "\"1,2\",3""#,
        "((1 2) (3))",
    ),
    (r#"accept (sequence (sequence integer)) ",""#, "(() ())"),
    (
        r#"accept (sequence (sequence integer)) "\"\",1""#,
        "(() (1))",
    ),
    (r#"accept (sequence (sequence integer)) "\"1,2""#, "refused"),
    (
        r#"accept (sequence (sequence integer)) "\" 1 , 2 \"""#,
        "((1 2))",
    ),
    (
        r#"accept (sequence (sequence integer)) "\"\\\"1\\\",2\"""#,
        "((1 2))",
    ),
    (
        r#"accept (sequence ((sequence integer) :separator ";")) "1;2,3""#,
        "((1 2) (3))",
    ),
    (
        r#"accept (sequence ((sequence integer) :separator ";")) "1;2;,3""#,
        "refused",
    ),
    (
        r#"accept (sequence ((sequence integer) :separator ";")) "1;2,,3""#,
        "((1 2) () (3))",
    ),
    (
        r#"accept (sequence ((sequence integer) :separator ";")) " 1 ; 2 , 3""#,
        "((1 2) (3))",
    ),
    (
        r#"accept (sequence ((sequence integer) :separator ";")) "\"1;2\",3""#,
        "((1 2) (3))",
    ),
    (
        r#"accept ((sequence (sequence string)) :separator ";") "a,b;c""#,
        r#"(("a" "b") ("c"))"#,
    ),
    (
        r#"accept ((sequence (sequence string)) :separator ";") "\"a,b;c\"""#,
        r#"(("a" "b;c"))"#,
    ),
    (
        r#"accept ((sequence (sequence string)) :separator ";") "a,\"b;c\";d""#,
        "refused",
    ),
    (
        r#"accept ((sequence (sequence string)) :separator ";") "\"a,\\\"b;c\\\"\";d""#,
        r#"(("a" "b;c") ("d"))"#,
    ),
    (
        r#"accept ((sequence (sequence string)) :separator ";") " \"a\" , b ; c""#,
        "refused",
    ),
    (
        r#"accept (sequence (subset red blue)) "red,blue""#,
        "((red) (blue))",
    ),
    (
        r#"accept (sequence (subset red blue)) "\"red,blue\",red""#,
        "((red blue) (red))",
    ),
    (
        r#"accept (sequence (subset red blue)) "\"red,red\"""#,
        "refused",
    ),
    (
        r#"accept (sequence (null-or-type (sequence integer))) "none,1,\"2,3\"""#,
        "(null (1) (2 3))",
    ),
    (
        r#"accept (sequence (null-or-type (sequence integer))) "None""#,
        "(null)",
    ),
    (
        "text (list (list 1 2) (list 3)) (sequence (sequence integer))",
        "1,2,3",
    ),
    (
        "text (list (list) (list)) (sequence (sequence integer))",
        ",",
    ),
    (
        r#"text (list (list 1 2) (list 3)) (sequence ((sequence integer) :separator ";"))"#,
        "1;2,3",
    ),
    (
        r#"text (list (list "a b" "c") (list "")) (sequence (sequence string))"#,
        r#""a b",c,"""#,
    ),
    (
        r#"text (list (list 'red 'blue) (list 'blue)) (sequence ((subset red blue) :separator "+"))"#,
        "red+blue,blue",
    ),
];

/// Texts of lists.
const LISTED: [(&str, &str); 12] = [
    (r#"text (list "a b" "c") (sequence string)"#, r#""a b",c"#),
    ("text (list) (sequence string)", ""),
    (r#"text (list "") (sequence string)"#, r#""""#),
    (r#"text (list "" "") (sequence string)"#, r#""","""#),
    (
        r#"text (list "a\"b" "a\\b" "a,b") (sequence string)"#,
        r#""a\"b","a\\b","a,b""#,
    ),
    (r#"text (list "a;b" "é") (sequence string)"#, "a;b,é"),
    ("text (list 1 -2 3) (sequence integer)", "1,-2,3"),
    ("text (list) (sequence integer)", ""),
    (r#"text (list "a b" null) (sequence integer)"#, "a b,None"),
    ("text (list true false) (sequence boolean)", "Yes,No"),
    ("text (list 'a '-) (sequence symbol)", "a,-"),
    (
        r#"text (list "a b" (list 1 "x") null) (sequence t)"#,
        r#"a b,(1 "x"),None"#,
    ),
];

#[test]
fn lists_that_are_read(rt: HostRuntime) -> Result<(), Fail> {
    ask_all(&rt, DECLARED, &SEQUENCES)
}

#[test]
fn separators(rt: HostRuntime) -> Result<(), Fail> {
    ask_all(&rt, DECLARED, &SEPARATORS)
}

#[test]
fn nested_lists(rt: HostRuntime) -> Result<(), Fail> {
    ask_all(&rt, DECLARED, &NESTED)
}

#[test]
fn texts_of_lists(rt: HostRuntime) -> Result<(), Fail> {
    ask_all(&rt, DECLARED, &LISTED)
}
