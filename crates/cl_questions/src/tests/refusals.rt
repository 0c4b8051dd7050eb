//! Rings of types, and specifiers that are past the limits.
use super::asking::build_all;
use std::test::Fail;

/// Rings, by the first declaration on one, and what is none.
const RINGS: [(&str, &str); 12] = [
    ("", "built"),
    ("(define-presentation-type a () :inherit-from a)", "cycle 0"),
    (
        "(define-presentation-type a () :inherit-from (sequence a))",
        "cycle 0",
    ),
    (
        "(define-presentation-type a () :inherit-from b)
(define-presentation-type b () :inherit-from a)",
        "cycle 0",
    ),
    (
        "(define-presentation-type c () :inherit-from b)
(define-presentation-type a () :inherit-from b)
(define-presentation-type b () :inherit-from (or integer a))",
        "cycle 48",
    ),
    (
        "(define-presentation-type b () :inherit-from (or integer c))
(define-presentation-type d () :inherit-from (and integer d))
(define-presentation-type c () :inherit-from (null-or-type b))",
        "cycle 0",
    ),
    (
        "(define-presentation-type d () :inherit-from c)
(define-presentation-type a () :inherit-from (token-or-type (a) b))
(define-presentation-type b () :inherit-from (sequence (or string c)))
(define-presentation-type c () :inherit-from (and integer a))",
        "cycle 48",
    ),
    (
        "(define-presentation-type a () :inherit-from (member a))",
        "built",
    ),
    (
        "(define-presentation-type a () :inherit-from (token-or-type (a) integer))",
        "built",
    ),
    (
        "(define-presentation-type a (a) :inherit-from (integer a *))",
        "built",
    ),
    (
        "(define-record a b)
(define-presentation-type b () :inherit-from a)",
        "built",
    ),
    (
        "(define-presentation-type a () :inherit-from b)
(define-presentation-type b () :inherit-from c)
(define-presentation-type c () :inherit-from integer)
(define-presentation-type d () :inherit-from (and a b c))",
        "built",
    ),
];

/// Specifiers by their depth and their size, each at its limit and one past it; and which of two is told.
const SIZES: [(&str, &str); 21] = [
    (
        "(define-presentation-type a () :inherit-from (sequence (sequence (sequence (sequence (sequence (sequence (sequence integer))))))))",
        "built",
    ),
    (
        "(define-presentation-type a () :inherit-from (sequence (sequence (sequence (sequence (sequence (sequence (sequence (sequence integer)))))))))",
        "large 45",
    ),
    (
        "(define-command com-a ((x (sequence (sequence (sequence (sequence (sequence (sequence (sequence integer))))))))) (reply \"a\"))",
        "built",
    ),
    (
        "(define-command com-a ((x (sequence (sequence (sequence (sequence (sequence (sequence (sequence (sequence integer)))))))))) (reply \"a\"))",
        "large 26",
    ),
    (
        "(define-presentation-type a () :inherit-from (sequence (sequence (sequence (sequence (sequence (sequence integer)))))))
(define-presentation-type b () :inherit-from a)",
        "built",
    ),
    (
        "(define-presentation-type a () :inherit-from (sequence (sequence (sequence (sequence (sequence (sequence (sequence integer))))))))
(define-presentation-type b () :inherit-from a)",
        "large 176",
    ),
    (
        "(define-presentation-type a () :inherit-from (sequence (sequence (sequence (sequence (sequence (sequence integer)))))))
(define-presentation-type b () :inherit-from a)
(define-presentation-type c () :inherit-from (or integer b))",
        "large 213",
    ),
    (
        "(define-presentation-type a () :inherit-from (sequence (sequence (sequence (sequence (sequence (sequence (sequence integer))))))))
(define-command com-a ((x a)) (reply \"a\"))",
        "large 157",
    ),
    (
        "(define-presentation-type c () :inherit-from (or b integer))
(define-presentation-type b () :inherit-from a)
(define-presentation-type a () :inherit-from (sequence (sequence (sequence (sequence (sequence (sequence integer)))))))",
        "large 45",
    ),
    (
        "(define-presentation-type a () :inherit-from (or integer ((sequence (sequence (sequence (sequence (sequence (sequence (sequence integer))))))) :separator \";\")))",
        "large 45",
    ),
    (
        "(define-presentation-type a () :inherit-from ((sequence (sequence (sequence (sequence (sequence (sequence (sequence (sequence integer)))))))) :description \"deep\"))",
        "large 45",
    ),
    (
        "(define-presentation-type a () :inherit-from (member 1 2 3 4 5 6 7 8 9 10 11 12 13 14 15 16 17 18 19 20 21 22 23 24 25 26 27 28 29 30))
(define-command com-a ((x (or a a a a a a a (member 1 2 3 4 5 6 7 8 9 10 11 12 13 14 15 16 17 18 19 20 21 22 23 24 25 26 27 28 29 30)))) (reply \"a\"))",
        "built",
    ),
    (
        "(define-presentation-type a () :inherit-from (member 1 2 3 4 5 6 7 8 9 10 11 12 13 14 15 16 17 18 19 20 21 22 23 24 25 26 27 28 29 30))
(define-command com-a ((x (or a a a a a a a (member 1 2 3 4 5 6 7 8 9 10 11 12 13 14 15 16 17 18 19 20 21 22 23 24 25 26 27 28 29 30 31)))) (reply \"a\"))",
        "large 162",
    ),
    (
        "(define-presentation-type a () :inherit-from (member 1 2 3 4 5 6 7 8 9 10 11 12 13 14 15 16 17 18 19 20 21 22 23 24 25 26 27 28 29 30))
(define-presentation-type b () :inherit-from (or a a a a a a a (subset 1 2 3 4 5 6 7 8 9 10 11 12 13 14 15 16 17 18 19 20 21 22 23 24 25 26 27 28 29 30)))
(define-presentation-type c () :inherit-from b)",
        "large 336",
    ),
    (
        "(define-presentation-type a () :inherit-from (member 1 2 3 4 5 6 7 8 9 10 11 12 13 14 15 16 17 18 19 20 21 22 23 24 25 26 27 28 29 30))
(define-command com-a ((x (token-or-type (t1 t2 t3 t4 t5 t6 t7 t8 t9 t10 t11 t12 t13 t14 t15 t16 t17 t18 t19 t20 t21 t22 t23 t24 t25 t26 t27 t28 t29 t30) (or a a a a a a a)))) (reply \"a\"))",
        "built",
    ),
    (
        "(define-presentation-type a () :inherit-from (member 1 2 3 4 5 6 7 8 9 10 11 12 13 14 15 16 17 18 19 20 21 22 23 24 25 26 27 28 29 30))
(define-command com-a ((x (token-or-type (t1 t2 t3 t4 t5 t6 t7 t8 t9 t10 t11 t12 t13 t14 t15 t16 t17 t18 t19 t20 t21 t22 t23 t24 t25 t26 t27 t28 t29 t30 t31) (or a a a a a a a)))) (reply \"a\"))",
        "large 162",
    ),
    (
        "(define-presentation-type a (p q) :inherit-from (integer p q))
(define-presentation-type b () :inherit-from (or (a 1 2) (a * 2) (a 1 *) (a * *) (a 1 2) (a 1 2) (a 1 2)))
(define-command com-a ((x (or b b b b b (a 1 2) (a 1 2) (a 1 2) (a 1 2) (a 1 2) t t t t t))) (reply \"a\"))",
        "built",
    ),
    (
        "(define-presentation-type a (p q) :inherit-from (integer p q))
(define-presentation-type b () :inherit-from (or (a 1 2) (a * 2) (a 1 *) (a * *) (a 1 2) (a 1 2) (a 1 2)))
(define-command com-a ((x (or b b b b b (a 1 2) (a 1 2) (a 1 2) (a 1 2) (a 1 2) t t t t t t))) (reply \"a\"))",
        "large 196",
    ),
    (
        "(define-command com-a ((x integer) (y (sequence (sequence (sequence (sequence (sequence (sequence (sequence (sequence integer))))))))) (z (sequence (sequence (sequence (sequence (sequence (sequence (sequence (sequence (sequence integer))))))))))) (reply \"a\"))",
        "large 38",
    ),
    (
        "(define-command com-a ((x (sequence (sequence (sequence (sequence (sequence (sequence (sequence (sequence integer)))))))))) (reply \"a\"))
(define-presentation-type a () :inherit-from (sequence (sequence (sequence (sequence (sequence (sequence (sequence (sequence integer)))))))))",
        "large 26",
    ),
    (
        "(define-presentation-type a () :inherit-from (sequence (sequence (sequence (sequence (sequence (sequence (sequence (sequence integer)))))))))
(define-presentation-type b () :inherit-from c)
(define-presentation-type c () :inherit-from b)",
        "cycle 142",
    ),
];

#[test]
fn rings_are_told(rt: HostRuntime) -> Result<(), Fail> {
    build_all(&rt, &RINGS)
}

#[test]
fn sizes_are_told(rt: HostRuntime) -> Result<(), Fail> {
    build_all(&rt, &SIZES)
}
