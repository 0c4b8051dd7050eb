//! Precedence lists.
use super::asking::ask_all;
use std::test::Fail;

/// What the types inherit, in diamonds too.
const KINDS: &str = "(define-record point x y)
(define-host-type weekday)
(define-presentation-type digit () :inherit-from (integer 0 9))
(define-presentation-type bare ())
(define-presentation-type top () :inherit-from integer)
(define-presentation-type left () :inherit-from top)
(define-presentation-type right () :inherit-from top)
(define-presentation-type bottom () :inherit-from (and left right))
(define-presentation-type lower () :inherit-from (and bottom symbol right))
(define-presentation-type crossed () :inherit-from (and right left))
(define-presentation-type torn () :inherit-from (and bottom crossed))
(define-presentation-type mixed () :inherit-from (and point weekday left))
(define-presentation-type either () :inherit-from (or left right))
(define-presentation-type folded () :inherit-from (and (and left right) top))
(define-presentation-type again () :inherit-from (and left left))
(define-presentation-type early () :inherit-from (and t left))
(define-presentation-type upward () :inherit-from (and top left))
(define-presentation-type row () :inherit-from (sequence left))
(define-presentation-type reach (low high) :inherit-from (integer low high))
(define-presentation-type at-least (low) :inherit-from (reach low *))
(define-presentation-type deep-1 () :inherit-from integer)
(define-presentation-type deep-2 () :inherit-from deep-1)
(define-presentation-type deep-3 () :inherit-from deep-2)
(define-presentation-type deep-4 () :inherit-from deep-3)
(define-presentation-type deep-5 () :inherit-from deep-4)
(define-presentation-type deep-6 () :inherit-from deep-5)
(define-presentation-type deep-7 () :inherit-from deep-6)
(define-presentation-type deep-8 () :inherit-from deep-7)
";

/// Each type with its precedence list.
const LISTS: [(&str, &str); 32] = [
    ("precedence t", "t"),
    ("precedence nil", "nil t"),
    ("precedence integer", "integer t"),
    ("precedence string", "string t"),
    ("precedence sequence", "sequence t"),
    ("precedence or", "or t"),
    ("precedence and", "and t"),
    ("precedence null-or-type", "null-or-type t"),
    ("precedence command", "command t"),
    ("precedence dialog-choice", "dialog-choice t"),
    ("precedence point", "point t"),
    ("precedence weekday", "weekday integer t"),
    ("precedence digit", "digit integer t"),
    ("precedence bare", "bare t"),
    ("precedence top", "top integer t"),
    ("precedence left", "left top integer t"),
    ("precedence bottom", "bottom left right top integer t"),
    (
        "precedence lower",
        "lower bottom left symbol right top integer t",
    ),
    ("precedence crossed", "crossed right left top integer t"),
    (
        "precedence torn",
        "torn bottom crossed right left top integer t",
    ),
    ("precedence mixed", "mixed point weekday left top integer t"),
    ("precedence either", "either or t"),
    ("precedence folded", "folded and top integer t"),
    ("precedence again", "again left top integer t"),
    ("precedence early", "early left top integer t"),
    ("precedence upward", "upward left top integer t"),
    ("precedence row", "row sequence t"),
    ("precedence reach", "reach integer t"),
    ("precedence at-least", "at-least reach integer t"),
    (
        "precedence deep-8",
        "deep-8 deep-7 deep-6 deep-5 deep-4 deep-3 deep-2 deep-1 integer t",
    ),
    ("precedence nothing", "none"),
    ("precedence month", "none"),
];

#[test]
fn types_have_their_precedence_lists(rt: HostRuntime) -> Result<(), Fail> {
    ask_all(&rt, KINDS, &LISTS)
}
