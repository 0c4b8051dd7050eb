//! What the questions are asked of, and how.
use crate::{answer_of, data_in_text, question_in, types_of};
use cl_forms::FormRefusal;
use cl_lattice::Lattice;
use std::alloc::Global;
use std::process::Abort;
use std::test::Fail;

/// The types of the questions. Functions are here for other readers of the text; `NamedPredicates` has them by name.
pub const TYPES: &str = "(define-record point x y)
(define-record span from to)
(define-host-type weekday)
(define-host-type month)
(define-function positive (n) (> n 0))
(define-function between (n low high) (and (or (is-null low) (<= low n)) (or (is-null high) (<= n high))))
(define-function anything (v) true)
(define-function fails (v) (= (div 1 0) 0))
(define-presentation-type digit () :inherit-from (integer 0 9))
(define-presentation-type reach (low high) :inherit-from (integer low high))
(define-presentation-type at-least (low) :inherit-from (reach low *))
(define-presentation-type turned (high low) :inherit-from (reach low high))
(define-presentation-type counted () :inherit-from integer :satisfies positive)
(define-presentation-type within (low high) :inherit-from integer :satisfies between)
(define-presentation-type never () :satisfies fails)
(define-presentation-type whatever () :satisfies anything)
(define-presentation-type bare ())
(define-presentation-type one-of (a b) :inherit-from (member a b))
(define-presentation-type some-of (a b) :inherit-from (subset a b))
(define-presentation-type word-of (n) :inherit-from (string n))
(define-presentation-type row-of (low high) :inherit-from (sequence (reach low high)))
(define-presentation-type choice (a) :inherit-from (or (member a) digit))
(define-presentation-type both () :inherit-from (and digit (member 3 5 12)))
(define-presentation-type perhaps () :inherit-from (null-or-type digit))
(define-presentation-type amount () :inherit-from (token-or-type (all none) digit))
(define-presentation-type twice-asked () :inherit-from (and counted (within * 5)))
(define-command com-clear () (reply \"clear\"))
(define-command com-add ((n digit)) (reply \"add\"))
(define-command com-move ((from point) (to (null-or-type point))) (reply \"move\"))
(define-command com-all ((each (sequence command))) (reply \"all\"))
(define-command com-pick ((n (or (within 3 5) (member red)))) (reply \"pick\"))
";

fn types_in(alloc: Global, text: &str) -> Result<Lattice, FormRefusal> {
    let data = data_in_text(alloc, text.as_bytes())?;
    types_of(alloc, data.as_slice())
}

fn asked(alloc: Global, lattice: &Lattice, question: &str) -> Result<String, FormRefusal> {
    let data = data_in_text(alloc, question.as_bytes())?;
    let question = question_in(alloc, data.as_slice())?;
    Ok(answer_of(alloc, lattice, &question)?)
}

/// Asks each question of the types that a text declares.
pub fn ask_all(
    rt: &(impl Abort + AllocGlobal),
    declared: &str,
    questions: &[(&str, &str)],
) -> Result<(), Fail> {
    let lattice = types_in(rt.alloc(), declared)?;
    for (question, wanted) in questions {
        let answer = asked(rt.alloc(), &lattice, question)?;
        assert_eq!(rt; answer.as_str(), *wanted, "{question}");
    }
    Ok(())
}

// What comes of the types that a text declares, in words.
fn built(alloc: Global, text: &str) -> Result<String, Fail> {
    match types_in(alloc, text) {
        Ok(_) => Ok(format!(in alloc; "built")?),
        Err(FormRefusal::Refused(9, at)) => Ok(format!(in alloc; "cycle {at}")?),
        Err(FormRefusal::Refused(13, at)) => Ok(format!(in alloc; "large {at}")?),
        Err(refusal) => Err(refusal.into()),
    }
}

/// Builds the types of each text.
pub fn build_all(rt: &(impl Abort + AllocGlobal), texts: &[(&str, &str)]) -> Result<(), Fail> {
    for (text, wanted) in texts {
        let answer = built(rt.alloc(), text)?;
        assert_eq!(rt; answer.as_str(), *wanted, "{text}");
    }
    Ok(())
}
