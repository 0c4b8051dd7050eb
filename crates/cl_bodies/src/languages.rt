//! The languages of forms that have bodies: display forms and statements.
ghost use Rattle.std.specs.Prelude.{◌≡◌, ◌++◌, ◌∷◌, [], List, IfOk, OnOk, map};
ghost use Rattle.cl_forms.specs.Datum.{datums_of};
ghost use Rattle.cl_forms.specs.DatumView.{datum_of};
ghost use Rattle.cl_expressions.specs.Load.{Gives, itself};
ghost use Rattle.cl_expressions.specs.Scopes.{variables_of};
ghost use Rattle.cl_expressions.specs.Expressions.{subs};

use crate::own::Own;
use cl_expressions::{Notes, Reader};
use cl_forms::{Datum, FormRefusal};
use cl_syntax::{Binding, Expr};
use cl_value::Text;
use cl_words::Head;
use std::alloc::{AllocError, Global};

/// A language of forms. It makes the forms that all languages share, and reads its own forms but for
/// their bodies.
pub trait Language: Sized + Drop {
    ghost use Rattle.cl_bodies.specs.Bodies.{Language as Rows};

    /// Forms in order.
    type Body: Drop;
    /// What stands before the body in a form of its own.
    type Opening: Drop;
    /// In what a form of the language stands.
    type Context: Copy;

    /// How each form is made of its parts.
    ghost rows: { Rows Self Self.Opening Self.Context };

    ghost items: { Self.Body → List Self };

    /// `(if TEST THEN ELSE)`
    fn choice(alloc: Global, test: Expr, first: Self, other: Self) -> Result<Self, AllocError>
        ensures { IfOk result (λ f. f ≡ rows.choice test first other) };

    /// `(when TEST FORM ...)`
    fn when(test: Expr, body: Self::Body) -> Self
        ensures { result ≡ rows.when test (items body) };

    /// `(let ((NAME E) ...) FORM ...)`
    fn bind(bindings: Vec<Binding>, body: Self::Body) -> Self
        ensures { result ≡ rows.bind bindings.items (items body) };

    /// `(dolist (NAME LIST) FORM ...)`
    fn each(name: Text, list: Expr, body: Self::Body) -> Self
        ensures { result ≡ rows.each name list (items body) };

    /// `(progn FORM ...)`
    fn sequence(body: Self::Body) -> Self
        ensures { result ≡ rows.sequence (items body) };

    /// No forms.
    fn empty(alloc: Global) -> Self::Body
        ensures { items result ≡ [] };

    /// Puts a form behind the others.
    fn push(body: &mut Self::Body, form: Self) -> Result<(), AllocError>
        ensures { OnOk result (items body.new ≡ items body.old ++ form ∷ []) };

    /// A form whose head is a fixed one, and none of those that all languages share.
    fn parse_own(
        reader: &Reader,
        context: Self::Context,
        head: Head,
        head_at: u32,
        at: u32,
        parts: &[Datum],
        notes: &mut Notes,
    ) -> Result<Own<Self, Self::Opening, Self::Context>, FormRefusal>
        ensures { Gives itself result notes.new
            (rows.own reader.now.signatures.now context head head_at at
            (subs reader.now.signatures.now (datums_of (map datum_of parts.now))) (variables_of reader.now.scope.now)
            notes.old) };

    /// A form whose head is no fixed one.
    fn parse_call(
        reader: &Reader,
        head: &Text,
        head_at: u32,
        at: u32,
        parts: &[Datum],
        notes: &mut Notes,
    ) -> Result<Self, FormRefusal>
        ensures { Gives itself result notes.new
            (rows.call reader.now.signatures.now head.now head_at at
            (subs reader.now.signatures.now (datums_of (map datum_of parts.now)))
            (variables_of reader.now.scope.now) notes.old) };

    /// A form of its own with its body.
    fn closed(opening: Self::Opening, body: Self::Body) -> Self
        ensures { result ≡ rows.closed opening (items body) };
}
