//! Forms that choose, repeat and bind, and bodies, as display forms and statements both have them.
ghost use Rattle.std.specs.Prelude.{◌≡◌, ◌++◌, ◌∷◌, [], List, IfOk, OnOk, drop, map};
ghost use Rattle.cl_forms.specs.Datum.{datums_of, word};
ghost use Rattle.cl_forms.specs.DatumView.{datum_of};
ghost use Rattle.cl_expressions.specs.Load.{Gives, itself};
ghost use Rattle.cl_expressions.specs.Scopes.{variables_of};
ghost use Rattle.cl_expressions.specs.Expressions.{subs};
ghost use Rattle.cl_bodies.specs.Bodies.{parse_form, parse_body, parts_in, parse_listed, parse_headed, parse_control, parse_if, parse_then, parse_else, parse_when, parse_let, parse_dolist, parse_dolist_body, parse_progn, parse_own, finished, parse_closed};

use crate::languages::Language;
use crate::own::Own;
use cl_expressions::{
    Notes, Reader, Scope, is_binding_list, parse_binding, parse_bindings, parse_expression,
};
use cl_forms::{Datum, FormRefusal};
use cl_syntax::{Binding, Expr};
use cl_value::Text;
use cl_words::{Control, Head, head_named};
use std::alloc::{AllocError, Global};

/// The test of an `if` and the form where it holds.
#[derive(Drop)]
struct Opening<F> {
    test: Expr,
    first: F,
}

/// The form that a datum is. Where a name in it is not declared, the first such is noted.
#[cycle(body)]
pub fn parse_form<L: Language>(
    reader: &Reader,
    context: L::Context,
    datum: &Datum,
    notes: &mut Notes,
) -> Result<L, FormRefusal>
    ensures { Gives itself result notes.new
        (parse_form L.rows reader.now.signatures.now context (datum_of datum.now) (variables_of reader.now.scope.now) notes.old) }
{
    match datum {
        Datum::List(parts, at) => parse_listed(reader, context, *at, parts.as_slice(), notes),
        Datum::Number(_, at) => Err(FormRefusal::Refused(6, *at)),
        Datum::Literal(_, at) => Err(FormRefusal::Refused(6, *at)),
        Datum::Word(_, at) => Err(FormRefusal::Refused(6, *at)),
        Datum::Quoted(_, at, _) => Err(FormRefusal::Refused(6, *at)),
        Datum::Stray(at) => Err(FormRefusal::Refused(6, *at)),
    }
}

/// The forms of a body, in order.
#[cycle(body)]
#[tactic(auto, using(cl_forms::proofs::Data::datum_weighs))]
pub fn parse_body<L: Language>(
    reader: &Reader,
    context: L::Context,
    parts: &[Datum],
    notes: &mut Notes,
) -> Result<L::Body, FormRefusal>
    ensures { Gives L.items result notes.new
        (parse_body L.rows reader.now.signatures.now context (datums_of (map datum_of parts.now)) (variables_of reader.now.scope.now)
        notes.old) }
{
    let mut body = L::empty(reader.alloc);
    for part in parts {
        let form = parse_form::<L>(reader, context, part, notes)?;
        L::push(&mut body, form)?;
    }
    Ok(body)
}

/// A form: a list that begins with a symbol.
#[cycle(body)]
fn parse_listed<L: Language>(
    reader: &Reader,
    context: L::Context,
    at: u32,
    parts: &[Datum],
    notes: &mut Notes,
) -> Result<L, FormRefusal>
    ensures { Gives itself result notes.new
        (parse_listed L.rows reader.now.signatures.now context at
        (parts_in L.rows reader.now.signatures.now (datums_of (map datum_of parts.now)))
        (variables_of reader.now.scope.now) notes.old) }
{
    let Some((head, parts)) = parts.split_first() else {
        return Err(FormRefusal::Refused(6, at));
    };
    match head {
        Datum::Word(head, head_at) => parse_head(reader, context, head, *head_at, at, parts, notes),
        _ => Err(FormRefusal::Refused(6, at)),
    }
}

#[cycle(body)]
#[tactic(auto, using(crate::proofs::BodyCounts::parts_subs))]
fn parse_head<L: Language>(
    reader: &Reader,
    context: L::Context,
    head: &Text,
    head_at: u32,
    at: u32,
    parts: &[Datum],
    notes: &mut Notes,
) -> Result<L, FormRefusal>
    ensures { Gives itself result notes.new
        (parse_headed L.rows reader.now.signatures.now context (word head.now head_at) at
        (parts_in L.rows reader.now.signatures.now (datums_of (map datum_of parts.now)))
        (variables_of reader.now.scope.now) notes.old) }
{
    match head_named(head.as_slice()) {
        None => L::parse_call(reader, head, head_at, at, parts, notes),
        Some(Head::If) => parse_if(reader, context, at, parts, notes),
        Some(Head::Let) => parse_let(reader, context, at, parts, notes),
        Some(Head::Control(control)) => parse_control(reader, context, control, at, parts, notes),
        Some(own) => parse_own(reader, context, own, head_at, at, parts, notes),
    }
}

#[cycle(body)]
fn parse_control<L: Language>(
    reader: &Reader,
    context: L::Context,
    control: Control,
    at: u32,
    parts: &[Datum],
    notes: &mut Notes,
) -> Result<L, FormRefusal>
    ensures { Gives itself result notes.new
        (parse_control L.rows reader.now.signatures.now context control at
        (parts_in L.rows reader.now.signatures.now (datums_of (map datum_of parts.now)))
        (variables_of reader.now.scope.now) notes.old) }
{
    match control {
        Control::When => parse_when(reader, context, at, parts, notes),
        Control::Dolist => parse_dolist(reader, context, at, parts, notes),
        Control::Progn => Ok(L::sequence(parse_body::<L>(reader, context, parts, notes)?)),
    }
}

/// `(if TEST THEN ELSE)`
#[cycle(body)]
#[tactic(auto, using(crate::proofs::BodyCounts::if_counts))]
fn parse_if<L: Language>(
    reader: &Reader,
    context: L::Context,
    at: u32,
    parts: &[Datum],
    notes: &mut Notes,
) -> Result<L, FormRefusal>
    ensures { Gives itself result notes.new
        (parse_if L.rows context at (parts_in L.rows reader.now.signatures.now (datums_of (map datum_of parts.now)))
        (variables_of reader.now.scope.now) notes.old) }
{
    match parts {
        [test, first, other] => {
            let test = parse_expression(reader, test, notes)?;
            parse_then(reader, context, test, first, other, notes)
        }
        [] => Err(FormRefusal::Refused(6, at)),
        [_] => Err(FormRefusal::Refused(6, at)),
        [_, _] => Err(FormRefusal::Refused(6, at)),
        [_, _, _, _, ..] => Err(FormRefusal::Refused(6, at)),
    }
}

#[cycle(body)]
fn parse_then<L: Language>(
    reader: &Reader,
    context: L::Context,
    test: Expr,
    first: &Datum,
    other: &Datum,
    notes: &mut Notes,
) -> Result<L, FormRefusal>
    ensures { Gives itself result notes.new
        (parse_then L.rows test
        (parse_form L.rows reader.now.signatures.now context (datum_of first.now) (variables_of reader.now.scope.now))
        (parse_form L.rows reader.now.signatures.now context (datum_of other.now) (variables_of reader.now.scope.now)) notes.old) }
{
    let first = parse_form::<L>(reader, context, first, notes)?;
    let opening = Opening { test, first };
    parse_else(reader, context, opening, other, notes)
}

#[cycle(body)]
fn parse_else<L: Language>(
    reader: &Reader,
    context: L::Context,
    opening: Opening<L>,
    other: &Datum,
    notes: &mut Notes,
) -> Result<L, FormRefusal>
    ensures { Gives itself result notes.new
        (parse_else L.rows opening.test opening.first
        (parse_form L.rows reader.now.signatures.now context (datum_of other.now) (variables_of reader.now.scope.now)) notes.old) }
{
    let other = parse_form::<L>(reader, context, other, notes)?;
    Ok(choice_of(reader.alloc, opening, other)?)
}

fn choice_of<L: Language>(alloc: Global, opening: Opening<L>, other: L) -> Result<L, AllocError>
    ensures { IfOk result (λ f. f ≡ L.rows.choice opening.test opening.first other) }
{
    let Opening { test, first } = opening;
    L::choice(alloc, test, first, other)
}

/// `(when TEST FORM ...)`
#[cycle(body)]
fn parse_when<L: Language>(
    reader: &Reader,
    context: L::Context,
    at: u32,
    parts: &[Datum],
    notes: &mut Notes,
) -> Result<L, FormRefusal>
    ensures { Gives itself result notes.new
        (parse_when L.rows context at (parts_in L.rows reader.now.signatures.now (datums_of (map datum_of parts.now)))
        (variables_of reader.now.scope.now) notes.old) }
{
    let Some((test, body)) = parts.split_first() else {
        return Err(FormRefusal::Refused(6, at));
    };
    let test = parse_expression(reader, test, notes)?;
    let body = parse_body::<L>(reader, context, body, notes)?;
    Ok(L::when(test, body))
}

/// `(let ((NAME E) ...) FORM ...)`: each binding sees the earlier ones.
#[cycle(body)]
fn parse_let<L: Language>(
    reader: &Reader,
    context: L::Context,
    at: u32,
    parts: &[Datum],
    notes: &mut Notes,
) -> Result<L, FormRefusal>
    ensures { Gives itself result notes.new
        (parse_let L.rows context at (parts_in L.rows reader.now.signatures.now (datums_of (map datum_of parts.now)))
        (variables_of reader.now.scope.now) notes.old) }
{
    let Some((bindings, body)) = parts.split_first() else {
        return Err(FormRefusal::Refused(6, at));
    };
    if !is_binding_list(bindings) {
        return Err(FormRefusal::Refused(6, at));
    }
    let bound = parse_bindings(reader, at, bindings, notes)?;
    let inner = Scope::Names(bound.names.as_slice(), reader.scope);
    let inside = Reader {
        alloc: reader.alloc,
        signatures: reader.signatures,
        scope: &inner,
    };
    let body = parse_body::<L>(&inside, context, body, notes)?;
    Ok(L::bind(bound.bindings, body))
}

/// `(dolist (NAME LIST) FORM ...)`
#[cycle(body)]
fn parse_dolist<L: Language>(
    reader: &Reader,
    context: L::Context,
    at: u32,
    parts: &[Datum],
    notes: &mut Notes,
) -> Result<L, FormRefusal>
    ensures { Gives itself result notes.new
        (parse_dolist L.rows reader.now.signatures.now context at
        (parts_in L.rows reader.now.signatures.now (datums_of (map datum_of parts.now)))
        (variables_of reader.now.scope.now) notes.old) }
{
    let Some((binding, body)) = parts.split_first() else {
        return Err(FormRefusal::Refused(6, at));
    };
    let binding = parse_binding(reader, at, binding, notes)?;
    parse_dolist_body(reader, context, binding, body, notes)
}

#[cycle(body)]
fn parse_dolist_body<L: Language>(
    reader: &Reader,
    context: L::Context,
    binding: Binding,
    body: &[Datum],
    notes: &mut Notes,
) -> Result<L, FormRefusal>
    ensures { Gives itself result notes.new
        (parse_dolist_body L.rows context binding.name binding.value
        (parts_in L.rows reader.now.signatures.now (datums_of (map datum_of body.now))) (variables_of reader.now.scope.now)
        notes.old) }
{
    let Binding { name, value } = binding;
    let inner = Scope::One(&name, reader.scope);
    let inside = Reader {
        alloc: reader.alloc,
        signatures: reader.signatures,
        scope: &inner,
    };
    let body = parse_body::<L>(&inside, context, body, notes)?;
    Ok(L::each(name, value, body))
}

/// A form of the language's own.
#[cycle(body)]
#[tactic(auto, using(crate::proofs::BodyCounts::parts_subs, crate::proofs::BodyCounts::parts_behind, crate::proofs::BodyCounts::behind_weighs))]
fn parse_own<L: Language>(
    reader: &Reader,
    context: L::Context,
    head: Head,
    head_at: u32,
    at: u32,
    parts: &[Datum],
    notes: &mut Notes,
) -> Result<L, FormRefusal>
    ensures { Gives itself result notes.new
        (parse_own L.rows reader.now.signatures.now context head head_at at
        (parts_in L.rows reader.now.signatures.now (datums_of (map datum_of parts.now)))
        (variables_of reader.now.scope.now) notes.old) }
{
    match L::parse_own(reader, context, head, head_at, at, parts, notes)? {
        Own::Whole(form) => Ok(form),
        Own::Before(opening, count, inside) => {
            parse_closed(reader, inside, opening, behind(parts, count), notes)
        }
    }
}

#[cycle(body)]
fn parse_closed<L: Language>(
    reader: &Reader,
    context: L::Context,
    opening: L::Opening,
    body: &[Datum],
    notes: &mut Notes,
) -> Result<L, FormRefusal>
    ensures { Gives itself result notes.new
        (parse_closed L.rows context opening (parts_in L.rows reader.now.signatures.now (datums_of (map datum_of body.now)))
        (variables_of reader.now.scope.now) notes.old) }
{
    let body = parse_body::<L>(reader, context, body, notes)?;
    Ok(L::closed(opening, body))
}

/// What stands behind so many parts.
fn behind(parts: &[Datum], count: usize) -> &[Datum]
    ensures { result.now ≡ drop count parts.now }
{
    if count < parts.len() {
        &parts[count..]
    } else {
        &[]
    }
}
