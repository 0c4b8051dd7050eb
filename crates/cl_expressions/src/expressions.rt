//! The expression that a form is.
ghost use Rattle.std.specs.Prelude.{map};
ghost use Rattle.cl_forms.specs.Datum.{datums_of, word};
ghost use Rattle.cl_forms.specs.DatumView.{datum_of};
ghost use Rattle.cl_expressions.specs.Load.{Gives, itself};
ghost use Rattle.cl_expressions.specs.Scopes.{variables_of};
ghost use Rattle.cl_expressions.specs.Expressions.{parse_each, parse_expression, subs, parse_word, parse_variable, parse_form, parse_headed, parse_head, parse_special, parse_operation, parse_call, parse_slot, parse_slot_name, parse_if};
ghost use Rattle.cl_expressions.specs.ExpressionViews.{terms_in};

use crate::bindings::{parse_filter, parse_fold, parse_let, parse_map};
use crate::notes::Notes;
use crate::readers::Reader;
use crate::records::{parse_get, parse_make, parse_with};
use cl_forms::{Datum, FormRefusal, fits, is_name, named_part};
use cl_syntax::{Expr, Operator};
use cl_value::{Text, Value};
use cl_words::{Head, Special, count_of, head_named};

/// The expression that a datum is. Where a name in it is not declared, the first such is noted.
#[cycle(expression)]
pub fn parse_expression(
    reader: &Reader,
    datum: &Datum,
    notes: &mut Notes,
) -> Result<Expr, FormRefusal>
    ensures { Gives itself result notes.new
        (parse_expression reader.now.signatures.now (datum_of datum.now) (variables_of reader.now.scope.now) notes.old) }
{
    match datum {
        Datum::Number(number, _) => Ok(Expr::constant(Value::Int(*number))),
        Datum::Literal(text, _) => Ok(Expr::constant(Value::Text(text.copy()?))),
        Datum::Quoted(name, _, _) => Ok(Expr::constant(Value::Symbol(name.copy()?))),
        Datum::Word(word, at) => parse_word(reader, word, *at, notes),
        Datum::Stray(at) => Err(FormRefusal::Refused(6, *at)),
        Datum::List(parts, at) => parse_form(reader, *at, parts.as_slice(), notes),
    }
}

fn parse_word(reader: &Reader, word: &Text, at: u32, notes: &mut Notes) -> Result<Expr, FormRefusal>
    ensures { Gives itself result notes.new
        (parse_word word.now at (variables_of reader.now.scope.now) notes.old) }
{
    if word.as_slice() == b"true".as_slice() {
        Ok(Expr::constant(Value::Bool(true)))
    } else if word.as_slice() == b"false".as_slice() {
        Ok(Expr::constant(Value::Bool(false)))
    } else if word.as_slice() == b"null".as_slice() {
        Ok(Expr::constant(Value::Null))
    } else {
        parse_variable(reader, word, at, notes)
    }
}

/// A word that is a name is a variable, which is noted where none of this name is seen.
pub fn parse_variable(
    reader: &Reader,
    word: &Text,
    at: u32,
    notes: &mut Notes,
) -> Result<Expr, FormRefusal>
    ensures { Gives itself result notes.new
        (parse_variable word.now at (variables_of reader.now.scope.now) notes.old) }
{
    if !is_name(word.as_slice()) {
        return Err(FormRefusal::Refused(6, at));
    }
    let name = word.copy()?;
    notes.note(reader.scope.has(word.as_slice()), at);
    Ok(Expr::variable(name))
}

/// A form: a list that begins with a symbol.
#[cycle(expression)]
fn parse_form(
    reader: &Reader,
    at: u32,
    parts: &[Datum],
    notes: &mut Notes,
) -> Result<Expr, FormRefusal>
    ensures { Gives itself result notes.new
        (parse_form reader.now.signatures.now at (subs reader.now.signatures.now (datums_of (map datum_of parts.now)))
        (variables_of reader.now.scope.now) notes.old) }
{
    let Some((head, parts)) = parts.split_first() else {
        return Err(FormRefusal::Refused(6, at));
    };
    match head {
        Datum::Word(head, head_at) => parse_head(reader, head, *head_at, at, parts, notes),
        _ => Err(FormRefusal::Refused(6, at)),
    }
}

#[cycle(expression)]
fn parse_head(
    reader: &Reader,
    head: &Text,
    head_at: u32,
    at: u32,
    parts: &[Datum],
    notes: &mut Notes,
) -> Result<Expr, FormRefusal>
    ensures { Gives itself result notes.new
        (parse_headed reader.now.signatures.now (word head.now head_at) at
        (subs reader.now.signatures.now (datums_of (map datum_of parts.now))) (variables_of reader.now.scope.now)
        notes.old) }
{
    match head_named(head.as_slice()) {
        None => parse_call(reader, head, head_at, at, parts, notes),
        Some(Head::If) => parse_if(reader, at, parts, notes),
        Some(Head::Let) => parse_let(reader, at, parts, notes),
        Some(Head::Special(special)) => parse_special(reader, special, at, parts, notes),
        Some(Head::Operator(operator)) => parse_operation(reader, operator, at, parts, notes),
        Some(_) => Err(FormRefusal::Refused(5, head_at)),
    }
}

#[cycle(expression)]
fn parse_special(
    reader: &Reader,
    special: Special,
    at: u32,
    parts: &[Datum],
    notes: &mut Notes,
) -> Result<Expr, FormRefusal>
    ensures { Gives itself result notes.new
        (parse_special reader.now.signatures.now special at (subs reader.now.signatures.now (datums_of (map datum_of parts.now)))
        (variables_of reader.now.scope.now) notes.old) }
{
    match special {
        Special::Slot => parse_slot(reader, at, parts, notes),
        Special::And => Ok(Expr::every(parse_each(reader, parts, notes)?)),
        Special::Or => Ok(Expr::some(parse_each(reader, parts, notes)?)),
        Special::Make => parse_make(reader, at, parts, notes),
        Special::Get => parse_get(reader, at, parts, notes),
        Special::With => parse_with(reader, at, parts, notes),
        Special::Map => parse_map(reader, at, parts, notes),
        Special::Filter => parse_filter(reader, at, parts, notes),
        Special::Fold => parse_fold(reader, at, parts, notes),
    }
}

/// All parts are expressions.
#[cycle(expression)]
#[tactic(auto, using(cl_forms::proofs::Data::datum_weighs))]
pub fn parse_each(
    reader: &Reader,
    parts: &[Datum],
    notes: &mut Notes,
) -> Result<Vec<Expr>, FormRefusal>
    ensures { Gives terms_in result notes.new
        (parse_each (subs reader.now.signatures.now (datums_of (map datum_of parts.now))) (variables_of reader.now.scope.now)
        notes.old) }
{
    let mut exprs = Vec::new(reader.alloc);
    for part in parts {
        let expr = parse_expression(reader, part, notes)?;
        exprs.push(expr)?;
    }
    Ok(exprs)
}

/// `(if TEST THEN ELSE)`
#[cycle(expression)]
#[tactic(auto, using(crate::proofs::ExpressionCounts::if_counts))]
fn parse_if(
    reader: &Reader,
    at: u32,
    parts: &[Datum],
    notes: &mut Notes,
) -> Result<Expr, FormRefusal>
    ensures { Gives itself result notes.new
        (parse_if at (subs reader.now.signatures.now (datums_of (map datum_of parts.now))) (variables_of reader.now.scope.now)
        notes.old) }
{
    match parts {
        [test, then, other] => {
            let test = parse_expression(reader, test, notes)?;
            let then = parse_expression(reader, then, notes)?;
            let other = parse_expression(reader, other, notes)?;
            Ok(Expr::choice(reader.alloc, test, then, other)?)
        }
        [] => Err(FormRefusal::Refused(6, at)),
        [_] => Err(FormRefusal::Refused(6, at)),
        [_, _] => Err(FormRefusal::Refused(6, at)),
        [_, _, _, _, ..] => Err(FormRefusal::Refused(6, at)),
    }
}

/// `(slot NAME)`
#[tactic(auto, using(crate::proofs::ExpressionCounts::slot_counts))]
pub fn parse_slot(
    reader: &Reader,
    at: u32,
    parts: &[Datum],
    notes: &mut Notes,
) -> Result<Expr, FormRefusal>
    ensures { Gives itself result notes.new
        (parse_slot reader.now.signatures.now at (subs reader.now.signatures.now (datums_of (map datum_of parts.now))) notes.old) }
{
    match parts {
        [name] => parse_slot_name(reader, at, name, notes),
        [] => Err(FormRefusal::Refused(6, at)),
        [_, _, ..] => Err(FormRefusal::Refused(6, at)),
    }
}

fn parse_slot_name(
    reader: &Reader,
    at: u32,
    datum: &Datum,
    notes: &mut Notes,
) -> Result<Expr, FormRefusal>
    ensures { Gives itself result notes.new
        (parse_slot_name reader.now.signatures.now at (datum_of datum.now) notes.old) }
{
    let name = named_part(at, datum)?;
    notes.note(reader.signatures.has_slot(name.as_slice()), datum.offset());
    Ok(Expr::slot(name))
}

/// An operator over the values of its parts.
#[cycle(expression)]
#[tactic(auto, using(crate::proofs::Subs::subs_counted))]
fn parse_operation(
    reader: &Reader,
    operator: Operator,
    at: u32,
    parts: &[Datum],
    notes: &mut Notes,
) -> Result<Expr, FormRefusal>
    ensures { Gives itself result notes.new
        (parse_operation operator at (subs reader.now.signatures.now (datums_of (map datum_of parts.now)))
        (variables_of reader.now.scope.now) notes.old) }
{
    if !fits(count_of(&operator), parts.len()) {
        return Err(FormRefusal::Refused(6, at));
    }
    let exprs = parse_each(reader, parts, notes)?;
    Ok(Expr::operation(operator, exprs))
}

/// `(FUNCTION E ...)`
#[cycle(expression)]
#[tactic(auto, using(crate::proofs::Subs::subs_counted))]
fn parse_call(
    reader: &Reader,
    head: &Text,
    head_at: u32,
    at: u32,
    parts: &[Datum],
    notes: &mut Notes,
) -> Result<Expr, FormRefusal>
    ensures { Gives itself result notes.new
        (parse_call reader.now.signatures.now head.now head_at at
        (subs reader.now.signatures.now (datums_of (map datum_of parts.now))) (variables_of reader.now.scope.now)
        notes.old) }
{
    let Some(count) = reader.signatures.function(head.as_slice()) else {
        return Err(FormRefusal::Refused(5, head_at));
    };
    if !fits(count, parts.len()) {
        return Err(FormRefusal::Refused(6, at));
    }
    let exprs = parse_each(reader, parts, notes)?;
    Ok(Expr::call(head.copy()?, exprs))
}
