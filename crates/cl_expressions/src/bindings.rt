//! The bindings of a form.
ghost use Rattle.std.specs.Prelude.{◌≡◌, map};
ghost use Rattle.cl_forms.specs.Datum.{datums_of};
ghost use Rattle.cl_forms.specs.DatumView.{datum_of};
ghost use Rattle.cl_expressions.specs.Load.{Gives, itself};
ghost use Rattle.cl_expressions.specs.Scopes.{variables_of};
ghost use Rattle.cl_expressions.specs.Expressions.{are_bindings, parse_binding, parse_binding_parts, parse_each_binding, parse_bindings, parse_filter, parse_fold, is_binding, is_binding_list, parse_let, parse_map, subs};
ghost use Rattle.cl_expressions.specs.ExpressionViews.{bound_of};

use crate::expressions::parse_expression;
use crate::notes::Notes;
use crate::readers::Reader;
use crate::scopes::Scope;
use cl_forms::{Datum, FormRefusal, name_in, named_part};
use cl_syntax::{Binding, Expr};
use cl_value::Text;

/// Bindings in order, and the names that they bind.
#[derive(Drop)]
pub struct Bindings {
    pub bindings: Vec<Binding>,
    pub names: Vec<Text>,
}

/// The bindings that a datum is, in the form at this offset; each sees the earlier ones.
#[cycle(expression)]
pub fn parse_bindings(
    reader: &Reader,
    at: u32,
    datum: &Datum,
    notes: &mut Notes,
) -> Result<Bindings, FormRefusal>
    ensures { Gives (bound_of (variables_of reader.now.scope.now)) result notes.new
        (parse_bindings reader.now.signatures.now (datum_of datum.now) at (variables_of reader.now.scope.now) notes.old) }
{
    match datum {
        Datum::List(parts, _) => parse_each_binding(reader, at, parts.as_slice(), notes),
        _ => Err(FormRefusal::Refused(6, at)),
    }
}

#[cycle(expression)]
#[tactic(auto, using(cl_forms::proofs::Data::datum_weighs, crate::proofs::ScopeLemmas::sight_more))]
fn parse_each_binding(
    reader: &Reader,
    at: u32,
    parts: &[Datum],
    notes: &mut Notes,
) -> Result<Bindings, FormRefusal>
    ensures { Gives (bound_of (variables_of reader.now.scope.now)) result notes.new
        (parse_each_binding reader.now.signatures.now (datums_of (map datum_of parts.now)) at (variables_of reader.now.scope.now)
        notes.old) }
{
    let mut bindings = Vec::new(reader.alloc);
    let mut names = Vec::new(reader.alloc);
    for part in parts {
        let inner = Scope::Names(names.as_slice(), reader.scope);
        let binding = parse_binding(&reader.seeing(&inner), at, part, notes)?;
        names.push(binding.name.copy()?)?;
        bindings.push(binding)?;
    }
    Ok(Bindings { bindings, names })
}

/// `(NAME E)`
#[cycle(expression)]
pub fn parse_binding(
    reader: &Reader,
    at: u32,
    datum: &Datum,
    notes: &mut Notes,
) -> Result<Binding, FormRefusal>
    ensures { Gives itself result notes.new
        (parse_binding reader.now.signatures.now (datum_of datum.now) at (variables_of reader.now.scope.now) notes.old) }
{
    match datum {
        Datum::List(parts, _) => parse_binding_parts(reader, at, parts.as_slice(), notes),
        _ => Err(FormRefusal::Refused(6, at)),
    }
}

#[cycle(expression)]
#[tactic(auto, using(crate::proofs::ExpressionCounts::binding_counts))]
fn parse_binding_parts(
    reader: &Reader,
    at: u32,
    parts: &[Datum],
    notes: &mut Notes,
) -> Result<Binding, FormRefusal>
    ensures { Gives itself result notes.new
        (parse_binding_parts at (subs reader.now.signatures.now (datums_of (map datum_of parts.now)))
        (variables_of reader.now.scope.now) notes.old) }
{
    match parts {
        [name, value] => {
            let name = named_part(at, name)?;
            let value = parse_expression(reader, value, notes)?;
            Ok(Binding { name, value })
        }
        [] => Err(FormRefusal::Refused(6, at)),
        [_] => Err(FormRefusal::Refused(6, at)),
        [_, _, _, ..] => Err(FormRefusal::Refused(6, at)),
    }
}

/// `(map NAME LIST BODY)`
#[cycle(expression)]
#[tactic(auto, using(crate::proofs::ExpressionCounts::map_counts))]
pub fn parse_map(
    reader: &Reader,
    at: u32,
    parts: &[Datum],
    notes: &mut Notes,
) -> Result<Expr, FormRefusal>
    ensures { Gives itself result notes.new
        (parse_map at (subs reader.now.signatures.now (datums_of (map datum_of parts.now))) (variables_of reader.now.scope.now)
        notes.old) }
{
    match parts {
        [name, list, body] => {
            let name = named_part(at, name)?;
            let list = parse_expression(reader, list, notes)?;
            let inner = Scope::One(&name, reader.scope);
            let body = parse_expression(&reader.seeing(&inner), body, notes)?;
            Ok(Expr::map(reader.alloc, name, list, body)?)
        }
        [] => Err(FormRefusal::Refused(6, at)),
        [_] => Err(FormRefusal::Refused(6, at)),
        [_, _] => Err(FormRefusal::Refused(6, at)),
        [_, _, _, _, ..] => Err(FormRefusal::Refused(6, at)),
    }
}

/// `(filter NAME LIST BODY)`
#[cycle(expression)]
#[tactic(auto, using(crate::proofs::ExpressionCounts::filter_counts))]
pub fn parse_filter(
    reader: &Reader,
    at: u32,
    parts: &[Datum],
    notes: &mut Notes,
) -> Result<Expr, FormRefusal>
    ensures { Gives itself result notes.new
        (parse_filter at (subs reader.now.signatures.now (datums_of (map datum_of parts.now)))
        (variables_of reader.now.scope.now) notes.old) }
{
    match parts {
        [name, list, body] => {
            let name = named_part(at, name)?;
            let list = parse_expression(reader, list, notes)?;
            let inner = Scope::One(&name, reader.scope);
            let body = parse_expression(&reader.seeing(&inner), body, notes)?;
            Ok(Expr::filter(reader.alloc, name, list, body)?)
        }
        [] => Err(FormRefusal::Refused(6, at)),
        [_] => Err(FormRefusal::Refused(6, at)),
        [_, _] => Err(FormRefusal::Refused(6, at)),
        [_, _, _, _, ..] => Err(FormRefusal::Refused(6, at)),
    }
}

/// `(fold NAME LIST ACCUMULATOR OPENING BODY)`
#[cycle(expression)]
#[tactic(auto, using(crate::proofs::ExpressionCounts::fold_counts))]
pub fn parse_fold(
    reader: &Reader,
    at: u32,
    parts: &[Datum],
    notes: &mut Notes,
) -> Result<Expr, FormRefusal>
    ensures { Gives itself result notes.new
        (parse_fold at (subs reader.now.signatures.now (datums_of (map datum_of parts.now))) (variables_of reader.now.scope.now)
        notes.old) }
{
    match parts {
        [name, list, accumulator, opening, body] => {
            let name = named_part(at, name)?;
            let accumulator = named_part(at, accumulator)?;
            let list = parse_expression(reader, list, notes)?;
            let opening = parse_expression(reader, opening, notes)?;
            let element = Scope::One(&name, reader.scope);
            let inner = Scope::One(&accumulator, &element);
            let body = parse_expression(&reader.seeing(&inner), body, notes)?;
            Ok(Expr::fold(reader.alloc, name, list, accumulator, opening, body)?)
        }
        [] => Err(FormRefusal::Refused(6, at)),
        [_] => Err(FormRefusal::Refused(6, at)),
        [_, _] => Err(FormRefusal::Refused(6, at)),
        [_, _, _] => Err(FormRefusal::Refused(6, at)),
        [_, _, _, _] => Err(FormRefusal::Refused(6, at)),
        [_, _, _, _, _, _, ..] => Err(FormRefusal::Refused(6, at)),
    }
}

/// `(let ((NAME E) ...) BODY)`: each binding sees the earlier ones.
#[cycle(expression)]
#[tactic(auto, using(crate::proofs::ExpressionCounts::let_counts))]
pub fn parse_let(
    reader: &Reader,
    at: u32,
    parts: &[Datum],
    notes: &mut Notes,
) -> Result<Expr, FormRefusal>
    ensures { Gives itself result notes.new
        (parse_let at (subs reader.now.signatures.now (datums_of (map datum_of parts.now))) (variables_of reader.now.scope.now)
        notes.old) }
{
    match parts {
        [bindings, body] => {
            if !is_binding_list(bindings) {
                return Err(FormRefusal::Refused(6, at));
            }
            let bound = parse_bindings(reader, at, bindings, notes)?;
            let inner = Scope::Names(bound.names.as_slice(), reader.scope);
            let body = parse_expression(&reader.seeing(&inner), body, notes)?;
            Ok(Expr::bind(reader.alloc, bound.bindings, body)?)
        }
        [] => Err(FormRefusal::Refused(6, at)),
        [_] => Err(FormRefusal::Refused(6, at)),
        [_, _, _, ..] => Err(FormRefusal::Refused(6, at)),
    }
}

/// Whether a datum is a list of parts `(NAME E)`.
#[tactic(auto, using(cl_forms::proofs::Data::data_in_order))]
pub fn is_binding_list(datum: &Datum) -> bool
    ensures { result ≡ is_binding_list (datum_of datum.now) }
{
    match datum {
        Datum::List(parts, _) => are_bindings(parts.as_slice()),
        _ => false,
    }
}

fn are_bindings(parts: &[Datum]) -> bool
    ensures { result ≡ are_bindings (map datum_of parts.now) }
{
    for part in parts {
        if !is_binding(part.parts()) {
            return false;
        }
    }
    true
}

/// Whether these are the parts of `(NAME E)`.
#[tactic(auto, using(crate::proofs::ExpressionCounts::is_binding_counts))]
pub fn is_binding(parts: &[Datum]) -> bool
    ensures { result ≡ is_binding (map datum_of parts.now) }
{
    match parts {
        [name, _] => name_in(name).is_some(),
        [] => false,
        [_] => false,
        [_, _, _, ..] => false,
    }
}
