//! The expressions that make, read and change records.
ghost use Rattle.std.specs.Prelude.{◌≡◌, ◌∷◌, [], IfOk, map};
ghost use Rattle.cl_syntax.specs.ExprTree.{Operation, expr_trees_of};
ghost use Rattle.cl_syntax.specs.declared.operators.Operator.TheVariants as operator;
ghost use Rattle.cl_syntax.specs.declared.operators.RecordOperator.TheVariants.{Get, With};
ghost use Rattle.cl_words.specs.Signatures.{record_in};
ghost use Rattle.cl_forms.specs.Datum.{datums_of};
ghost use Rattle.cl_forms.specs.DatumView.{datum_of};
ghost use Rattle.cl_expressions.specs.Load.{Gives, itself};
ghost use Rattle.cl_expressions.specs.Scopes.{variables_of};
ghost use Rattle.cl_expressions.specs.Expressions.{subs, parse_make, parse_make_fields, parse_make_parts, parse_get, parse_with};

use crate::expressions::{parse_each, parse_expression};
use crate::notes::Notes;
use crate::readers::Reader;
use cl_forms::{Datum, FormRefusal, fits, named_part};
use cl_syntax::{Expr, Operator, RecordOperator};
use cl_value::Text;
use std::alloc::{AllocError, Global};

/// `(make RECORD E ...)`, one part for each field.
#[cycle(expression)]
pub fn parse_make(
    reader: &Reader,
    at: u32,
    parts: &[Datum],
    notes: &mut Notes,
) -> Result<Expr, FormRefusal>
    ensures { Gives itself result notes.new
        (parse_make reader.now.signatures.now at (subs reader.now.signatures.now (datums_of (map datum_of parts.now)))
        (variables_of reader.now.scope.now) notes.old) }
{
    let Some((datum, parts)) = parts.split_first() else {
        return Err(FormRefusal::Refused(6, at));
    };
    let name = named_part(at, datum)?;
    parse_make_fields(reader, name, datum.offset(), at, parts, notes)
}

#[cycle(expression)]
#[tactic(auto, using(crate::proofs::Subs::subs_counted))]
fn parse_make_fields(
    reader: &Reader,
    name: Text,
    name_at: u32,
    at: u32,
    parts: &[Datum],
    notes: &mut Notes,
) -> Result<Expr, FormRefusal>
    ensures { Gives itself result notes.new
        (parse_make_fields (record_in reader.now.signatures.now name) name name_at at
        (subs reader.now.signatures.now (datums_of (map datum_of parts.now))) (variables_of reader.now.scope.now)
        notes.old) }
{
    match reader.signatures.record_fields(name.as_slice()) {
        Some(count) => {
            if !fits(count, parts.len()) {
                return Err(FormRefusal::Refused(6, at));
            }
        }
        None => notes.note(false, name_at),
    }
    parse_make_parts(reader, name, parts, notes)
}

#[cycle(expression)]
fn parse_make_parts(
    reader: &Reader,
    name: Text,
    parts: &[Datum],
    notes: &mut Notes,
) -> Result<Expr, FormRefusal>
    ensures { Gives itself result notes.new
        (parse_make_parts name (subs reader.now.signatures.now (datums_of (map datum_of parts.now))) (variables_of reader.now.scope.now)
        notes.old) }
{
    let exprs = parse_each(reader, parts, notes)?;
    Ok(Expr::operation(Operator::Record(RecordOperator::Make(name)), exprs))
}

/// `(get E FIELD)`
#[cycle(expression)]
#[tactic(auto, using(crate::proofs::ExpressionCounts::get_counts))]
pub fn parse_get(
    reader: &Reader,
    at: u32,
    parts: &[Datum],
    notes: &mut Notes,
) -> Result<Expr, FormRefusal>
    ensures { Gives itself result notes.new
        (parse_get at (subs reader.now.signatures.now (datums_of (map datum_of parts.now))) (variables_of reader.now.scope.now)
        notes.old) }
{
    match parts {
        [record, field] => {
            let field = named_part(at, field)?;
            let record = parse_expression(reader, record, notes)?;
            Ok(get_of(reader.alloc, field, record)?)
        }
        [] => Err(FormRefusal::Refused(6, at)),
        [_] => Err(FormRefusal::Refused(6, at)),
        [_, _, _, ..] => Err(FormRefusal::Refused(6, at)),
    }
}

/// `(with E FIELD E)`
#[cycle(expression)]
#[tactic(auto, using(crate::proofs::ExpressionCounts::with_counts))]
pub fn parse_with(
    reader: &Reader,
    at: u32,
    parts: &[Datum],
    notes: &mut Notes,
) -> Result<Expr, FormRefusal>
    ensures { Gives itself result notes.new
        (parse_with at (subs reader.now.signatures.now (datums_of (map datum_of parts.now))) (variables_of reader.now.scope.now)
        notes.old) }
{
    match parts {
        [record, field, value] => {
            let field = named_part(at, field)?;
            let record = parse_expression(reader, record, notes)?;
            let value = parse_expression(reader, value, notes)?;
            Ok(with_of(reader.alloc, field, record, value)?)
        }
        [] => Err(FormRefusal::Refused(6, at)),
        [_] => Err(FormRefusal::Refused(6, at)),
        [_, _] => Err(FormRefusal::Refused(6, at)),
        [_, _, _, _, ..] => Err(FormRefusal::Refused(6, at)),
    }
}

/// The field of this name in a record.
pub fn get_of(alloc: Global, field: Text, from: Expr) -> Result<Expr, AllocError>
    ensures { IfOk result
        (λ e. e ≡ Operation (operator.Record (Get field)) (expr_trees_of (from ∷ []))) }
{
    let parts = vec![in alloc; from]?;
    Ok(Expr::operation(Operator::Record(RecordOperator::Get(field)), parts))
}

fn with_of(alloc: Global, field: Text, from: Expr, value: Expr) -> Result<Expr, AllocError>
    ensures { IfOk result
        (λ e. e ≡ Operation (operator.Record (With field)) (expr_trees_of (from ∷ value ∷ []))) }
{
    let parts = vec![in alloc; from, value]?;
    Ok(Expr::operation(Operator::Record(RecordOperator::With(field)), parts))
}
