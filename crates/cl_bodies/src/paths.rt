//! The paths of a cache.
ghost use Rattle.std.specs.Prelude.{◌≡◌, map};
ghost use Rattle.cl_forms.specs.Datum.{datums_of, word};
ghost use Rattle.cl_forms.specs.DatumView.{datum_of};
ghost use Rattle.cl_expressions.specs.Expressions.{parse_get};
ghost use Rattle.cl_expressions.specs.ExpressionViews.{terms_in};
ghost use Rattle.cl_expressions.specs.Load.{Gives, itself};
ghost use Rattle.cl_expressions.specs.Scopes.{variables_of};
ghost use Rattle.cl_bodies.specs.Paths.{parse_path, path_subs, parse_path_form, parse_path_headed, parse_each_path};

use cl_expressions::{Notes, Reader, get_of, parse_slot, parse_variable};
use cl_forms::{Datum, FormRefusal, named_part};
use cl_syntax::Expr;
use cl_value::Text;
use cl_words::{Head, Special, head_named};

/// The expression that a path is: a variable or a slot, or a field of what a path leads to.
#[cycle(path)]
pub fn parse_path(reader: &Reader, datum: &Datum, notes: &mut Notes) -> Result<Expr, FormRefusal>
    ensures { Gives itself result notes.new
        (parse_path reader.now.signatures.now (datum_of datum.now) (variables_of reader.now.scope.now) notes.old) }
{
    match datum {
        Datum::Word(word, at) => parse_variable(reader, word, *at, notes),
        Datum::List(parts, at) => parse_path_form(reader, *at, parts.as_slice(), notes),
        Datum::Number(_, at) => Err(FormRefusal::Refused(6, *at)),
        Datum::Literal(_, at) => Err(FormRefusal::Refused(6, *at)),
        Datum::Quoted(_, at, _) => Err(FormRefusal::Refused(6, *at)),
        Datum::Stray(at) => Err(FormRefusal::Refused(6, *at)),
    }
}

/// A form: a list that begins with a symbol.
#[cycle(path)]
fn parse_path_form(
    reader: &Reader,
    at: u32,
    parts: &[Datum],
    notes: &mut Notes,
) -> Result<Expr, FormRefusal>
    ensures { Gives itself result notes.new
        (parse_path_form reader.now.signatures.now at (path_subs reader.now.signatures.now (datums_of (map datum_of parts.now)))
        (variables_of reader.now.scope.now) notes.old) }
{
    let Some((head, parts)) = parts.split_first() else {
        return Err(FormRefusal::Refused(6, at));
    };
    match head {
        Datum::Word(head, head_at) => parse_path_head(reader, head, *head_at, at, parts, notes),
        _ => Err(FormRefusal::Refused(6, at)),
    }
}

#[cycle(path)]
fn parse_path_head(
    reader: &Reader,
    head: &Text,
    head_at: u32,
    at: u32,
    parts: &[Datum],
    notes: &mut Notes,
) -> Result<Expr, FormRefusal>
    ensures { Gives itself result notes.new
        (parse_path_headed reader.now.signatures.now (word head.now head_at) at
        (path_subs reader.now.signatures.now (datums_of (map datum_of parts.now))) (variables_of reader.now.scope.now)
        notes.old) }
{
    match head_named(head.as_slice()) {
        Some(Head::Special(Special::Slot)) => parse_slot(reader, at, parts, notes),
        Some(Head::Special(Special::Get)) => parse_field(reader, at, parts, notes),
        _ => Err(FormRefusal::Refused(5, head_at)),
    }
}

/// `(get PATH FIELD)`
#[cycle(path)]
#[tactic(auto, using(crate::proofs::PathParts::field_counts))]
fn parse_field(
    reader: &Reader,
    at: u32,
    parts: &[Datum],
    notes: &mut Notes,
) -> Result<Expr, FormRefusal>
    ensures { Gives itself result notes.new
        (parse_get at (path_subs reader.now.signatures.now (datums_of (map datum_of parts.now)))
        (variables_of reader.now.scope.now) notes.old) }
{
    match parts {
        [path, field] => {
            let field = named_part(at, field)?;
            let path = parse_path(reader, path, notes)?;
            Ok(get_of(reader.alloc, field, path)?)
        }
        [] => Err(FormRefusal::Refused(6, at)),
        [_] => Err(FormRefusal::Refused(6, at)),
        [_, _, _, ..] => Err(FormRefusal::Refused(6, at)),
    }
}

/// All of them.
pub fn parse_each_path(
    reader: &Reader,
    parts: &[Datum],
    notes: &mut Notes,
) -> Result<Vec<Expr>, FormRefusal>
    ensures { Gives terms_in result notes.new
        (parse_each_path reader.now.signatures.now (map datum_of parts.now) (variables_of reader.now.scope.now) notes.old) }
{
    let mut paths = Vec::new(reader.alloc);
    for part in parts {
        let path = parse_path(reader, part, notes)?;
        paths.push(path)?;
    }
    Ok(paths)
}
