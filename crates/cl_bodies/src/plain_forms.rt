//! Display forms whose parts are expressions alone.
ghost use Rattle.std.specs.Prelude.{map};
ghost use Rattle.cl_forms.specs.Datum.{datums_of};
ghost use Rattle.cl_forms.specs.DatumView.{datum_of};
ghost use Rattle.cl_expressions.specs.Load.{Gives, Notes, itself};
ghost use Rattle.cl_words.specs.declared.signatures.Signatures.{Signatures};
ghost use Rattle.cl_expressions.specs.Scopes.{variables_of};
ghost use Rattle.cl_expressions.specs.Expressions.{subs};
ghost use Rattle.cl_bodies.specs.DisplayForms.{parse_writing, parse_draw, parse_write, parse_newline, parse_call};

use crate::presentations::parse_present;
use cl_expressions::{Notes, Reader, parse_each, parse_expression};
use cl_forms::{Datum, FormRefusal, fits};
use cl_syntax::{Figure, Shape};
use cl_value::Text;
use cl_words::{Writing, figure_count};

/// A drawing form, `(draw-point E E E)` or one of its kin.
#[tactic(auto, using(cl_expressions::proofs::Subs::subs_counted))]
pub fn parse_draw(
    reader: &Reader,
    figure: Figure,
    at: u32,
    parts: &[Datum],
    notes: &mut Notes,
) -> Result<Shape, FormRefusal>
    ensures { Gives itself result notes.new
        (parse_draw figure at (subs reader.now.signatures.now (datums_of (map datum_of parts.now)))
        (variables_of reader.now.scope.now) notes.old) }
{
    if figure_count(figure) != parts.len() {
        return Err(FormRefusal::Refused(6, at));
    }
    let parts = parse_each(reader, parts, notes)?;
    Ok(Shape::draw(figure, parts))
}

/// A form that writes.
pub fn parse_writing(
    reader: &Reader,
    writing: Writing,
    at: u32,
    parts: &[Datum],
    notes: &mut Notes,
) -> Result<Shape, FormRefusal>
    ensures { Gives itself result notes.new
        (parse_writing reader.now.signatures.now writing at (subs reader.now.signatures.now (datums_of (map datum_of parts.now)))
        (variables_of reader.now.scope.now) notes.old) }
{
    match writing {
        Writing::WriteText => parse_write(reader, at, parts, notes),
        Writing::Newline => parse_newline(at, parts),
        Writing::Present => parse_present(reader, at, parts, notes),
    }
}

/// `(write-text E)`
#[tactic(auto, using(crate::proofs::DisplayFormCounts::write_counts))]
fn parse_write(
    reader: &Reader,
    at: u32,
    parts: &[Datum],
    notes: &mut Notes,
) -> Result<Shape, FormRefusal>
    ensures { Gives itself result notes.new
        (parse_write at (subs reader.now.signatures.now (datums_of (map datum_of parts.now))) (variables_of reader.now.scope.now)
        notes.old) }
{
    match parts {
        [text] => Ok(Shape::write_text(parse_expression(reader, text, notes)?)),
        [] => Err(FormRefusal::Refused(6, at)),
        [_, _, ..] => Err(FormRefusal::Refused(6, at)),
    }
}

/// `(newline)`
#[tactic(auto, using(crate::proofs::DisplayFormCounts::newline_counts))]
fn parse_newline(at: u32, parts: &[Datum]) -> Result<Shape, FormRefusal>
    ensures { (w : Signatures) (notes : Notes)
        → Gives itself result notes
        (parse_newline at (subs w (datums_of (map datum_of parts.now))) notes) }
{
    match parts {
        [] => Ok(Shape::newline()),
        [_, ..] => Err(FormRefusal::Refused(6, at)),
    }
}

/// `(DISPLAY E ...)`
#[tactic(auto, using(cl_expressions::proofs::Subs::subs_counted))]
pub fn parse_call(
    reader: &Reader,
    head: &Text,
    head_at: u32,
    at: u32,
    parts: &[Datum],
    notes: &mut Notes,
) -> Result<Shape, FormRefusal>
    ensures { Gives itself result notes.new
        (parse_call reader.now.signatures.now head.now head_at at
        (subs reader.now.signatures.now (datums_of (map datum_of parts.now))) (variables_of reader.now.scope.now)
        notes.old) }
{
    let Some(count) = reader.signatures.display(head.as_slice()) else {
        return Err(FormRefusal::Refused(5, head_at));
    };
    if !fits(count, parts.len()) {
        return Err(FormRefusal::Refused(6, at));
    }
    let exprs = parse_each(reader, parts, notes)?;
    Ok(Shape::call(head.copy()?, exprs))
}
