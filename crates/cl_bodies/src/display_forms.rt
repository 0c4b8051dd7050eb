//! The display form that a form is.
ghost use Rattle.std.specs.Prelude.{◌≡◌, map};
ghost use Rattle.cl_forms.specs.Datum.{datums_of};
ghost use Rattle.cl_forms.specs.DatumView.{datum_of};
ghost use Rattle.cl_expressions.specs.Load.{Gives, Notes, itself};
ghost use Rattle.cl_expressions.specs.Scopes.{variables_of};
ghost use Rattle.cl_expressions.specs.Expressions.{subs};
ghost use Rattle.cl_bodies.specs.DisplayForms.{parse_shape, parse_shapes, parse_own, parse_setting, parse_indent, parse_ink, parse_presentation, parse_update, closed};

use crate::bodies::{parse_body, parse_form};
use crate::languages::Language;
use crate::own::Own;
use crate::plain_forms::{parse_call, parse_draw, parse_writing};
use crate::presentations::parse_presented;
use crate::updates::parse_update_list;
use cl_expressions::{Notes, Reader, parse_expression};
use cl_forms::{Datum, FormRefusal};
use cl_syntax::{Binding, Expr, Presentation, Shape, Shapes, Update};
use cl_value::Text;
use cl_words::{Head, Planned, Setting};
use std::alloc::{AllocError, Global};

/// In what a display form stands: in a display, or in a row or a cell of a table.
#[derive(Clone, Copy)]
pub enum Context {
    Display,
    Row,
    Cell,
}

/// What stands before the body in a form that sets something for it.
#[derive(Drop)]
pub enum Opening {
    /// `(indenting-output E`
    Indent(Expr),
    /// `(with-ink E`
    Ink(Expr),
    /// `(with-room-for-graphics`
    Room,
    /// `(with-output-as-presentation (E SPECIFIER :single-box BOOL)`
    Presentation(Presentation),
    /// `(updating-output (:unique-id E :cache-value (list PATH ...))`
    Update(Update),
}

/// The display form that a datum is. Where a name in it is not declared, the first such is noted.
pub fn parse_shape(reader: &Reader, datum: &Datum, notes: &mut Notes) -> Result<Shape, FormRefusal>
    ensures { Gives itself result notes.new
        (parse_shape reader.now.signatures.now (datum_of datum.now) (variables_of reader.now.scope.now) notes.old) }
{
    parse_form(reader, Context::Display, datum, notes)
}

/// The display forms of a body, in order.
pub fn parse_shapes(
    reader: &Reader,
    parts: &[Datum],
    notes: &mut Notes,
) -> Result<Shapes, FormRefusal>
    ensures { Gives itself result notes.new
        (parse_shapes reader.now.signatures.now (datums_of (map datum_of parts.now)) (variables_of reader.now.scope.now)
        notes.old) }
{
    parse_body::<Shape>(reader, Context::Display, parts, notes)
}

impl Language for Shape {
    ghost use Rattle.cl_bodies.specs.DisplayForms.{display_forms};

    type Body = Shapes;

    type Opening = Opening;

    type Context = Context;

    ghost rows = { display_forms };

    ghost items = { λ body. body };

    fn choice(alloc: Global, test: Expr, first: Shape, other: Shape) -> Result<Shape, AllocError> {
        Shape::choice(alloc, test, first, other)
    }

    fn when(test: Expr, body: Shapes) -> Shape {
        Shape::when(test, body)
    }

    fn bind(bindings: Vec<Binding>, body: Shapes) -> Shape {
        Shape::bind(bindings, body)
    }

    fn each(name: Text, list: Expr, body: Shapes) -> Shape {
        Shape::each(name, list, body)
    }

    fn sequence(body: Shapes) -> Shape {
        Shape::sequence(body)
    }

    fn empty(alloc: Global) -> Shapes {
        Shapes::new(alloc)
    }

    fn push(body: &mut Shapes, form: Shape) -> Result<(), AllocError> {
        body.push(form)
    }

    fn parse_own(
        reader: &Reader,
        context: Context,
        head: Head,
        head_at: u32,
        at: u32,
        parts: &[Datum],
        notes: &mut Notes,
    ) -> Result<Own<Shape, Opening, Context>, FormRefusal> {
        parse_own(reader, context, head, head_at, at, parts, notes)
    }

    fn parse_call(
        reader: &Reader,
        head: &Text,
        head_at: u32,
        at: u32,
        parts: &[Datum],
        notes: &mut Notes,
    ) -> Result<Shape, FormRefusal> {
        parse_call(reader, head, head_at, at, parts, notes)
    }

    fn closed(opening: Opening, body: Shapes) -> Shape {
        closed(opening, body)
    }
}

/// A display form that statements do not have, but for its body.
fn parse_own(
    reader: &Reader,
    context: Context,
    head: Head,
    head_at: u32,
    at: u32,
    parts: &[Datum],
    notes: &mut Notes,
) -> Result<Own<Shape, Opening, Context>, FormRefusal>
    ensures { Gives itself result notes.new
        (parse_own reader.now.signatures.now context head head_at at
        (subs reader.now.signatures.now (datums_of (map datum_of parts.now)))
        (variables_of reader.now.scope.now) notes.old) }
{
    match head {
        Head::Figure(figure) => Ok(Own::Whole(parse_draw(reader, figure, at, parts, notes)?)),
        Head::Setting(setting) => parse_setting(reader, context, setting, at, parts, notes),
        Head::Writing(writing) => Ok(Own::Whole(parse_writing(reader, writing, at, parts, notes)?)),
        Head::Planned(Planned::Display) => Err(FormRefusal::Refused(0, head_at)),
        _ => Err(FormRefusal::Refused(5, head_at)),
    }
}

fn parse_setting(
    reader: &Reader,
    context: Context,
    setting: Setting,
    at: u32,
    parts: &[Datum],
    notes: &mut Notes,
) -> Result<Own<Shape, Opening, Context>, FormRefusal>
    ensures { Gives itself result notes.new
        (parse_setting reader.now.signatures.now context setting at (subs reader.now.signatures.now (datums_of (map datum_of parts.now)))
        (variables_of reader.now.scope.now) notes.old) }
{
    match setting {
        Setting::Indent => parse_indent(reader, context, at, parts, notes),
        Setting::Ink => parse_ink(reader, context, at, parts, notes),
        Setting::Room => Ok(Own::Before(Opening::Room, 0, context)),
        Setting::Presentation => parse_presentation(reader, context, at, parts, notes),
        Setting::Update => parse_update(reader, context, at, parts, notes),
    }
}

/// `(indenting-output E FORM ...)`
fn parse_indent(
    reader: &Reader,
    context: Context,
    at: u32,
    parts: &[Datum],
    notes: &mut Notes,
) -> Result<Own<Shape, Opening, Context>, FormRefusal>
    ensures { Gives itself result notes.new
        (parse_indent context at (subs reader.now.signatures.now (datums_of (map datum_of parts.now)))
        (variables_of reader.now.scope.now) notes.old) }
{
    let Some((number, _)) = parts.split_first() else {
        return Err(FormRefusal::Refused(6, at));
    };
    let number = parse_expression(reader, number, notes)?;
    Ok(Own::Before(Opening::Indent(number), 1, context))
}

/// `(with-ink E FORM ...)`
fn parse_ink(
    reader: &Reader,
    context: Context,
    at: u32,
    parts: &[Datum],
    notes: &mut Notes,
) -> Result<Own<Shape, Opening, Context>, FormRefusal>
    ensures { Gives itself result notes.new
        (parse_ink context at (subs reader.now.signatures.now (datums_of (map datum_of parts.now))) (variables_of reader.now.scope.now)
        notes.old) }
{
    let Some((number, _)) = parts.split_first() else {
        return Err(FormRefusal::Refused(6, at));
    };
    let number = parse_expression(reader, number, notes)?;
    Ok(Own::Before(Opening::Ink(number), 1, context))
}

/// `(with-output-as-presentation (E SPECIFIER :single-box BOOL) FORM ...)`
fn parse_presentation(
    reader: &Reader,
    context: Context,
    at: u32,
    parts: &[Datum],
    notes: &mut Notes,
) -> Result<Own<Shape, Opening, Context>, FormRefusal>
    ensures { Gives itself result notes.new
        (parse_presentation reader.now.signatures.now context at
        (subs reader.now.signatures.now (datums_of (map datum_of parts.now)))
        (variables_of reader.now.scope.now) notes.old) }
{
    let Some((presented, _)) = parts.split_first() else {
        return Err(FormRefusal::Refused(6, at));
    };
    let presentation = parse_presented(reader, at, presented.parts(), notes)?;
    Ok(Own::Before(Opening::Presentation(presentation), 1, context))
}

/// `(updating-output (:unique-id E :cache-value (list PATH ...)) FORM ...)`
fn parse_update(
    reader: &Reader,
    context: Context,
    at: u32,
    parts: &[Datum],
    notes: &mut Notes,
) -> Result<Own<Shape, Opening, Context>, FormRefusal>
    ensures { Gives itself result notes.new
        (parse_update reader.now.signatures.now context at
        (subs reader.now.signatures.now (datums_of (map datum_of parts.now)))
        (variables_of reader.now.scope.now) notes.old) }
{
    let Some((keys, _)) = parts.split_first() else {
        return Err(FormRefusal::Refused(6, at));
    };
    let update = parse_update_list(reader, at, keys, notes)?;
    Ok(Own::Before(Opening::Update(update), 1, context))
}

fn closed(opening: Opening, body: Shapes) -> Shape
    ensures { result ≡ closed opening body }
{
    match opening {
        Opening::Indent(number) => Shape::indent(number, body),
        Opening::Ink(number) => Shape::ink(number, body),
        Opening::Room => Shape::room(body),
        Opening::Presentation(presentation) => Shape::as_presentation(presentation, body),
        Opening::Update(update) => Shape::update(update, body),
    }
}
