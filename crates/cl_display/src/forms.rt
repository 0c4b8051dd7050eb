//! What display forms draw, once they are entered.
ghost use Rattle.std.specs.Prelude.{◌≡◌, ◌+◌, ◌≤◌, if◌then◌else◌, map};
ghost use Rattle.cl_value.specs.Value.{data_of};
ghost use Rattle.cl_syntax.specs.ShapeTree.{shape_trees_of};
ghost use Rattle.cl_syntax.specs.Expr.{bindings_of};
ghost use Rattle.cl_application.specs.App.{display_named};
ghost use Rattle.cl_eval.specs.Scope.{variables_of};
ghost use Rattle.cl_eval.specs.Standpoint.{meaning_at};
ghost use Rattle.cl_eval.specs.Agrees.{Agrees, always, itself};
ghost use Rattle.cl_display.specs.Drawings.{drawing_of};
ghost use Rattle.cl_display.specs.Settings.{enter_room, indent, leave_room, restore_ink, restore_margin, set_ink};
ghost use Rattle.cl_display.specs.Fresh.{call_display, draws_in, draws_to, for_each, for_members, in_order, presents_body, shape_parts, within};
ghost use Rattle.cl_display.specs.Place.{allowance_at, bodies_at, draw_from, draws_at, scene_at, texts_at};

use crate::drawings::Drawing;
use crate::places::Place;
use crate::presentations::{check_member, present};
use crate::update_forms::draw_update;
use cl_eval::{
    Meter, Scope, Standpoint, Stop, Types, evaluate, evaluate_bindings, evaluate_each,
    evaluate_list, evaluate_test,
};
use cl_outside::{Ledger, Steps};
use cl_record::Label;
use cl_syntax::{Binding, Presentation, Shape, ShapeChoice, ShapeKind, Shapes};
use cl_value::{Text, Value};

// One form.
#[cycle(draw)]
fn draw<T: Types, L: Ledger>(
    place: &Place<'_, T>,
    form: &Shape,
    drawing: &mut Drawing,
    meter: &mut Meter,
    steps: &mut Steps<L>,
) -> Result<(), Stop>
    requires { place.now.here.level + place.now.here.left ≤ 512 }
    ensures meaning { Agrees (always (drawing_of drawing.new)) result meter.new
        (draw_from T.holds T.presents place.now itself form.now (drawing_of drawing.old) meter.old.cost
        meter.old.deepest).outcome }
    ensures ledger { steps.new + meter.old.cost ≡ steps.old + meter.new.cost }
{
    let here = &place.here;
    meter.enter(here.left, here.context.budget, here.level, steps)?;
    let inner = Place {
        here: Standpoint {
            left: here.left - 1,
            level: here.level + 1,
            ..*here
        },
        ..*place
    };
    draw_parts(&inner, form, drawing, meter, steps)
}

// A form that was entered.
#[cycle(draw)]
fn draw_parts<T: Types, L: Ledger>(
    place: &Place<'_, T>,
    form: &Shape,
    drawing: &mut Drawing,
    meter: &mut Meter,
    steps: &mut Steps<L>,
) -> Result<(), Stop>
    requires { place.now.here.level + place.now.here.left ≤ 512 }
    ensures meaning { Agrees (always (drawing_of drawing.new)) result meter.new
        (draw_from T.holds T.presents place.now (shape_parts (scene_at T.holds T.presents place.now) (allowance_at place.now) (meaning_at place.now.here)
        (texts_at T.holds T.presents place.now) (bodies_at T.holds T.presents place.now))
        form.now (drawing_of drawing.old) meter.old.cost
        meter.old.deepest).outcome }
    ensures ledger { steps.new + meter.old.cost ≡ steps.old + meter.new.cost }
{
    match &form.kind {
        ShapeKind::WriteText(text) => {
            let text = evaluate(&place.here, text, meter, steps)?;
            drawing.write(place.max_weight, &text)
        }
        ShapeKind::Newline => drawing.newline(),
        ShapeKind::Draw(figure, parts) => {
            let values = evaluate_each(&place.here, parts, meter, steps)?;
            drawing.figure(place.max_weight, *figure, values.as_slice())
        }
        ShapeKind::Indent(number, body) => {
            let number = evaluate(&place.here, number, meter, steps)?;
            draw_indented(place, &number, body.as_slice(), drawing, meter, steps)
        }
        ShapeKind::Ink(number, body) => {
            let number = evaluate(&place.here, number, meter, steps)?;
            draw_in_ink(place, &number, body.as_slice(), drawing, meter, steps)
        }
        ShapeKind::Room(body) => draw_in_room(place, body.as_slice(), drawing, meter, steps),
        ShapeKind::Present(object, spec) => {
            let object = evaluate(&place.here, object, meter, steps)?;
            present(place, object, spec, drawing, meter, steps)
        }
        ShapeKind::AsPresentation(presentation, body) => {
            let object = evaluate(&place.here, presentation.object(), meter, steps)?;
            draw_presented(place, object, presentation, body, drawing, meter, steps)
        }
        ShapeKind::Update(update, body) => {
            draw_update(place, update, body.as_slice(), drawing, meter, steps)
        }
        ShapeKind::If(choice) => {
            let ShapeChoice { test, then, other } = &**choice;
            if evaluate_test(&place.here, test, meter, steps)? {
                draw(place, then, drawing, meter, steps)
            } else {
                draw(place, other, drawing, meter, steps)
            }
        }
        ShapeKind::When(test, body) => {
            if evaluate_test(&place.here, test, meter, steps)? {
                draw_all(place, body.as_slice(), drawing, meter, steps)
            } else {
                Ok(())
            }
        }
        ShapeKind::Let(bindings, body) => draw_in(
            place,
            bindings,
            body.as_slice(),
            drawing,
            meter,
            steps,
        ),
        ShapeKind::Dolist(name, list, body) => {
            let list = evaluate_list(&place.here, list, meter, steps)?;
            draw_each(
                place,
                name,
                list.as_slice(),
                body.as_slice(),
                drawing,
                meter,
                steps,
            )
        }
        ShapeKind::Progn(body) => draw_all(place, body.as_slice(), drawing, meter, steps),
        ShapeKind::Call(name, parts) => {
            let values = evaluate_each(&place.here, parts, meter, steps)?;
            call(place, name, values.as_slice(), drawing, meter, steps)
        }
    }
}

// Forms in order.
#[cycle(draw)]
pub(crate) fn draw_all<T: Types, L: Ledger>(
    place: &Place<'_, T>,
    forms: &[Shape],
    drawing: &mut Drawing,
    meter: &mut Meter,
    steps: &mut Steps<L>,
) -> Result<(), Stop>
    requires { place.now.here.level + place.now.here.left ≤ 512 }
    ensures meaning { Agrees (always (drawing_of drawing.new)) result meter.new
        (draw_from T.holds T.presents place.now in_order (shape_trees_of forms.now) (drawing_of drawing.old) meter.old.cost
        meter.old.deepest).outcome }
    ensures ledger { steps.new + meter.old.cost ≡ steps.old + meter.new.cost }
{
    for form in forms {
        draw(place, form, drawing, meter, steps)?;
    }
    Ok(())
}

// The forms behind bindings.
#[cycle(draw)]
fn draw_in<T: Types, L: Ledger>(
    place: &Place<'_, T>,
    bindings: &[Binding],
    body: &[Shape],
    drawing: &mut Drawing,
    meter: &mut Meter,
    steps: &mut Steps<L>,
) -> Result<(), Stop>
    requires { place.now.here.level + place.now.here.left ≤ 512 }
    ensures meaning { Agrees (always (drawing_of drawing.new)) result meter.new
        (draws_in (meaning_at place.now.here) (draws_at T.holds T.presents place.now) place.now.here.level (bindings_of bindings.now)
        (shape_trees_of body.now) (variables_of place.now.here.scope.now)
        (drawing_of drawing.old) meter.old.cost
        meter.old.deepest).outcome }
    ensures ledger { steps.new + meter.old.cost ≡ steps.old + meter.new.cost }
{
    let frame = evaluate_bindings(&place.here, bindings, meter, steps)?;
    let scope = Scope::Frame(&frame, &*place.here.scope);
    let inner = Place {
        here: Standpoint {
            scope: &scope,
            ..place.here
        },
        ..*place
    };
    draw_all(&inner, body, drawing, meter, steps)
}

// The forms for each of these values.
#[cycle(draw)]
fn draw_each<T: Types, L: Ledger>(
    place: &Place<'_, T>,
    name: &Text,
    list: &[Value],
    body: &[Shape],
    drawing: &mut Drawing,
    meter: &mut Meter,
    steps: &mut Steps<L>,
) -> Result<(), Stop>
    requires { place.now.here.level + place.now.here.left ≤ 512 }
    ensures meaning { Agrees (always (drawing_of drawing.new)) result meter.new
        (draw_from T.holds T.presents place.now for_each name.now (shape_trees_of body.now) (map data_of list.now)
        (drawing_of drawing.old) meter.old.cost
        meter.old.deepest).outcome }
    ensures ledger { steps.new + meter.old.cost ≡ steps.old + meter.new.cost }
{
    for item in list {
        let scope = Scope::Bound(&*name, item, &*place.here.scope);
        let inner = Place {
            here: Standpoint {
                scope: &scope,
                ..place.here
            },
            ..*place
        };
        draw_all(&inner, body, drawing, meter, steps)?;
    }
    Ok(())
}

// A display's forms, where its parameters are all that they see.
#[cycle(draw)]
fn call<T: Types, L: Ledger>(
    place: &Place<'_, T>,
    name: &Text,
    values: &[Value],
    drawing: &mut Drawing,
    meter: &mut Meter,
    steps: &mut Steps<L>,
) -> Result<(), Stop>
    requires { place.now.here.level + place.now.here.left ≤ 512 }
    ensures meaning { Agrees (always (drawing_of drawing.new)) result meter.new
        (call_display (draws_at T.holds T.presents place.now) place.now.here.level
        (display_named name.now place.now.here.context.now.app.now) (map data_of values.now)
        (drawing_of drawing.old) meter.old.cost
        meter.old.deepest).outcome }
    ensures ledger { steps.new + meter.old.cost ≡ steps.old + meter.new.cost }
{
    match place.here.context.app.shape_of(name.as_slice()) {
        Some(display) if display.parameters.len() == values.len() => {
            let scope = Scope::Parameters(&display.parameters, &*values);
            let inner = Place {
                here: Standpoint {
                    scope: &scope,
                    ..place.here
                },
                ..*place
            };
            draw_all(&inner, display.body.as_slice(), drawing, meter, steps)
        }
        _ => Err(Stop::Trap(1)),
    }
}

// The forms with this number more at the margin.
#[cycle(draw)]
fn draw_indented<T: Types, L: Ledger>(
    place: &Place<'_, T>,
    number: &Value,
    body: &[Shape],
    drawing: &mut Drawing,
    meter: &mut Meter,
    steps: &mut Steps<L>,
) -> Result<(), Stop>
    requires { place.now.here.level + place.now.here.left ≤ 512 }
    ensures meaning { Agrees (always (drawing_of drawing.new)) result meter.new
        (draw_from T.holds T.presents place.now within (shape_trees_of body.now)
        (indent (data_of number.now) (drawing_of drawing.old))
        (restore_margin (drawing_of drawing.old).ambient) meter.old.cost
        meter.old.deepest).outcome }
    ensures ledger { steps.new + meter.old.cost ≡ steps.old + meter.new.cost }
{
    let before = drawing.ambient;
    drawing.indent(number)?;
    draw_all(place, body, drawing, meter, steps)?;
    drawing.restore_margin(&before);
    Ok(())
}

// The forms in this ink.
#[cycle(draw)]
fn draw_in_ink<T: Types, L: Ledger>(
    place: &Place<'_, T>,
    number: &Value,
    body: &[Shape],
    drawing: &mut Drawing,
    meter: &mut Meter,
    steps: &mut Steps<L>,
) -> Result<(), Stop>
    requires { place.now.here.level + place.now.here.left ≤ 512 }
    ensures meaning { Agrees (always (drawing_of drawing.new)) result meter.new
        (draw_from T.holds T.presents place.now within (shape_trees_of body.now)
        (set_ink (data_of number.now) (drawing_of drawing.old))
        (restore_ink (drawing_of drawing.old).ambient) meter.old.cost
        meter.old.deepest).outcome }
    ensures ledger { steps.new + meter.old.cost ≡ steps.old + meter.new.cost }
{
    let before = drawing.ambient;
    drawing.set_ink(number)?;
    draw_all(place, body, drawing, meter, steps)?;
    drawing.restore_ink(&before);
    Ok(())
}

// The forms in a room.
#[cycle(draw)]
fn draw_in_room<T: Types, L: Ledger>(
    place: &Place<'_, T>,
    body: &[Shape],
    drawing: &mut Drawing,
    meter: &mut Meter,
    steps: &mut Steps<L>,
) -> Result<(), Stop>
    requires { place.now.here.level + place.now.here.left ≤ 512 }
    ensures meaning { Agrees (always (drawing_of drawing.new)) result meter.new
        (draw_from T.holds T.presents place.now draws_to (shape_trees_of body.now)
        (leave_room (drawing_of drawing.old).ambient (drawing_of drawing.old).part)
        (enter_room (drawing_of drawing.old)) meter.old.cost
        meter.old.deepest).outcome }
    ensures ledger { steps.new + meter.old.cost ≡ steps.old + meter.new.cost }
{
    let outer = drawing.enter_room(place.here.context.alloc);
    draw_all(place, body, drawing, meter, steps)?;
    drawing.leave_room(outer)
}

// The forms as what presents an object, where that is a member of its type.
#[cycle(draw)]
fn draw_presented<T: Types, L: Ledger>(
    place: &Place<'_, T>,
    object: Value,
    presentation: &Presentation,
    body: &Shapes,
    drawing: &mut Drawing,
    meter: &mut Meter,
    steps: &mut Steps<L>,
) -> Result<(), Stop>
    requires { place.now.here.level + place.now.here.left ≤ 512 }
    ensures meaning { Agrees (always (drawing_of drawing.new)) result meter.new
        (for_members (T.holds place.now.types.now) presentation.now.spec (data_of object)
        (draw_from T.holds T.presents place.now (presents_body place.now.max_weight) presentation.now (shape_trees_of body.now)
        (drawing_of drawing.old) (data_of object)) meter.old.cost
        meter.old.deepest).outcome }
    ensures ledger { steps.new + meter.old.cost ≡ steps.old + meter.new.cost }
{
    let alloc = place.here.context.alloc;
    check_member(place.types, &object, presentation.spec())?;
    let outer = drawing.enter_presentation(alloc, place.max_weight, &object)?;
    draw_all(place, body.as_slice(), drawing, meter, steps)?;
    let spec = presentation.spec().clone()?;
    let label = Label::new(object, spec, presentation.is_single_box());
    drawing.leave_presentation(alloc, label, outer)
}
