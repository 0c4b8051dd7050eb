//! Display forms that are drawn over old records, once they are entered.
ghost use Rattle.std.specs.Prelude.{◌≡◌, ◌+◌, ◌≤◌, map};
ghost use Rattle.cl_value.specs.Value.{data_of};
ghost use Rattle.cl_syntax.specs.ShapeTree.{shape_trees_of};
ghost use Rattle.cl_syntax.specs.Expr.{bindings_of};
ghost use Rattle.cl_application.specs.App.{display_named};
ghost use Rattle.cl_eval.specs.Scope.{variables_of};
ghost use Rattle.cl_eval.specs.Standpoint.{meaning_at};
ghost use Rattle.cl_eval.specs.Agrees.{itself};
ghost use Rattle.cl_display.specs.Drawings.{drawing_of};
ghost use Rattle.cl_display.specs.Settings.{enter_room, indent, leave_room, restore_ink, restore_margin, set_ink};
ghost use Rattle.cl_display.specs.Fresh.{call_display, draws_in, draws_to, for_each, for_members, in_order, presents_body, shape_parts, within};
ghost use Rattle.cl_display.specs.Place.{allowance_at, bodies_at, draw_from, draws_at, scene_at, texts_at};
ghost use Rattle.cl_reuse.specs.Sited.{AreOwn};
ghost use Rattle.cl_updating.specs.Redraws.{IsOwn, IsReusableOver, Redraws};

use crate::grounds::Ground;
use crate::redrawing_updates::redraw_update;
use crate::tallies::Tally;
use cl_display::{Drawing, Place, check_member, present};
use cl_eval::{
    Meter, Scope, Standpoint, Stop, Types, evaluate, evaluate_bindings, evaluate_each,
    evaluate_list, evaluate_test,
};
use cl_record::Label;
use cl_syntax::{Binding, Presentation, Shape, ShapeChoice, ShapeKind, Shapes};
use cl_value::{Text, Value};

// One form.
#[cycle(redraw)]
fn redraw<T: Types>(
    ground: &Ground<'_, '_, '_, T>,
    form: &Shape,
    drawing: &mut Drawing,
    meter: &mut Meter,
    tally: &mut Tally,
) -> Result<(), Stop>
    requires depth { ground.now.place.here.level + ground.now.place.here.left ≤ 512 }
    requires reusable { IsReusableOver T.holds T.presents ground.now }
    requires own { IsOwn (scene_at T.holds T.presents ground.now.place).app form.now }
    ensures { Redraws ground.now.old.now result (drawing_of drawing.new) meter.old.cost meter.new tally.old tally.new
        (draw_from T.holds T.presents ground.now.place itself form.now (drawing_of drawing.old) meter.old.cost meter.old.deepest) }
{
    let here = &ground.place.here;
    meter.enter(here.left, here.context.budget, here.level, &mut tally.steps)?;
    let inner = Ground {
        place: Place {
            here: Standpoint {
                left: here.left - 1,
                level: here.level + 1,
                ..*here
            },
            ..ground.place
        },
        old: ground.old,
    };
    redraw_parts(&inner, form, drawing, meter, tally)
}

// A form that was entered.
#[cycle(redraw)]
fn redraw_parts<T: Types>(
    ground: &Ground<'_, '_, '_, T>,
    form: &Shape,
    drawing: &mut Drawing,
    meter: &mut Meter,
    tally: &mut Tally,
) -> Result<(), Stop>
    requires depth { ground.now.place.here.level + ground.now.place.here.left ≤ 512 }
    requires reusable { IsReusableOver T.holds T.presents ground.now }
    requires own { IsOwn (scene_at T.holds T.presents ground.now.place).app form.now }
    ensures { Redraws ground.now.old.now result (drawing_of drawing.new) meter.old.cost meter.new tally.old tally.new
        (draw_from T.holds T.presents ground.now.place (shape_parts (scene_at T.holds T.presents ground.now.place) (allowance_at ground.now.place) (meaning_at ground.now.place.here)
        (texts_at T.holds T.presents ground.now.place) (bodies_at T.holds T.presents ground.now.place))
        form.now (drawing_of drawing.old) meter.old.cost meter.old.deepest) }
{
    let here = &ground.place.here;
    let most = ground.place.max_weight;
    match &form.kind {
        ShapeKind::WriteText(text) => {
            let text = evaluate(here, text, meter, &mut tally.steps)?;
            drawing.write(most, &text)
        }
        ShapeKind::Newline => drawing.newline(),
        ShapeKind::Draw(figure, parts) => {
            let values = evaluate_each(here, parts, meter, &mut tally.steps)?;
            drawing.figure(most, *figure, values.as_slice())
        }
        ShapeKind::Indent(number, body) => {
            let number = evaluate(here, number, meter, &mut tally.steps)?;
            redraw_indented(ground, &number, body.as_slice(), drawing, meter, tally)
        }
        ShapeKind::Ink(number, body) => {
            let number = evaluate(here, number, meter, &mut tally.steps)?;
            redraw_in_ink(ground, &number, body.as_slice(), drawing, meter, tally)
        }
        ShapeKind::Room(body) => redraw_in_room(ground, body.as_slice(), drawing, meter, tally),
        ShapeKind::Present(object, spec) => {
            let object = evaluate(here, object, meter, &mut tally.steps)?;
            present(
                &ground.place,
                object,
                spec,
                drawing,
                meter,
                &mut tally.steps,
            )
        }
        ShapeKind::AsPresentation(presentation, body) => {
            let object = evaluate(here, presentation.object(), meter, &mut tally.steps)?;
            redraw_presented(ground, object, presentation, body, drawing, meter, tally)
        }
        ShapeKind::Update(update, body) => {
            redraw_update(ground, update, body.as_slice(), drawing, meter, tally)
        }
        ShapeKind::If(choice) => {
            let ShapeChoice { test, then, other } = &**choice;
            if evaluate_test(here, test, meter, &mut tally.steps)? {
                redraw(ground, then, drawing, meter, tally)
            } else {
                redraw(ground, other, drawing, meter, tally)
            }
        }
        ShapeKind::When(test, body) => {
            if evaluate_test(here, test, meter, &mut tally.steps)? {
                redraw_all(ground, body.as_slice(), drawing, meter, tally)
            } else {
                Ok(())
            }
        }
        ShapeKind::Let(bindings, body) => redraw_in(
            ground,
            bindings,
            body.as_slice(),
            drawing,
            meter,
            tally,
        ),
        ShapeKind::Dolist(name, list, body) => {
            let list = evaluate_list(here, list, meter, &mut tally.steps)?;
            redraw_each(
                ground,
                name,
                list.as_slice(),
                body.as_slice(),
                drawing,
                meter,
                tally,
            )
        }
        ShapeKind::Progn(body) => redraw_all(ground, body.as_slice(), drawing, meter, tally),
        ShapeKind::Call(name, parts) => {
            let values = evaluate_each(here, parts, meter, &mut tally.steps)?;
            redraw_call(ground, name, values.as_slice(), drawing, meter, tally)
        }
    }
}

// Forms in order.
#[cycle(redraw)]
pub(crate) fn redraw_all<T: Types>(
    ground: &Ground<'_, '_, '_, T>,
    forms: &[Shape],
    drawing: &mut Drawing,
    meter: &mut Meter,
    tally: &mut Tally,
) -> Result<(), Stop>
    requires depth { ground.now.place.here.level + ground.now.place.here.left ≤ 512 }
    requires reusable { IsReusableOver T.holds T.presents ground.now }
    requires own { AreOwn (scene_at T.holds T.presents ground.now.place).app (shape_trees_of forms.now) }
    ensures { Redraws ground.now.old.now result (drawing_of drawing.new) meter.old.cost meter.new tally.old tally.new
        (draw_from T.holds T.presents ground.now.place in_order (shape_trees_of forms.now) (drawing_of drawing.old) meter.old.cost meter.old.deepest) }
{
    for form in forms {
        redraw(ground, form, drawing, meter, tally)?;
    }
    Ok(())
}

// The forms behind bindings.
#[cycle(redraw)]
fn redraw_in<T: Types>(
    ground: &Ground<'_, '_, '_, T>,
    bindings: &[Binding],
    body: &[Shape],
    drawing: &mut Drawing,
    meter: &mut Meter,
    tally: &mut Tally,
) -> Result<(), Stop>
    requires depth { ground.now.place.here.level + ground.now.place.here.left ≤ 512 }
    requires reusable { IsReusableOver T.holds T.presents ground.now }
    requires own { AreOwn (scene_at T.holds T.presents ground.now.place).app (shape_trees_of body.now) }
    ensures { Redraws ground.now.old.now result (drawing_of drawing.new) meter.old.cost meter.new tally.old tally.new
        (draws_in (meaning_at ground.now.place.here) (draws_at T.holds T.presents ground.now.place) ground.now.place.here.level (bindings_of bindings.now)
        (shape_trees_of body.now) (variables_of ground.now.place.here.scope.now) (drawing_of drawing.old) meter.old.cost meter.old.deepest) }
{
    let frame = evaluate_bindings(&ground.place.here, bindings, meter, &mut tally.steps)?;
    let scope = Scope::Frame(&frame, &*ground.place.here.scope);
    let inner = Ground {
        place: Place {
            here: Standpoint {
                scope: &scope,
                ..ground.place.here
            },
            ..ground.place
        },
        old: ground.old,
    };
    redraw_all(&inner, body, drawing, meter, tally)
}

// The forms for each of these values.
#[cycle(redraw)]
fn redraw_each<T: Types>(
    ground: &Ground<'_, '_, '_, T>,
    name: &Text,
    list: &[Value],
    body: &[Shape],
    drawing: &mut Drawing,
    meter: &mut Meter,
    tally: &mut Tally,
) -> Result<(), Stop>
    requires depth { ground.now.place.here.level + ground.now.place.here.left ≤ 512 }
    requires reusable { IsReusableOver T.holds T.presents ground.now }
    requires own { AreOwn (scene_at T.holds T.presents ground.now.place).app (shape_trees_of body.now) }
    ensures { Redraws ground.now.old.now result (drawing_of drawing.new) meter.old.cost meter.new tally.old tally.new
        (draw_from T.holds T.presents ground.now.place for_each name.now (shape_trees_of body.now) (map data_of list.now)
        (drawing_of drawing.old) meter.old.cost meter.old.deepest) }
{
    for item in list {
        let scope = Scope::Bound(&*name, item, &*ground.place.here.scope);
        let inner = Ground {
            place: Place {
                here: Standpoint {
                    scope: &scope,
                    ..ground.place.here
                },
                ..ground.place
            },
            old: ground.old,
        };
        redraw_all(&inner, body, drawing, meter, tally)?;
    }
    Ok(())
}

// A display's forms, where its parameters are all that they see.
#[cycle(redraw)]
fn redraw_call<T: Types>(
    ground: &Ground<'_, '_, '_, T>,
    name: &Text,
    values: &[Value],
    drawing: &mut Drawing,
    meter: &mut Meter,
    tally: &mut Tally,
) -> Result<(), Stop>
    requires depth { ground.now.place.here.level + ground.now.place.here.left ≤ 512 }
    requires reusable { IsReusableOver T.holds T.presents ground.now }
    ensures { Redraws ground.now.old.now result (drawing_of drawing.new) meter.old.cost meter.new tally.old tally.new
        (call_display (draws_at T.holds T.presents ground.now.place) ground.now.place.here.level
        (display_named name.now ground.now.place.here.context.now.app.now) (map data_of values.now)
        (drawing_of drawing.old) meter.old.cost meter.old.deepest) }
{
    match ground.place.here.context.app.shape_of(name.as_slice()) {
        Some(display) if display.parameters.len() == values.len() => {
            let scope = Scope::Parameters(&display.parameters, &*values);
            let inner = Ground {
                place: Place {
                    here: Standpoint {
                        scope: &scope,
                        ..ground.place.here
                    },
                    ..ground.place
                },
                old: ground.old,
            };
            redraw_all(&inner, display.body.as_slice(), drawing, meter, tally)
        }
        _ => Err(Stop::Trap(1)),
    }
}

// The forms with this number more at the margin.
#[cycle(redraw)]
fn redraw_indented<T: Types>(
    ground: &Ground<'_, '_, '_, T>,
    number: &Value,
    body: &[Shape],
    drawing: &mut Drawing,
    meter: &mut Meter,
    tally: &mut Tally,
) -> Result<(), Stop>
    requires depth { ground.now.place.here.level + ground.now.place.here.left ≤ 512 }
    requires reusable { IsReusableOver T.holds T.presents ground.now }
    requires own { AreOwn (scene_at T.holds T.presents ground.now.place).app (shape_trees_of body.now) }
    ensures { Redraws ground.now.old.now result (drawing_of drawing.new) meter.old.cost meter.new tally.old tally.new
        (draw_from T.holds T.presents ground.now.place within (shape_trees_of body.now)
        (indent (data_of number.now) (drawing_of drawing.old))
        (restore_margin (drawing_of drawing.old).ambient) meter.old.cost meter.old.deepest) }
{
    let before = drawing.ambient;
    drawing.indent(number)?;
    redraw_all(ground, body, drawing, meter, tally)?;
    drawing.restore_margin(&before);
    Ok(())
}

// The forms in this ink.
#[cycle(redraw)]
fn redraw_in_ink<T: Types>(
    ground: &Ground<'_, '_, '_, T>,
    number: &Value,
    body: &[Shape],
    drawing: &mut Drawing,
    meter: &mut Meter,
    tally: &mut Tally,
) -> Result<(), Stop>
    requires depth { ground.now.place.here.level + ground.now.place.here.left ≤ 512 }
    requires reusable { IsReusableOver T.holds T.presents ground.now }
    requires own { AreOwn (scene_at T.holds T.presents ground.now.place).app (shape_trees_of body.now) }
    ensures { Redraws ground.now.old.now result (drawing_of drawing.new) meter.old.cost meter.new tally.old tally.new
        (draw_from T.holds T.presents ground.now.place within (shape_trees_of body.now)
        (set_ink (data_of number.now) (drawing_of drawing.old))
        (restore_ink (drawing_of drawing.old).ambient) meter.old.cost meter.old.deepest) }
{
    let before = drawing.ambient;
    drawing.set_ink(number)?;
    redraw_all(ground, body, drawing, meter, tally)?;
    drawing.restore_ink(&before);
    Ok(())
}

// The forms in a room.
#[cycle(redraw)]
fn redraw_in_room<T: Types>(
    ground: &Ground<'_, '_, '_, T>,
    body: &[Shape],
    drawing: &mut Drawing,
    meter: &mut Meter,
    tally: &mut Tally,
) -> Result<(), Stop>
    requires depth { ground.now.place.here.level + ground.now.place.here.left ≤ 512 }
    requires reusable { IsReusableOver T.holds T.presents ground.now }
    requires own { AreOwn (scene_at T.holds T.presents ground.now.place).app (shape_trees_of body.now) }
    ensures { Redraws ground.now.old.now result (drawing_of drawing.new) meter.old.cost meter.new tally.old tally.new
        (draw_from T.holds T.presents ground.now.place draws_to (shape_trees_of body.now)
        (leave_room (drawing_of drawing.old).ambient (drawing_of drawing.old).part)
        (enter_room (drawing_of drawing.old)) meter.old.cost meter.old.deepest) }
{
    let outer = drawing.enter_room(ground.place.here.context.alloc);
    redraw_all(ground, body, drawing, meter, tally)?;
    drawing.leave_room(outer)
}

// The forms as what presents an object, where that is a member of its type.
#[cycle(redraw)]
fn redraw_presented<T: Types>(
    ground: &Ground<'_, '_, '_, T>,
    object: Value,
    presentation: &Presentation,
    body: &Shapes,
    drawing: &mut Drawing,
    meter: &mut Meter,
    tally: &mut Tally,
) -> Result<(), Stop>
    requires depth { ground.now.place.here.level + ground.now.place.here.left ≤ 512 }
    requires reusable { IsReusableOver T.holds T.presents ground.now }
    requires own { AreOwn (scene_at T.holds T.presents ground.now.place).app (shape_trees_of body.now) }
    ensures { Redraws ground.now.old.now result (drawing_of drawing.new) meter.old.cost meter.new tally.old tally.new
        (for_members (T.holds ground.now.place.types.now) presentation.now.spec (data_of object)
        (draw_from T.holds T.presents ground.now.place (presents_body ground.now.place.max_weight) presentation.now (shape_trees_of body.now)
        (drawing_of drawing.old) (data_of object)) meter.old.cost meter.old.deepest) }
{
    let alloc = ground.place.here.context.alloc;
    check_member(ground.place.types, &object, presentation.spec())?;
    let outer = drawing.enter_presentation(alloc, ground.place.max_weight, &object)?;
    redraw_all(ground, body.as_slice(), drawing, meter, tally)?;
    let spec = presentation.spec().clone()?;
    let label = Label::new(object, spec, presentation.is_single_box());
    drawing.leave_presentation(alloc, label, outer)
}
