//! Updates that are drawn over old records: one that may be kept is kept, and the body of any other one is drawn over what the old one holds.
ghost use Rattle.std.specs.Prelude.{◌≡◌, ◌+◌, ◌≤◌, Some};
ghost use Rattle.cl_value.specs.Value.{data_of};
ghost use Rattle.cl_region.specs.Places.{IsInRange, move_rect};
ghost use Rattle.cl_syntax.specs.ShapeTree as shape;
ghost use Rattle.cl_syntax.specs.ShapeTree.{shape_trees_of};
ghost use Rattle.cl_eval.specs.Scope.{variables_of};
ghost use Rattle.cl_eval.specs.Standpoint.{meaning_at};
ghost use Rattle.cl_display.specs.Drawings.{drawing_of};
ghost use Rattle.cl_display.specs.Fresh.{draws_body, draws_keyed, draws_update};
ghost use Rattle.cl_display.specs.Place.{allowance_at, bodies_at, scene_at};
ghost use Rattle.cl_display.specs.Updates.{end_update, key_of};
ghost use Rattle.cl_reuse.specs.Kept.{found};
ghost use Rattle.cl_reuse.specs.Sited.{AreOwn};
ghost use Rattle.cl_record.specs.Trees.{trees_of};
ghost use Rattle.cl_updating.specs.Levels.{kept_from, old_of};
ghost use Rattle.cl_updating.specs.Tallies.{kept_anew};
ghost use Rattle.cl_updating.specs.Redraws.{IsOwn, IsOwnBody, IsReusable, IsReusableOver, Redraws, Redrawn, body_over, scene_over};

use crate::grounds::Ground;
use crate::keeping::keep_update;
use crate::levels::{Level, Old};
use crate::openings::Opening;
use crate::redrawing::redraw_all;
use crate::tallies::Tally;
use cl_display::{Drawing, Key, Place, evaluate_cache, evaluate_id};
use cl_eval::{Context, Meter, Standpoint, Stop, Types};
use cl_syntax::{Shape, Update};

// An update, by its id and its cache.
#[cycle(redraw)]
pub(crate) fn redraw_update<T: Types>(
    ground: &Ground<'_, '_, '_, T>,
    update: &Update,
    body: &[Shape],
    drawing: &mut Drawing,
    meter: &mut Meter,
    tally: &mut Tally,
) -> Result<(), Stop>
    requires depth { ground.now.place.here.level + ground.now.place.here.left ≤ 512 }
    requires reusable { IsReusableOver T.holds T.presents ground.now }
    requires own { IsOwn (scene_at T.holds T.presents ground.now.place).app (shape.Update update.now (shape_trees_of body.now)) }
    ensures { Redraws ground.now.old.now result (drawing_of drawing.new) meter.old.cost meter.new tally.old tally.new
        (draws_update (allowance_at ground.now.place) (meaning_at ground.now.place.here) (bodies_at T.holds T.presents ground.now.place) ground.now.place.here.level
        (variables_of ground.now.place.here.scope.now) update.now (shape_trees_of body.now) (drawing_of drawing.old) meter.old.cost meter.old.deepest) }
{
    let here = &ground.place.here;
    let id = evaluate_id(here, &drawing.siblings, update, meter, &mut tally.steps)?;
    let cache = evaluate_cache(here, update, meter, &mut tally.steps)?;
    let site = update.site();
    redraw_keyed(ground, Key { site, id, cache }, body, drawing, meter, tally)
}

// An update with this key: what stands there of the level is found by it.
#[cycle(redraw)]
fn redraw_keyed<T: Types>(
    ground: &Ground<'_, '_, '_, T>,
    key: Key,
    body: &[Shape],
    drawing: &mut Drawing,
    meter: &mut Meter,
    tally: &mut Tally,
) -> Result<(), Stop>
    requires depth { ground.now.place.here.level + ground.now.place.here.left ≤ 512 }
    requires reusable { IsReusableOver T.holds T.presents ground.now }
    requires own { IsOwnBody T.holds T.presents ground.now (key_of key) (shape_trees_of body.now) }
    ensures { Redraws ground.now.old.now result (drawing_of drawing.new) meter.old.cost meter.new tally.old tally.new
        (draws_keyed (allowance_at ground.now.place) (bodies_at T.holds T.presents ground.now.place) ground.now.place.here.level
        (variables_of ground.now.place.here.scope.now) (shape_trees_of body.now) (drawing_of drawing.old) (key_of key) meter.old.cost meter.old.deepest) }
{
    let alloc = ground.place.here.context.alloc;
    drawing.enter_update(alloc, ground.place.max_weight, &key)?;
    match ground.old.find(key.site, &key.id) {
        Some(old) => redraw_over(ground, &old, key, body, drawing, meter, tally),
        None => {
            let below = Level::none(alloc);
            redraw_body(ground, &below, key, body, drawing, meter, tally)
        }
    }
}

// An update that was opened, over the old one with its site and its id.
#[cycle(redraw)]
#[inline(never)]
fn redraw_over<T: Types>(
    ground: &Ground<'_, '_, '_, T>,
    old: &Old<'_>,
    key: Key,
    body: &[Shape],
    drawing: &mut Drawing,
    meter: &mut Meter,
    tally: &mut Tally,
) -> Result<(), Stop>
    requires depth { ground.now.place.here.level + ground.now.place.here.left ≤ 512 }
    requires reusable { IsReusableOver T.holds T.presents ground.now }
    requires own { IsOwnBody T.holds T.presents ground.now (key_of key) (shape_trees_of body.now) }
    requires found { found key.site (data_of key.id) ground.now.old.now.at (trees_of ground.now.old.now.old) ≡ Some (old_of old.now) }
    requires range { IsInRange (move_rect old.now.place old.now.piece.now.head.measures.extent) }
    ensures { Redraws ground.now.old.now result (drawing_of drawing.new) meter.old.cost meter.new tally.old tally.new
        (draws_body (allowance_at ground.now.place) (bodies_at T.holds T.presents ground.now.place) ground.now.place.here.level
        (variables_of ground.now.place.here.scope.now) (shape_trees_of body.now) (key_of key) (drawing_of drawing.old) meter.old.cost meter.old.deepest) }
{
    let here = &ground.place.here;
    let opening = Opening {
        key: &key,
        ambient: drawing.ambient,
        budget: here.context.budget.saturating_sub(meter.cost),
        weight: ground.place.max_weight.saturating_sub(drawing.weight),
        depth: here.left,
    };
    if opening.may_keep(old.piece) {
        return keep_update(here.level, old, &opening, drawing, meter, tally);
    }
    let below = old.level(here.context.alloc)?;
    redraw_body(ground, &below, key, body, drawing, meter, tally)
}

// An update that was opened, whose body is a draw of its own over these records, with what is left of the limits.
#[cycle(redraw)]
#[inline(never)]
fn redraw_body<T: Types>(
    ground: &Ground<'_, '_, '_, T>,
    below: &Level<'_>,
    key: Key,
    body: &[Shape],
    drawing: &mut Drawing,
    meter: &mut Meter,
    tally: &mut Tally,
) -> Result<(), Stop>
    requires depth { ground.now.place.here.level + ground.now.place.here.left ≤ 512 }
    requires reusable { IsReusableOver T.holds T.presents ground.now }
    requires own { IsOwnBody T.holds T.presents ground.now (key_of key) (shape_trees_of body.now) }
    requires below { IsReusable (scene_over T.holds T.presents ground.now).app (scene_over T.holds T.presents ground.now).types below.now }
    ensures { Redrawn (kept_anew (kept_from below.now
        (body_over T.holds T.presents ground.now (shape_trees_of body.now) (drawing_of drawing.old) meter.old.cost).walk))
        result (drawing_of drawing.new) meter.old.cost meter.new tally.old tally.new (end_update (key_of key) ground.now.place.here.level (drawing_of drawing.old)
        (body_over T.holds T.presents ground.now (shape_trees_of body.now) (drawing_of drawing.old) meter.old.cost).outcome meter.old.cost meter.old.deepest) }
{
    let context = ground.place.here.context;
    let left = Context {
        budget: context.budget.saturating_sub(meter.cost),
        ..*context
    };
    let inside = Ground {
        place: Place {
            here: Standpoint {
                context: &left,
                level: 0,
                ..ground.place.here
            },
            max_weight: ground.place.max_weight.saturating_sub(drawing.weight),
            ..ground.place
        },
        old: below,
    };
    let mut inner = drawing.enter_body(context.alloc);
    let mut own = Meter::new();
    let outer = tally.enter(context.alloc);
    match redraw_all(&inside, body, &mut inner, &mut own, tally) {
        Ok(()) => {
            tally.leave(outer)?;
            meter.cost += own.cost;
            meter.deepest = meter.deepest.max(ground.place.here.level + own.deepest);
            drawing.leave_update(context.alloc, key, inner, &own)
        }
        Err(Stop::Trap(kind)) => {
            meter.cost += own.cost;
            Err(tally.leave_trapped(outer, kind))
        }
        Err(Stop::Memory) => Err(Stop::Memory),
    }
}
