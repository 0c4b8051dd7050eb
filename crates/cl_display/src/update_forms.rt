//! What an update draws: its body is a draw of its own.
ghost use Rattle.std.specs.Prelude.{◌≡◌, ◌+◌, ◌≤◌};
ghost use Rattle.cl_syntax.specs.ShapeTree.{shape_trees_of};
ghost use Rattle.cl_eval.specs.Scope.{variables_of};
ghost use Rattle.cl_eval.specs.Standpoint.{meaning_at};
ghost use Rattle.cl_eval.specs.Agrees.{Agrees, always};
ghost use Rattle.cl_display.specs.Drawings.{drawing_of};
ghost use Rattle.cl_display.specs.Fresh.{draws_keyed, draws_update};
ghost use Rattle.cl_display.specs.Updates.{key_of};
ghost use Rattle.cl_display.specs.Place.{allowance_at, bodies_at};

use crate::drawings::Drawing;
use crate::forms::draw_all;
use crate::places::Place;
use crate::updates::{Key, evaluate_cache, evaluate_id};
use cl_eval::{Context, Meter, Standpoint, Stop, Types};
use cl_outside::{Ledger, Steps};
use cl_syntax::{Shape, Update};

// An update, by its id and its cache.
#[cycle(draw)]
pub(crate) fn draw_update<T: Types, L: Ledger>(
    place: &Place<'_, T>,
    update: &Update,
    body: &[Shape],
    drawing: &mut Drawing,
    meter: &mut Meter,
    steps: &mut Steps<L>,
) -> Result<(), Stop>
    requires { place.now.here.level + place.now.here.left ≤ 512 }
    ensures meaning { Agrees (always (drawing_of drawing.new)) result meter.new
        (draws_update (allowance_at place.now) (meaning_at place.now.here) (bodies_at T.holds T.presents place.now) place.now.here.level
        (variables_of place.now.here.scope.now) update.now (shape_trees_of body.now) (drawing_of drawing.old) meter.old.cost
        meter.old.deepest).outcome }
    ensures ledger { steps.new + meter.old.cost ≡ steps.old + meter.new.cost }
{
    let id = evaluate_id(&place.here, &drawing.siblings, update, meter, steps)?;
    let cache = evaluate_cache(&place.here, update, meter, steps)?;
    let site = update.site();
    draw_keyed(place, Key { site, id, cache }, body, drawing, meter, steps)
}

// An update with this key: its body is a draw of its own, with what is left of the limits.
#[cycle(draw)]
fn draw_keyed<T: Types, L: Ledger>(
    place: &Place<'_, T>,
    key: Key,
    body: &[Shape],
    drawing: &mut Drawing,
    meter: &mut Meter,
    steps: &mut Steps<L>,
) -> Result<(), Stop>
    requires { place.now.here.level + place.now.here.left ≤ 512 }
    ensures meaning { Agrees (always (drawing_of drawing.new)) result meter.new
        (draws_keyed (allowance_at place.now) (bodies_at T.holds T.presents place.now) place.now.here.level
        (variables_of place.now.here.scope.now) (shape_trees_of body.now) (drawing_of drawing.old) (key_of key) meter.old.cost
        meter.old.deepest).outcome }
    ensures ledger { steps.new + meter.old.cost ≡ steps.old + meter.new.cost }
{
    let context = place.here.context;
    drawing.enter_update(context.alloc, place.max_weight, &key)?;
    let left = Context {
        budget: context.budget.saturating_sub(meter.cost),
        ..*context
    };
    let inside = Place {
        here: Standpoint {
            context: &left,
            level: 0,
            ..place.here
        },
        max_weight: place.max_weight.saturating_sub(drawing.weight),
        ..*place
    };
    let mut inner = drawing.enter_body(context.alloc);
    let mut own = Meter::new();
    let drawn = draw_all(&inside, body, &mut inner, &mut own, steps);
    meter.cost += own.cost;
    drawn?;
    meter.deepest = meter.deepest.max(place.here.level + own.deepest);
    drawing.leave_update(context.alloc, key, inner, &own)
}
