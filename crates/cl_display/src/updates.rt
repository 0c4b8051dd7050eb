//! Updates: their ids and caches, the opening, and the end, after the CLIM II specification's `updating-output`.
ghost use Rattle.std.specs.Prelude.{◌≡◌, ◌+◌, ◌<◌, ◌≤◌, ◌^◌, IfOk, MatchOption, Ok};
ghost use Rattle.cl_value.specs.Value.{data_of};
ghost use Rattle.cl_eval.specs.Agrees.{Agrees, Comes, always, itself};
ghost use Rattle.cl_eval.specs.Standpoint.{seen_from};
ghost use Rattle.cl_medium.specs.Items.{item_bounds, move_item};
ghost use Rattle.cl_record.specs.Ranges.{IsMeasured};
ghost use Rattle.cl_record.specs.Trees.{trees_of};
ghost use Rattle.cl_display.specs.Drawings.{drawing_of, part_of};
ghost use Rattle.cl_display.specs.Updates.{IsAround, cache_of, enter_body, enter_update, head_at, id_of, key_of, key_weight, leave_update, updated_part};

use crate::drawings::{Drawing, heavier};
use crate::parts::Part;
use crate::siblings::Siblings;
use cl_eval::{Meter, Standpoint, Stop, evaluate, evaluate_each};
use cl_medium::Ambient;
use cl_outside::{Ledger, Steps};
use cl_record::{Head, Measures, Node, Nodes};
use cl_syntax::{Site, Update};
use cl_value::{Value, Values};
use std::alloc::{AllocError, Global};

/// The site of an update, the value of its id, and those of the paths of its cache, if it has one.
#[derive(Drop)]
pub struct Key {
    pub site: Site,
    pub id: Value,
    pub cache: Option<Values>,
}

impl Key {
    // What the opening weighs; `None` where no number holds it.
    fn weight(&self) -> Option<u64>
        ensures { MatchOption result (2 ^ 64 ≤ key_weight (key_of self.now))
            (λ weight. weight ≡ key_weight (key_of self.now)) }
    {
        let cache = match &self.cache {
            Some(values) => values.size().checked_add(1)?,
            None => 0,
        };
        self.id.size().checked_add(cache)?.checked_add(1)
    }

    // What the update says of itself, whose body was drawn from there.
    fn into_head(self, start: Ambient, end: &Drawing, own: &Meter) -> Head
        ensures { result ≡ head_at (key_of self) start (drawing_of end.now) own.now.cost own.now.deepest }
    {
        let measures = Measures {
            cost: own.cost,
            reach: own.deepest,
            weight: end.weight,
            extent: end.part.extent.corners(),
            margin_used: end.part.margin_used,
            origin_used: end.part.origin_used,
            start,
            end_x: end.ambient.x,
            end_y: end.ambient.y,
        };
        Head::new(self.site, self.id, self.cache, measures)
    }
}

impl Part {
    // Seen from outside: what was drawn in it is an update.
    fn updated(self, alloc: Global, head: Head) -> Result<Part, AllocError>
        requires { IsMeasured item_bounds move_item head (trees_of self.nodes) }
        ensures { IfOk result (λ p. part_of p ≡ updated_part head (part_of self)) }
    {
        let mut nodes = Nodes::new(alloc);
        nodes.push(Node::update(alloc, head, self.nodes)?)?;
        Ok(Part { nodes, ..self })
    }
}

impl Drawing {
    /// Opens an update with this key, where there is none yet of its site and id at the level, and all together does not weigh more
    /// than the most.
    pub fn enter_update(&mut self, alloc: Global, most: u64, key: &Key) -> Result<(), Stop>
        ensures { Comes (always (drawing_of self.new)) result
            (enter_update most (key_of key.now) (drawing_of self.old)) }
    {
        if self.siblings.is_taken(key.site, &key.id) {
            return Err(Stop::Trap(8));
        }
        let Some(weight) = key.weight() else {
            return Err(Stop::Trap(10));
        };
        let Some(whole) = heavier(most, self.weight, weight) else {
            return Err(Stop::Trap(10));
        };
        self.siblings.note(alloc, key.site, key.id.copy()?)?;
        self.weight = whole;
        Ok(())
    }

    /// A drawing in which nothing is drawn yet, from the same state.
    pub fn enter_body(&self, alloc: Global) -> Drawing
        ensures { drawing_of result ≡ enter_body (drawing_of self.now) }
    {
        Drawing {
            ambient: self.ambient,
            weight: 0,
            siblings: Siblings::new(alloc),
            part: Part::start(alloc, &self.ambient),
        }
    }

    /// Ends the update with this key, whose body came to this: the cursor stands where the body left it, and what was drawn in it
    /// stands behind the rest.
    pub fn leave_update(
        &mut self,
        alloc: Global,
        key: Key,
        inner: Drawing,
        own: &Meter,
    ) -> Result<(), Stop>
        requires around { IsAround (drawing_of self.old) (drawing_of inner) }
        requires light { self.old.weight + inner.weight < 2 ^ 64 }
        ensures { Comes (always (drawing_of self.new)) result (Ok (leave_update
            (head_at (key_of key) (drawing_of self.old).ambient (drawing_of inner) own.now.cost own.now.deepest) (part_of inner.part)
            (drawing_of self.old))) }
    {
        let head = key.into_head(self.ambient, &inner, own);
        let part = inner.part.updated(alloc, head)?;
        self.part.join(part)?;
        self.weight += inner.weight;
        self.ambient = Ambient {
            x: inner.ambient.x,
            y: inner.ambient.y,
            ..self.ambient
        };
        Ok(())
    }
}

/// The value of an update's id; without an expression it is the number of its site's updates so far at the level.
pub fn evaluate_id<L: Ledger>(
    here: &Standpoint<'_>,
    siblings: &Siblings,
    update: &Update,
    meter: &mut Meter,
    steps: &mut Steps<L>,
) -> Result<Value, Stop>
    requires { here.now.level + here.now.left < 2 ^ 32 }
    ensures meaning { Agrees data_of result meter.new
        (seen_from here.now id_of siblings.now update.now.site update.now.id meter.old.cost meter.old.deepest) }
    ensures ledger { steps.new + meter.old.cost ≡ steps.old + meter.new.cost }
{
    match update.id() {
        Some(id) => evaluate(here, id, meter, steps),
        None => Ok(Value::Int(siblings.count_at(update.site()) as i64)),
    }
}

/// The values of the paths of an update's cache, if it has one.
pub fn evaluate_cache<L: Ledger>(
    here: &Standpoint<'_>,
    update: &Update,
    meter: &mut Meter,
    steps: &mut Steps<L>,
) -> Result<Option<Values>, Stop>
    requires { here.now.level + here.now.left < 2 ^ 32 }
    ensures meaning { Agrees itself result meter.new
        (seen_from here.now cache_of update.now.cache meter.old.cost meter.old.deepest) }
    ensures ledger { steps.new + meter.old.cost ≡ steps.old + meter.new.cost }
{
    let Some(paths) = update.cache() else {
        return Ok(None);
    };
    let values = evaluate_each(here, paths, meter, steps)?;
    Ok(Some(Values::from_vec(here.context.alloc, values)?))
}
