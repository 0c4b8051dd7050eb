//! Displays over old histories, after the CLIM II specification's incremental redisplay.
ghost use Rattle.std.specs.Prelude.{◌≡◌, ◌≤◌};
ghost use Rattle.cl_syntax.specs.ShapeTree.{shape_trees_of};
ghost use Rattle.cl_eval.specs.Outcome.{RisesBy};
ghost use Rattle.cl_medium.specs.Items.{move_item};
ghost use Rattle.cl_record.specs.Marks.{history_marks};
ghost use Rattle.cl_record.specs.Shifts.{still};
ghost use Rattle.cl_record.specs.Trees.{trees_of};
ghost use Rattle.cl_display.specs.Script.{fresh, scene_of};
ghost use Rattle.cl_reuse.specs.Kept.{work};
ghost use Rattle.cl_reuse.specs.Records.{kept_among, records_of};
ghost use Rattle.cl_reuse.specs.Recorded.{IsFaithfulHistory};
ghost use Rattle.cl_reuse.specs.Sited.{AreOwn};
ghost use Rattle.cl_untouched.specs.Keeps.{keeps_of};
ghost use Rattle.cl_updating.specs.Redisplays.{CanReuse, HasKeeps, IsBuilt, IsFaithfulOf, IsFewOf, IsOnceOf, IsTrapped, Redisplays, met_memory};

use crate::grounds::Ground;
use crate::levels::Level;
use crate::redrawing::redraw_all;
use crate::tallies::Tally;
use cl_damage::Keeps;
use cl_display::{Drawing, History, MAX_WEIGHT, Place, trapped};
use cl_eval::{Context, Env, Meter, Program, Scope, Slots, Standpoint, Stop, Types};
use cl_outside::{Ledger, Steps};
use cl_syntax::Shape;
use std::alloc::Global;

/// How many updates of an old history were kept where they stood, how many were moved, and how many items these hold.
#[derive(Clone, Copy, PartialEq, Eq, Debug)]
pub struct Reuse {
    pub kept: u64,
    pub moved: u64,
    pub items: u64,
}

/// What a display over an old history gives.
#[derive(Drop)]
pub enum Redisplayed {
    /// The history of the whole display, how much it kept, and what, level by level.
    Built(History, Reuse, Keeps),
    /// The one item of a display that trapped, and the kind of the trap.
    Trapped(History, u8),
    /// There was no memory.
    Memory,
}

/// Evaluates display forms of a program on these variables and slots, within the limits of the program, over an old history of them:
/// what may be kept of it is kept, and all else is drawn anew. The steps are those of what is drawn anew; where there was no memory, no more
/// than these are counted.
pub fn redisplay<T: Types, L: Ledger>(
    program: &Program<'_, T>,
    forms: &[Shape],
    env: &Env,
    slots: &Slots,
    old: &History,
    steps: &mut Steps<L>,
) -> Redisplayed
    requires depth { program.now.limits.depth ≤ 512 }
    requires reuse { CanReuse program.now.app.now (scene_of T.holds T.presents program.now slots.now).types }
    requires own { AreOwn program.now.app.now (shape_trees_of forms.now) }
    requires faithful { IsFaithfulHistory program.now.app.now (scene_of T.holds T.presents program.now slots.now).types old.now }
    ensures redisplays { Redisplays result (fresh program.now.limits (scene_of T.holds T.presents program.now slots.now) forms.now env.now).outcome
        (kept_among (history_marks move_item old.now) (fresh program.now.limits (scene_of T.holds T.presents program.now slots.now) forms.now env.now)) }
    ensures few { IsFewOf result }
    ensures faithful { IsFaithfulOf program.now.app.now (scene_of T.holds T.presents program.now slots.now).types result }
    ensures keeps { HasKeeps result (keeps_of still (trees_of old.now)
        (fresh program.now.limits (scene_of T.holds T.presents program.now slots.now) forms.now env.now).walk) }
    ensures once { IsOnceOf result }
    ensures ledger { RisesBy (met_memory result) steps.old steps.new
        (work (records_of (history_marks move_item old.now)) (fresh program.now.limits (scene_of T.holds T.presents program.now slots.now) forms.now env.now)) }
{
    let alloc = program.alloc;
    let Ok(level) = Level::of_history(alloc, old) else {
        return Redisplayed::Memory;
    };
    let context = Context {
        alloc,
        app: program.app,
        slots,
        budget: program.limits.budget,
    };
    let scope = Scope::Given(env);
    let ground = Ground {
        place: Place {
            here: Standpoint {
                context: &context,
                scope: &scope,
                left: program.limits.depth,
                level: 0,
            },
            types: program.types,
            max_weight: MAX_WEIGHT,
        },
        old: &level,
    };
    let mut drawing = Drawing::blank(alloc);
    let mut meter = Meter::new();
    let mut tally = Tally::new(alloc);
    match redraw_all(&ground, forms, &mut drawing, &mut meter, &mut tally) {
        Ok(()) => {
            tally.pass_on(&meter, steps);
            built(drawing, tally)
        }
        Err(Stop::Trap(kind)) => {
            tally.pass_on(&meter, steps);
            trapped_at(alloc, kind)
        }
        Err(Stop::Memory) => Redisplayed::Memory,
    }
}

// What was drawn to the end, and what was kept on the way.
fn built(drawing: Drawing, tally: Tally) -> Redisplayed
    ensures { IsBuilt result drawing tally }
{
    let nodes = drawing.part.nodes;
    // What the rows keep is known from here on.
    let _ = nodes.summary();
    let reuse = Reuse {
        kept: tally.kept,
        moved: tally.moved,
        items: tally.items,
    };
    Redisplayed::Built(History::from_nodes(nodes), reuse, tally.keeps)
}

// A display that trapped.
fn trapped_at(alloc: Global, kind: u8) -> Redisplayed
    ensures { IsTrapped result kind }
{
    match trapped(alloc, kind) {
        Ok(history) => {
            // What the rows keep is known from here on.
            let _ = history.nodes().summary();
            Redisplayed::Trapped(history, kind)
        }
        Err(_) => Redisplayed::Memory,
    }
}
