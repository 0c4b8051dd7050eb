//! Evaluation of display forms.
ghost use Rattle.std.specs.Prelude.{◌≡◌, ◌≤◌, IfOk};
ghost use Rattle.cl_eval.specs.Outcome.{RisesBy, cost_of};
ghost use Rattle.cl_medium.specs.Items.{move_item};
ghost use Rattle.cl_record.specs.Marks.{history_marks};
ghost use Rattle.cl_display.specs.Script.{fresh, scene_of, trap_history};
ghost use Rattle.cl_display.specs.Agrees.{IsFew, Shows, met_memory};

use crate::drawings::{Drawing, MAX_WEIGHT};
use crate::forms::draw_all;
use crate::histories::History;
use crate::parts::push_leaf;
use crate::places::Place;
use cl_eval::{Context, Env, Meter, Program, Scope, Slots, Standpoint, Stop, Types};
use cl_medium::{Ambient, Drawn, draw_text};
use cl_outside::{Ledger, Steps};
use cl_record::Nodes;
use cl_syntax::Shape;
use cl_value::Text;
use std::alloc::{AllocError, Global};

/// What the evaluation of a display gives.
#[derive(Drop)]
pub enum Shown {
    /// The history of the whole display.
    Built(History),
    /// The one item of a display that trapped, and the kind of the trap.
    Trapped(History, u8),
    /// There was no memory.
    Memory,
}

/// Evaluates display forms of a program once, from nothing, with these variables and slots, within the limits of the program. Each
/// form that is entered is a step.
#[tactic(auto, unfolding(crate::specs::Script::fresh))]
pub fn display<T: Types, L: Ledger>(
    program: &Program<'_, T>,
    forms: &[Shape],
    env: &Env,
    slots: &Slots,
    steps: &mut Steps<L>,
) -> Shown
    requires { program.now.limits.depth ≤ 512 }
    ensures shows { Shows result
        (fresh program.now.limits (scene_of T.holds T.presents program.now slots.now) forms.now env.now).outcome }
    ensures few { IsFew result }
    ensures ledger { RisesBy (met_memory result) steps.old steps.new
        (cost_of (fresh program.now.limits (scene_of T.holds T.presents program.now slots.now) forms.now env.now).outcome) }
{
    let alloc = program.alloc;
    let context = Context {
        alloc,
        app: program.app,
        slots,
        budget: program.limits.budget,
    };
    let mut meter = Meter::new();
    let mut drawing = Drawing::blank(alloc);
    let scope = Scope::Given(env);
    let place = Place {
        here: Standpoint {
            context: &context,
            scope: &scope,
            left: program.limits.depth,
            level: 0,
        },
        types: program.types,
        max_weight: MAX_WEIGHT,
    };
    match draw_all(&place, forms, &mut drawing, &mut meter, steps) {
        Ok(()) => Shown::Built(History::from_nodes(drawing.part.nodes)),
        Err(Stop::Trap(kind)) => match trapped(alloc, kind) {
            Ok(history) => Shown::Trapped(history, kind),
            Err(_) => Shown::Memory,
        },
        Err(Stop::Memory) => Shown::Memory,
    }
}

/// The history of a display that trapped: one text in the corner, which tells the kind of the trap.
pub fn trapped(alloc: Global, kind: u8) -> Result<History, AllocError>
    ensures { IfOk result (λ h. history_marks move_item h ≡ trap_history kind) }
{
    let message = format!(in alloc; "trap {kind}")?;
    let text = Text::from_slice(alloc, message.as_bytes())?;
    let mut ambient = Ambient::start();
    let Drawn::Item(leaf) = draw_text(&mut ambient, &text) else {
        return Err(AllocError);
    };
    let mut nodes = Nodes::new(alloc);
    push_leaf(&mut nodes, leaf)?;
    Ok(History::from_nodes(nodes))
}
