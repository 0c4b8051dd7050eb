//! Answers the questions on an application.
ghost use Rattle.cl_reuse.specs.Recorded.{IsFaithfulHistory};
ghost use Rattle.cl_load.specs.Types.{holds_in};
ghost use Rattle.cl_loaded.specs.Texts.{texts_in};
ghost use Rattle.cl_updating.specs.Redisplays.{CanReuse, IsFaithfulOf};

use crate::counting::Counting;
use crate::faults::Fault;
use crate::questions::{Question, Sheet};
use cl_application::{App, CommandDecl, PaneDecl};
use cl_display::History;
use cl_eval::{Env, Executed, Limits, Program, Slots, Types, exec};
use cl_host::{month_number, shipped_types, weekday_number};
use cl_load::{Loaded, load};
use cl_outside::own_steps;
use cl_ptext::{HostTypes, Hosts, TypeBook};
use cl_updating::{Redisplayed, redisplay};
use std::alloc::Global;

// The limits of the program's own runs.
const LIMITS: Limits = Limits {
    budget: 1_000_000,
    depth: 512,
};

/// The answers to the questions of a sheet, two lines each.
pub fn answer_sheet(alloc: Global, sheet: &Sheet) -> Result<String, Fault> {
    let day = Box::new(alloc, |text: &[u8]| weekday_number(text))?;
    let month = Box::new(alloc, |text: &[u8]| month_number(text))?;
    let types = shipped_types(alloc, day, month)?;
    answer_loaded(alloc, sheet, &HostTypes { types: &types })
}

// The same, where these are the host types.
fn answer_loaded<H: Hosts>(alloc: Global, sheet: &Sheet, hosts: &H) -> Result<String, Fault> {
    let loaded = load(alloc, sheet.application.as_bytes(), hosts)?;
    answer_on_types(alloc, &loaded, hosts, sheet.questions.as_slice())
}

// The answers to questions on an application, by its own types.
fn answer_on_types<H: Hosts>(
    alloc: Global,
    loaded: &Loaded,
    hosts: &H,
    questions: &[Question],
) -> Result<String, Fault>
    requires { CanReuse loaded.now.app (record {
      holds = holds_in loaded.now.lattice loaded.now.app;
      presents = texts_in (H.entries hosts.now) loaded.now.lattice loaded.now.app;
    }) }
{
    let types = TypeBook::new(alloc, &loaded.app, &loaded.lattice, hosts);
    answer_all(alloc, &loaded.app, &types, &loaded.slots, questions)
}

// The answers to questions on an application, on its opening slots.
fn answer_all<T: Types>(
    alloc: Global,
    app: &App,
    types: &T,
    slots: &Slots,
    questions: &[Question],
) -> Result<String, Fault>
    requires { CanReuse app.now (record { holds = T.holds types.now; presents = T.presents types.now }) }
{
    let mut answers = String::new(alloc);
    for question in questions {
        answer(alloc, app, types, slots, question, &mut answers)?;
    }
    Ok(answers)
}

// The two answers to a question, on these opening slots: over the history that the pane had, and over none.
fn answer<T: Types>(
    alloc: Global,
    app: &App,
    types: &T,
    slots: &Slots,
    question: &Question,
    answers: &mut String,
) -> Result<(), Fault>
    requires { CanReuse app.now (record { holds = T.holds types.now; presents = T.presents types.now }) }
{
    let (Some(pane), Some(command)) = (
        app.pane(question.pane.as_bytes()),
        app.command(question.command.as_bytes()),
    ) else {
        return Err(Fault::Wrong);
    };
    let later = slots_after(alloc, app, types, slots, command)?;
    let nothing = History::empty(alloc);
    let first = drawn_over(alloc, app, types, pane, slots, &nothing);
    let old = match first.shown {
        Redisplayed::Built(history, _reuse, _keeps) => history,
        Redisplayed::Trapped(history, _) => history,
        Redisplayed::Memory => return Err(Fault::Memory),
    };
    let over = drawn_over(alloc, app, types, pane, &later, &old);
    over.say("over", old.count(), answers)?;
    let anew = drawn_over(alloc, app, types, pane, &later, &nothing);
    anew.say("anew", 0, answers)
}

// The slots after the body of a command without arguments.
fn slots_after<T: Types>(
    alloc: Global,
    app: &App,
    types: &T,
    slots: &Slots,
    command: &CommandDecl,
) -> Result<Slots, Fault> {
    let program = Program {
        alloc,
        app,
        types,
        limits: LIMITS,
    };
    match exec(
        &program,
        &command.body,
        &Env::new(alloc),
        slots,
        &mut own_steps(),
    ) {
        Executed::Done(effects, _) => Ok(effects.slots),
        Executed::Trap(..) => Err(Fault::Wrong),
        Executed::Memory => Err(Fault::Memory),
    }
}

// What a display gave, its steps, and how often it asked for members and for texts.
#[derive(Drop)]
struct Drawn {
    shown: Redisplayed,
    steps: u64,
    members: u64,
    texts: u64,
}

// The display of a pane over an old history.
fn drawn_over<T: Types>(
    alloc: Global,
    app: &App,
    types: &T,
    pane: &PaneDecl,
    slots: &Slots,
    old: &History,
) -> Drawn
    requires reuse { CanReuse app.now (record { holds = T.holds types.now; presents = T.presents types.now }) }
    requires faithful { IsFaithfulHistory app.now (record { holds = T.holds types.now; presents = T.presents types.now }) old.now }
    ensures { IsFaithfulOf app.now (record { holds = T.holds types.now; presents = T.presents types.now }) result.shown }
{
    let counting = Counting::new(types);
    let program = Program {
        alloc,
        app,
        types: &counting,
        limits: LIMITS,
    };
    let mut steps = own_steps();
    let forms = app.forms_of(pane);
    let env = Env::new(alloc);
    let shown = redisplay(&program, forms, &env, slots, old, &mut steps);
    Drawn {
        shown,
        steps: steps.ledger().seen(),
        members: counting.members(),
        texts: counting.texts(),
    }
}

impl Drawn {
    // The line of it, behind a word, where the old history drew so many items.
    fn say(&self, word: &str, old: u64, answers: &mut String) -> Result<(), Fault> {
        match &self.shown {
            Redisplayed::Built(history, reuse, _) => write!(
                answers,
                "{word} kept {} moved {} drawn {} erased {}",
                reuse.kept,
                reuse.moved,
                history.count().saturating_sub(reuse.items),
                old.saturating_sub(reuse.items)
            )?,
            Redisplayed::Trapped(_, kind) => write!(answers, "{word} trap {kind}")?,
            Redisplayed::Memory => return Err(Fault::Memory),
        }
        write!(
            answers,
            " steps {} members {} texts {}\n",
            self.steps, self.members, self.texts
        )?;
        Ok(())
    }
}
