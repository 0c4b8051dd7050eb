//! Answers what is chosen at places.
use crate::faults::Fault;
use cl_application::App;
use cl_display::{History, Shown, display};
use cl_eval::{Env, Limits, Program, Types};
use cl_outside::own_steps;
use cl_print::put_value;
use cl_syntax::TypeSpec;
use cl_translate::{Choice, Chooser, Point};
use cl_translators::GestureName;
use cl_value::Text;
use std::alloc::Global;

/// The answers to questions, a line each. The display of a pane is evaluated once for all questions in a row that ask of it.
pub fn answer_all<T: Types>(chooser: &Chooser<'_, T>, questions: &[&str]) -> Result<String, Fault> {
    let mut answers = Vec::new(chooser.alloc);
    let mut shown = None;
    for question in questions {
        let asked = asked_of(question)?;
        let pane = match shown.take() {
            Some(pane) if is_pane(&pane, asked.pane) => pane,
            _other => pane_of(chooser, asked.pane)?,
        };
        answer(chooser, &pane, &asked, question, &mut answers)?;
        shown = Some(pane);
    }
    Ok(String::from_utf8_lossy(chooser.alloc, answers.as_slice())?)
}

/// A gesture at a place of a pane.
#[derive(Clone, Copy)]
struct Asked<'a> {
    pane: &'a str,
    gesture: GestureName,
    x: i64,
    y: i64,
}

/// A pane, and what its display draws.
#[derive(Drop)]
struct ShownPane {
    name: Text,
    history: History,
}

// `PANE GESTURE X Y CONTEXT ...`
fn asked_of<'a>(question: &'a str) -> Result<Asked<'a>, Fault> {
    let mut words = question.split(' ');
    let (Some(pane), Some(gesture), Some(x), Some(y)) = (
        words.next(),
        words.next(),
        words.next(),
        words.next(),
    ) else {
        return Err(Fault::Wrong);
    };
    Ok(Asked {
        pane,
        gesture: gesture_named(gesture)?,
        x: x.parse().map_err(|_| Fault::Wrong)?,
        y: y.parse().map_err(|_| Fault::Wrong)?,
    })
}

// The gesture of that name.
fn gesture_named(word: &str) -> Result<GestureName, Fault> {
    match word {
        "select" => Ok(GestureName::Select),
        "describe" => Ok(GestureName::Describe),
        "menu" => Ok(GestureName::Menu),
        "edit" => Ok(GestureName::Edit),
        "delete" => Ok(GestureName::Delete),
        _ => Err(Fault::Wrong),
    }
}

fn is_pane(pane: &ShownPane, name: &str) -> bool {
    pane.name.as_slice() == name.as_bytes()
}

// The words behind the fourth.
fn contexts_of(alloc: Global, app: &App, question: &str) -> Result<Vec<TypeSpec>, Fault> {
    let mut contexts = Vec::new(alloc);
    for word in question.split(' ').skip(4) {
        contexts.push(context_of(alloc, app, word)?)?;
    }
    Ok(contexts)
}

fn answer<T: Types>(
    chooser: &Chooser<'_, T>,
    pane: &ShownPane,
    asked: &Asked<'_>,
    question: &str,
    answers: &mut Vec<u8>,
) -> Result<(), Fault> {
    let contexts = contexts_of(chooser.alloc, chooser.app, question)?;
    let point = Point {
        pane: &pane.name,
        x: asked.x,
        y: asked.y,
    };
    let choice = chooser.choose(&pane.history, &point, contexts.as_slice(), asked.gesture)?;
    put_choice(chooser.alloc, choice, answers)
}

// The type of a slot, or `command`.
fn context_of(alloc: Global, app: &App, word: &str) -> Result<TypeSpec, Fault> {
    if word == "command" {
        return Ok(TypeSpec::plain(Text::from_slice(alloc, b"command")?));
    }
    match app.slot_spec(word.as_bytes()) {
        Some(spec) => Ok(spec.copy()?),
        None => Err(Fault::Wrong),
    }
}

// What the display of a pane draws.
fn pane_of<T: Types>(chooser: &Chooser<'_, T>, name: &str) -> Result<ShownPane, Fault> {
    let program = Program {
        alloc: chooser.alloc,
        app: chooser.app,
        types: chooser.types,
        limits: Limits {
            budget: 1_000_000,
            depth: 512,
        },
    };
    let Some(pane) = program.app.pane(name.as_bytes()) else {
        return Err(Fault::Wrong);
    };
    let forms = program.app.forms_of(pane);
    let env = Env::new(program.alloc);
    let history = match display(&program, forms, &env, chooser.slots, &mut own_steps()) {
        Shown::Built(history) => history,
        Shown::Trapped(history, _) => history,
        Shown::Memory => return Err(Fault::Memory),
    };
    Ok(ShownPane {
        name: Text::from_slice(program.alloc, name.as_bytes())?,
        history,
    })
}

// The number of the context and the value.
fn put_choice(alloc: Global, choice: Option<Choice>, answers: &mut Vec<u8>) -> Result<(), Fault> {
    match choice {
        Some(choice) => {
            answers.extend_from_slice(format!(in alloc; "{} ", choice.number)?.as_bytes())?;
            put_value(answers, &choice.value)?;
        }
        None => answers.extend_from_slice(b"nothing")?,
    }
    answers.push(b'\n')?;
    Ok(())
}
