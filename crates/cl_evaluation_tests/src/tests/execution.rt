//! Statements that no application has: the slot `count` that they leave, what they reply, and their cost, worked out by hand.
use super::reading::{loaded, statements, variables};
use super::saying::put_bytes;
use cl_application::App;
use cl_eval::{Executed, Limits, Lines, Program, Slots, Types, exec};
use cl_load::Loaded;
use cl_outside::own_steps;
use cl_ptext::{HostTypes, TypeBook};
use cl_syntax::Acts;
use cl_value::Value;
use std::alloc::Global;
use std::test::Fail;

const LIMITS: Limits = Limits {
    budget: 1000,
    depth: 512,
};

/// What a body comes to by these types, in words.
fn come_to_by<'a, T: Types>(
    alloc: Global,
    body: &Acts,
    app: &'a App,
    types: &'a T,
    slots: &Slots,
) -> Result<String, Fail> {
    let env = variables(alloc)?;
    let program = Program {
        alloc,
        app,
        types,
        limits: LIMITS,
    };
    let mut steps = own_steps();
    let outcome = exec(&program, body, &env, slots, &mut steps);
    words(alloc, &outcome)
}

/// What a body comes to in an application, in words.
fn come_to_loaded(alloc: Global, body: &Acts, loaded: &Loaded) -> Result<String, Fail> {
    let hosts = HostTypes { types: &[] };
    let types = TypeBook::new(alloc, &loaded.app, &loaded.lattice, &hosts);
    come_to_by(alloc, body, &loaded.app, &types, &loaded.slots)
}

fn come_to(alloc: Global, body: &Acts) -> Result<String, Fail> {
    let loaded = loaded(alloc)?;
    come_to_loaded(alloc, body, &loaded)
}

fn text_comes_to(alloc: Global, text: &str) -> Result<String, Fail> {
    let body = statements(alloc, text)?;
    come_to(alloc, &body)
}

/// Each reply with a bar behind it.
fn put_replies(said: &mut String, lines: &Lines) -> Result<(), Fail> {
    for line in lines.as_slice() {
        put_bytes(said, line.as_slice())?;
        said.push('|')?;
    }
    Ok(())
}

/// What a body answers, in words.
fn words(alloc: Global, outcome: &Executed) -> Result<String, Fail> {
    let mut said = String::new(alloc);
    match outcome {
        Executed::Done(effects, cost) => {
            if let Some(Value::Int(number)) = effects.slots.get(b"count") {
                write!(said, "{number} ")?;
            }
            put_replies(&mut said, &effects.replies)?;
            write!(said, " cost {cost}")?;
        }
        Executed::Trap(kind, cost) => write!(said, "trap {kind} cost {cost}")?,
        Executed::Memory => said.push_str("memory")?,
    }
    Ok(said)
}

/// The loader refuses the slot, and the variables of no command.
#[test]
fn bodies_come_to(rt: HostRuntime) -> Result<(), Fail> {
    let undeclared = text_comes_to(rt.alloc(), "((setf (slot other) 1))")?;
    assert_eq!(rt; undeclared.as_str(), "trap 1 cost 2");
    let with_variable = text_comes_to(rt.alloc(), "((setf (slot count) v) (reply w))")?;
    assert_eq!(rt; with_variable.as_str(), "7 vw| cost 4");
    Ok(())
}
