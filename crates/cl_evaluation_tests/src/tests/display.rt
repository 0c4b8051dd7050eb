//! Displays within budgets and depths that no application has: their items, or the kind of their trap, and their cost, worked out by hand.
ghost use Rattle.std.specs.Prelude.{◌≤◌};

use super::reading::{display_forms, loaded, variables};
use super::saying::put_bytes;
use cl_display::{History, Shown, display};
use cl_eval::{Env, Limits, Program, Slots, Types};
use cl_load::Loaded;
use cl_outside::own_steps;
use cl_ptext::{HostTypes, TypeBook};
use cl_syntax::{Expr, Shape, Shapes};
use cl_value::{Text, Value};
use std::alloc::Global;
use std::test::Fail;

/// A budget and a depth, display forms, and what they come to.
const LIMITS: [(u64, u32, &str, &str); 7] = [
    // the budget is met before the depth
    (
        4,
        2,
        "((write-text \"a\") (write-text \"b\"))",
        "text 0 0 0 a|text 1 0 0 b| cost 4",
    ),
    (
        3,
        2,
        "((write-text \"a\") (write-text \"b\"))",
        "trap 5: text 0 0 0 trap 5| cost 3",
    ),
    (0, 0, "((newline))", "trap 5: text 0 0 0 trap 5| cost 0"),
    (
        9,
        2,
        "((progn (progn (newline))))",
        "trap 6: text 0 0 0 trap 6| cost 2",
    ),
    // 999,999 rows down: a text in the last row, a text below it, and a newline there
    (
        2_000_000,
        512,
        "((dolist (x (range 1 999)) (dolist (x (range 1 1001)) (newline))) (write-text \"a\") (newline) (write-text \"\"))",
        "text 0 999999 0 a| cost 1004004",
    ),
    (
        2_000_000,
        512,
        "((dolist (x (range 1 999)) (dolist (x (range 1 1001)) (newline))) (newline) (write-text \"a\"))",
        "trap 9: text 0 0 0 trap 9| cost 1004002",
    ),
    (
        2_000_000,
        512,
        "((dolist (x (range 1 999)) (dolist (x (range 1 1001)) (newline))) (newline) (newline))",
        "trap 9: text 0 0 0 trap 9| cost 1004001",
    ),
];

fn put_history(alloc: Global, said: &mut String, history: &History) -> Result<(), Fail> {
    let mut lines = Vec::new(alloc);
    history.print(alloc, &mut lines)?;
    for line in &lines {
        put_bytes(said, line.as_slice())?;
        said.push('|')?;
    }
    Ok(())
}

/// What a display shows, in words.
fn words(alloc: Global, shown: &Shown) -> Result<String, Fail> {
    let mut said = String::new(alloc);
    match shown {
        Shown::Built(history) => put_history(alloc, &mut said, history)?,
        Shown::Trapped(history, kind) => {
            write!(said, "trap {kind}: ")?;
            put_history(alloc, &mut said, history)?;
        }
        Shown::Memory => said.push_str("memory")?,
    }
    Ok(said)
}

fn words_and_cost(alloc: Global, shown: &Shown, cost: u64) -> Result<String, Fail> {
    let mut said = words(alloc, shown)?;
    write!(said, " cost {cost}")?;
    Ok(said)
}

/// What display forms of a program show, and how many steps that took, in words.
fn come_to_by<T: Types>(
    program: &Program<'_, T>,
    forms: &Shapes,
    env: &Env,
    slots: &Slots,
) -> Result<String, Fail>
    requires { program.now.limits.depth ≤ 512 }
{
    let mut steps = own_steps();
    let shown = display(program, forms.as_slice(), env, slots, &mut steps);
    words_and_cost(program.alloc, &shown, steps.ledger().seen())
}

/// What display forms show in an application, in words.
fn come_to_in(
    alloc: Global,
    budget: u64,
    depth: u32,
    forms: &Shapes,
    loaded: &Loaded,
    env: &Env,
) -> Result<String, Fail> {
    let hosts = HostTypes { types: &[] };
    let types = TypeBook::new(alloc, &loaded.app, &loaded.lattice, &hosts);
    let program = Program {
        alloc,
        app: &loaded.app,
        types: &types,
        limits: Limits {
            budget,
            depth: depth.min(512),
        },
    };
    come_to_by(&program, forms, env, &loaded.slots)
}

fn come_to_loaded(
    alloc: Global,
    budget: u64,
    depth: u32,
    forms: &Shapes,
    loaded: &Loaded,
) -> Result<String, Fail> {
    let env = variables(alloc)?;
    come_to_in(alloc, budget, depth, forms, loaded, &env)
}

fn forms_come_to(alloc: Global, budget: u64, depth: u32, forms: &Shapes) -> Result<String, Fail> {
    let loaded = loaded(alloc)?;
    come_to_loaded(alloc, budget, depth, forms, &loaded)
}

/// What the display forms of a text show within this budget and depth, in words.
fn come_to(alloc: Global, budget: u64, depth: u32, text: &str) -> Result<String, Fail> {
    let forms = display_forms(alloc, text)?;
    forms_come_to(alloc, budget, depth, &forms)
}

#[test]
fn limits_are_met(rt: HostRuntime) -> Result<(), Fail> {
    for (budget, depth, text, wanted) in LIMITS {
        let said = come_to(rt.alloc(), budget, depth, text)?;
        assert_eq!(rt; said.as_str(), wanted, "{text} within {budget} and {depth}");
    }
    Ok(())
}

/// A call of the display `pair` with one value.
fn call_of_one(alloc: Global) -> Result<Shapes, Fail> {
    let name = Text::from_slice(alloc, b"pair")?;
    let value = Value::Text(Text::from_slice(alloc, b"a")?);
    let parts = vec![in alloc; Expr::constant(value)]?;
    let mut forms = Shapes::new(alloc);
    forms.push(Shape::call(name, parts))?;
    Ok(forms)
}

/// The loader refuses a wrong count, so this form is built by hand.
#[test]
fn a_wrong_count_traps(rt: HostRuntime) -> Result<(), Fail> {
    let forms = call_of_one(rt.alloc())?;
    let said = forms_come_to(rt.alloc(), 1000, 512, &forms)?;
    assert_eq!(rt; said.as_str(), "trap 1: text 0 0 0 trap 1| cost 2");
    Ok(())
}
