//! Expressions as texts: what they come to, how many forms are entered, and how deep, worked out by hand.
use super::reading::{expression, loaded, variables};
use super::saying::put_bytes;
use cl_eval::{Env, Evaluated, Limits, eval};
use cl_load::Loaded;
use cl_outside::own_steps;
use cl_syntax::{Expr, Operator, RecordOperator};
use cl_value::{Text, Value};
use std::alloc::Global;
use std::test::Fail;

const EXPRESSIONS: [(&str, &str); 15] = [
    ("v", "7 cost 1 reach 1"),
    ("z", "trap 1 cost 1"),
    ("(slot count)", "5 cost 1 reach 1"),
    ("(slot v)", "trap 1 cost 1"),
    ("(if true 1 (div 1 0))", "1 cost 3 reach 2"),
    ("(let ((a 1) (b (+ a 1))) (* a b))", "2 cost 8 reach 3"),
    ("(or false 1)", "trap 1 cost 3"),
    ("(filter x (range 1 4) (> x 2))", "3 4 cost 16 reach 3"),
    // the opening value stands before the list's kind is looked at
    ("(fold x 1 a (div 1 0) a)", "trap 3 cost 5"),
    ("(twice (twice v))", "28 cost 9 reach 4"),
    ("(get (make point 3 4) y)", "4 cost 4 reach 3"),
    ("(with (make point 3 4) x 9)", "9 4 cost 5 reach 3"),
    ("(+ 9223372036854775807 1)", "trap 2 cost 3"),
    ("(concat \"ab\" (text 12))", "ab12 cost 4 reach 3"),
    // its parts are small enough, and together they are not
    ("(map x (range 1 2) (range 1 40000))", "trap 7 cost 10"),
];

/// A budget and a depth, an expression, and what it comes to.
const LIMITS: [(u64, u32, &str, &str); 7] = [
    (3, 512, "(+ 2 3)", "5 cost 3 reach 2"),
    (2, 512, "(+ 2 3)", "trap 5 cost 2"),
    (0, 0, "(+ 2 3)", "trap 5 cost 0"),
    (1, 1, "(+ 2 3)", "trap 5 cost 1"),
    (5, 1, "(+ 2 3)", "trap 6 cost 1"),
    (1000, 8, "(forever 1)", "trap 6 cost 15"),
    (10, 512, "(forever 1)", "trap 5 cost 10"),
];

fn put_numbers(said: &mut String, values: &[Value]) -> Result<(), Fail> {
    for value in values {
        if let Value::Int(number) = value {
            write!(said, "{number} ")?;
        }
    }
    Ok(())
}

fn put_text(said: &mut String, text: &Text) -> Result<(), Fail> {
    put_bytes(said, text.as_slice())?;
    Ok(said.push(' ')?)
}

/// A value and a space behind it; the numbers of a list or a record.
fn put_value(said: &mut String, value: &Value) -> Result<(), Fail> {
    match value {
        Value::Int(number) => Ok(write!(said, "{number} ")?),
        Value::Bool(truth) => Ok(write!(said, "{truth} ")?),
        Value::Text(text) => put_text(said, text),
        Value::Symbol(name) => put_text(said, name),
        Value::Null => Ok(said.push_str("null ")?),
        Value::List(parts) => put_numbers(said, parts.as_slice()),
        Value::Record(_, parts) => put_numbers(said, parts.as_slice()),
    }
}

/// What an evaluation answers, in words.
fn words(alloc: Global, outcome: &Evaluated) -> Result<String, Fail> {
    let mut said = String::new(alloc);
    match outcome {
        Evaluated::Value(value, cost, reach) => {
            put_value(&mut said, value)?;
            write!(said, "cost {cost} reach {reach}")?;
        }
        Evaluated::Trap(kind, cost) => write!(said, "trap {kind} cost {cost}")?,
        Evaluated::Memory => said.push_str("memory")?,
    }
    Ok(said)
}

/// What an expression comes to in an application, where its variables are these.
fn come_to_in(
    alloc: Global,
    budget: u64,
    depth: u32,
    expr: &Expr,
    loaded: &Loaded,
    env: &Env,
) -> Result<String, Fail> {
    let limits = Limits {
        budget,
        depth: depth.min(512),
    };
    let (app, slots) = (&loaded.app, &loaded.slots);
    let outcome = eval(alloc, app, expr, env, slots, limits, &mut own_steps());
    words(alloc, &outcome)
}

fn come_to_loaded(
    alloc: Global,
    budget: u64,
    depth: u32,
    expr: &Expr,
    loaded: &Loaded,
) -> Result<String, Fail> {
    let env = variables(alloc)?;
    come_to_in(alloc, budget, depth, expr, loaded, &env)
}

/// What an expression comes to within this budget and depth, in words.
fn come_to(alloc: Global, budget: u64, depth: u32, expr: &Expr) -> Result<String, Fail> {
    let loaded = loaded(alloc)?;
    come_to_loaded(alloc, budget, depth, expr, &loaded)
}

fn text_comes_to(alloc: Global, budget: u64, depth: u32, text: &str) -> Result<String, Fail> {
    let expr = expression(alloc, text)?;
    come_to(alloc, budget, depth, &expr)
}

#[test]
fn expressions_come_to(rt: HostRuntime) -> Result<(), Fail> {
    for (text, wanted) in EXPRESSIONS {
        let said = text_comes_to(rt.alloc(), 1000, 512, text)?;
        assert_eq!(rt; said.as_str(), wanted, "{text}");
    }
    Ok(())
}

#[test]
fn limits_are_met(rt: HostRuntime) -> Result<(), Fail> {
    for (budget, depth, text, wanted) in LIMITS {
        let said = text_comes_to(rt.alloc(), budget, depth, text)?;
        assert_eq!(rt; said.as_str(), wanted, "{text} within {budget} and {depth}");
    }
    Ok(())
}

fn numbers(alloc: Global, count: i64) -> Result<Vec<Expr>, Fail> {
    let mut parts = Vec::new(alloc);
    for number in 0..count {
        parts.push(Expr::constant(Value::Int(number)))?;
    }
    Ok(parts)
}

/// A call of a function of one parameter with two parts.
fn call_of_two(alloc: Global) -> Result<Expr, Fail> {
    let name = Text::from_slice(alloc, b"twice")?;
    Ok(Expr::call(name, numbers(alloc, 2)?))
}

/// A record of two fields with one part.
fn record_of_one(alloc: Global) -> Result<Expr, Fail> {
    let make = RecordOperator::Make(Text::from_slice(alloc, b"point")?);
    Ok(Expr::operation(Operator::Record(make), numbers(alloc, 1)?))
}

/// The loader refuses a wrong count, so these trees are built by hand.
#[test]
fn a_wrong_count_traps(rt: HostRuntime) -> Result<(), Fail> {
    let call = call_of_two(rt.alloc())?;
    let said = come_to(rt.alloc(), 1000, 512, &call)?;
    assert_eq!(rt; said.as_str(), "trap 1 cost 3");
    Ok(())
}

#[test]
fn a_record_of_a_wrong_count_traps(rt: HostRuntime) -> Result<(), Fail> {
    let record = record_of_one(rt.alloc())?;
    let said = come_to(rt.alloc(), 1000, 512, &record)?;
    assert_eq!(rt; said.as_str(), "trap 1 cost 2");
    Ok(())
}
