//! What no clause says: that calls succeed while there is memory, and what is equal hashes alike.
use cl_value::{Text, Value, Values};
use std::alloc::{AllocError, Global};
use std::collections::{BTreeMap, HashMap};
use std::test::Fail;

fn text(alloc: Global, bytes: &[u8]) -> Result<Value, AllocError> {
    Ok(Value::Text(Text::from_slice(alloc, bytes)?))
}

fn push(values: &mut Values, value: Value) -> Result<(), Fail> {
    match values.push(value) {
        Ok(()) => Ok(()),
        Err(_) => Err("no memory".into()),
    }
}

fn list(alloc: Global, first: Value, second: Value) -> Result<Values, Fail> {
    let mut values = Values::new(alloc);
    push(&mut values, first)?;
    push(&mut values, second)?;
    Ok(values)
}

/// The record `point` of 7 and the list of `ab` and null.
fn point(alloc: Global) -> Result<Value, Fail> {
    let inner = list(alloc, text(alloc, b"ab")?, Value::Null)?;
    let fields = list(alloc, Value::Int(7), Value::List(inner))?;
    let name = Text::from_vec(alloc, Vec::from_slice(alloc, b"point")?)?;
    Ok(Value::Record(name, fields))
}

#[test]
fn a_record_is_measured(rt: HostRuntime) -> Result<(), Fail> {
    let value = point(rt.alloc())?;
    // itself and its fields: the number, and the list with its text and null
    assert_eq!(rt; value.size(), 7, "the name counts nothing");
    assert_eq!(rt; value.depth(), 3);
    Ok(())
}

#[test]
fn a_record_is_copied(rt: HostRuntime) -> Result<(), Fail> {
    let value = point(rt.alloc())?;
    let other = value.copy()?;
    assert!(rt; other.equal(&value));
    Ok(())
}

#[test]
fn flat_values_are_measured(rt: HostRuntime) -> Result<(), Fail> {
    let empty = Value::List(Values::new(rt.alloc()));
    assert_eq!(rt; empty.size(), 1);
    assert_eq!(rt; empty.depth(), 1);
    let symbol = Value::Symbol(Text::from_slice(rt.alloc(), b"long-name")?);
    assert_eq!(rt; symbol.size(), 1);
    Ok(())
}

#[test]
fn a_shared_list_is_not_changed(rt: HostRuntime) -> Result<(), Fail> {
    let mut values = list(rt.alloc(), Value::Int(1), Value::Null)?;
    let before = values.copy()?;
    push(&mut values, Value::Bool(true))?;
    assert_eq!(rt; before.as_slice().len(), 2);
    assert_eq!(rt; values.as_slice().len(), 3);
    Ok(())
}

#[test]
fn a_vector_becomes_a_list(rt: HostRuntime) -> Result<(), Fail> {
    let alloc = rt.alloc();
    let mut row = Vec::new(alloc);
    row.push(point(alloc)?)?;
    row.push(Value::Int(5))?;
    let mut values = Values::from_vec(alloc, row)?;
    push(&mut values, point(alloc)?)?;
    assert_eq!(rt; values.len(), 3);
    assert_eq!(rt; values.size(), 15);
    assert_eq!(rt; values.depth(), 3);
    Ok(())
}

#[test]
fn no_vector_becomes_no_list(rt: HostRuntime) -> Result<(), Fail> {
    let none = Values::from_vec(rt.alloc(), Vec::new(rt.alloc()))?;
    assert!(rt; none.is_empty());
    Ok(())
}

/// Values in rising order.
fn rising(alloc: Global, place: usize) -> Result<Value, Fail> {
    Ok(match place {
        0 => Value::Int(-3),
        1 => Value::Int(2),
        2 => Value::Bool(false),
        3 => Value::Bool(true),
        4 => text(alloc, b"")?,
        5 => text(alloc, b"b")?,
        6 => text(alloc, b"ba")?,
        7 => Value::Symbol(Text::from_slice(alloc, b"a")?),
        8 => Value::Null,
        9 => Value::List(Values::new(alloc)),
        _ => point(alloc)?,
    })
}

#[test]
fn kinds_are_ordered(rt: HostRuntime) -> Result<(), Fail> {
    for i in 0..11usize {
        for j in 0..11usize {
            let first = rising(rt.alloc(), i)?;
            let second = rising(rt.alloc(), j)?;
            assert_eq!(rt; first.order(&second), i.cmp(&j), "{i} and {j}");
        }
    }
    Ok(())
}

#[test]
fn texts_are_keys(rt: HostRuntime) -> Result<(), Fail> {
    let alloc = rt.alloc();
    let mut numbers: HashMap<Text, u8> = HashMap::new(alloc);
    let name = Text::from_slice(alloc, b"name")?;
    let other = name.copy()?;
    let _ = numbers.insert(name, 1)?;
    assert_eq!(rt; numbers.get(&other).copied(), Some(1));
    assert_eq!(rt;
        numbers.get(&Text::from_slice(alloc, b"nam")?).copied(),
        None
    );
    Ok(())
}

#[test]
fn values_are_sorted(rt: HostRuntime) -> Result<(), Fail> {
    let alloc = rt.alloc();
    let mut row = Vec::new(alloc);
    row.push(rising(alloc, 8)?)?;
    row.push(rising(alloc, 0)?)?;
    row.push(rising(alloc, 5)?)?;
    row.sort()?;
    assert!(rt; row[0] == rising(alloc, 0)?);
    assert!(rt; row[1] == rising(alloc, 5)?);
    assert!(rt; row[2] == rising(alloc, 8)?);
    Ok(())
}

#[test]
fn values_are_keys(rt: HostRuntime) -> Result<(), Fail> {
    let alloc = rt.alloc();
    let mut numbers: BTreeMap<Value, u8> = BTreeMap::new(alloc);
    let _ = numbers.insert(point(alloc)?, 1)?;
    let _ = numbers.insert(Value::Null, 2)?;
    let _ = numbers.insert(point(alloc)?, 3)?;
    assert_eq!(rt; numbers.len(), 2);
    assert_eq!(rt; numbers.get(&point(alloc)?).copied(), Some(3));
    Ok(())
}
