//! Translators in their order, with memory for all.
use crate::{GestureName, TranslatorPlace, Translators};
use cl_table::{Names, Table};
use cl_value::Text;
use std::alloc::{AllocError, Global};
use std::test::Fail;

/// A name, a table, a gesture, the name of a from-type and a priority.
const PLACES: [(&str, &str, GestureName, &str, u8); 10] = [
    ("in-other", "other", GestureName::Select, "dog", 99),
    ("low", "app", GestureName::Select, "dog", 0),
    ("low-too", "app", GestureName::Select, "dog", 0),
    ("high", "shared", GestureName::Select, "dog", 20),
    ("higher", "shared", GestureName::Select, "dog", 29),
    ("high-in-app", "app", GestureName::Select, "dog", 20),
    ("of-cats", "app", GestureName::Select, "cat", 21),
    ("described", "app", GestureName::Describe, "dog", 25),
    ("deleted", "shared", GestureName::Delete, "dog", 99),
    ("past-all", "app", GestureName::Select, "dog", 120),
];

fn text(alloc: Global, name: &str) -> Result<Text, AllocError> {
    Text::from_slice(alloc, name.as_bytes())
}

fn places(alloc: Global) -> Result<Table<TranslatorPlace>, AllocError> {
    let mut places = Table::new(alloc);
    for (name, table, gesture, from, priority) in &PLACES {
        places.add_first(TranslatorPlace {
            name: text(alloc, *name)?,
            table: text(alloc, *table)?,
            gesture: *gesture,
            from: text(alloc, *from)?,
            priority: *priority,
        })?;
    }
    Ok(places)
}

fn translators(alloc: Global) -> Result<Translators, AllocError> {
    let mut order = Names::new(alloc);
    order.push(text(alloc, "app")?)?;
    order.push(text(alloc, "shared")?)?;
    Translators::build(alloc, &order, &places(alloc)?)
}

// The names of translators, each with a space behind it.
fn names_of(alloc: Global, translators: &[TranslatorPlace]) -> Result<String, AllocError> {
    let mut names = String::new(alloc);
    for translator in translators {
        names.push_str(String::from_utf8_lossy(alloc, translator.name.as_slice())?.as_str())?;
        names.push(' ')?;
    }
    Ok(names)
}

fn group(alloc: Global, gesture: GestureName, from: &str, high: u8) -> Result<String, AllocError> {
    let translators = translators(alloc)?;
    let from = text(alloc, from)?;
    names_of(alloc, translators.group(gesture, &from, high.min(9)))
}

#[test]
fn greater_low_parts_come_first(rt: HostRuntime) -> Result<(), Fail> {
    let alloc = rt.alloc();
    assert_eq!(rt;
        names_of(alloc, translators(alloc)?.as_slice())?.as_str(),
        "higher deleted described of-cats low low-too high-in-app past-all high "
    );
    Ok(())
}

#[test]
fn groups_have_one_gesture_one_type_and_one_high_part(rt: HostRuntime) -> Result<(), Fail> {
    let alloc = rt.alloc();
    assert_eq!(rt;
        group(alloc, GestureName::Select, "dog", 2)?.as_str(),
        "higher high-in-app high "
    );
    assert_eq!(rt;
        group(alloc, GestureName::Select, "dog", 0)?.as_str(),
        "low low-too "
    );
    assert_eq!(rt;
        group(alloc, GestureName::Select, "cat", 2)?.as_str(),
        "of-cats "
    );
    assert_eq!(rt; group(alloc, GestureName::Select, "cow", 2)?.as_str(), "");
    assert_eq!(rt;
        group(alloc, GestureName::Describe, "dog", 2)?.as_str(),
        "described "
    );
    assert_eq!(rt;
        group(alloc, GestureName::Delete, "dog", 9)?.as_str(),
        "deleted "
    );
    assert_eq!(rt; group(alloc, GestureName::Menu, "dog", 2)?.as_str(), "");
    assert_eq!(rt; group(alloc, GestureName::Edit, "dog", 2)?.as_str(), "");
    Ok(())
}
