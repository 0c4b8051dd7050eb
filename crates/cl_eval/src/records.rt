//! Operators on records.
ghost use Rattle.std.specs.Prelude.{◌≡◌, ◌<◌, length, map, option_map, IfOk};
ghost use Rattle.cl_value.specs.Value.{data_of};
ghost use Rattle.cl_application.specs.App.{record_named};
ghost use Rattle.cl_eval.specs.Operators.{changed_at, field_place, make_record, record_answer, value_at, with_part};
ghost use Rattle.cl_eval.specs.Agrees.{Comes};

use crate::lists::{add_all, copy_all};
use crate::metering::Stop;
use crate::operators::limit;
use cl_application::App;
use cl_syntax::RecordOperator;
use cl_value::{Text, Value, Values};
use std::alloc::{AllocError, Global};

/// What is made of records, or asked of them. A record that is not declared, or that has no such field,
/// traps with 1.
#[tactic(auto, using(std::proofs::lemmas::Grind::common_steps, crate::proofs::ListLemmas::list_of_items))]
pub fn record_operation(
    alloc: Global,
    app: &App,
    operator: &RecordOperator,
    values: &[Value],
) -> Result<Value, Stop>
    ensures { Comes data_of result (record_answer app.now operator.now (map data_of values.now)) }
{
    match operator {
        RecordOperator::Make(name) => make(alloc, app, name, values),
        RecordOperator::Get(field) => match values {
            [Value::Record(name, parts)] => part_at(parts, field_place(app, name, field)),
            _ => Err(Stop::Trap(1)),
        },
        RecordOperator::With(field) => match values {
            [Value::Record(name, parts), value] => {
                change(alloc, name, parts, field_place(app, name, field), value)
            }
            _ => Err(Stop::Trap(1)),
        },
    }
}

fn make(alloc: Global, app: &App, name: &Text, values: &[Value]) -> Result<Value, Stop>
    ensures { Comes data_of result
        (make_record name.now (record_named name.now app.now) (map data_of values.now)) }
{
    match app.record(name.as_slice()) {
        Some(declared) if declared.fields.len() == values.len() => {
            limit(Value::Record(name.copy()?, copy_all(alloc, values)?))
        }
        _ => Err(Stop::Trap(1)),
    }
}

// The place of a field among those of its record.
fn field_place(app: &App, name: &Text, field: &Text) -> Option<usize>
    ensures { result ≡ field_place field.now (record_named name.now app.now) }
{
    let declared = app.record(name.as_slice())?;
    declared.fields.place_of(field.as_slice())
}

fn part_at(parts: &Values, place: Option<usize>) -> Result<Value, Stop>
    ensures { Comes data_of result (value_at place parts.now) }
{
    let Some(place) = place else {
        return Err(Stop::Trap(1));
    };
    match parts.as_slice().get(place) {
        Some(part) => Ok(part.copy()?),
        None => Err(Stop::Trap(1)),
    }
}

fn change(
    alloc: Global,
    name: &Text,
    parts: &Values,
    place: Option<usize>,
    value: &Value,
) -> Result<Value, Stop>
    ensures { Comes data_of result (changed_at name.now place (data_of value.now) parts.now) }
{
    let parts = parts.as_slice();
    match place {
        Some(place) if place < parts.len() => {
            limit(Value::Record(name.copy()?, with_part(alloc, parts, place, value)?))
        }
        _ => Err(Stop::Trap(1)),
    }
}

// The values with another one at that place.
#[tactic(auto, using(std::proofs::lemmas::Grind::common_steps, crate::proofs::ListLemmas::with_part_split, crate::proofs::ListLemmas::rest_whole))]
fn with_part(
    alloc: Global,
    parts: &[Value],
    place: usize,
    value: &Value,
) -> Result<Values, AllocError>
    requires { place < length parts.now }
    ensures { IfOk result (λ vs. vs ≡ with_part place (data_of value.now) (map data_of parts.now)) }
{
    let mut changed = Vec::with_capacity(alloc, parts.len())?;
    add_all(&mut changed, &parts[..place])?;
    changed.push(value.copy()?)?;
    add_all(&mut changed, &parts[place + 1..])?;
    Values::from_vec(alloc, changed)
}
