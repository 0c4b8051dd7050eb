//! The candidates of a choice.
ghost use Rattle.std.specs.Prelude.{◌≡◌, ◌++◌, ◌∷◌, [], IfOk, OnOk, codes};
ghost use Rattle.cl_syntax.specs.TypeSpecTree.{plain_type};
ghost use Rattle.cl_translate.specs.Choices.{blank_area};
ghost use Rattle.cl_value.specs.Value.{data_of};

use crate::choosers::Point;
use cl_syntax::TypeSpec;
use cl_value::{Text, Value, Values};
use std::alloc::{AllocError, Global};

/// A place of a pane as an object.
pub(crate) fn blank_object(alloc: Global, point: &Point<'_>) -> Result<Value, AllocError>
    ensures { IfOk result (λ v. data_of v ≡ (blank_area point.now.pane.now point.now.x point.now.y).object) }
{
    let mut values = Values::new(alloc);
    push(&mut values, Value::Symbol(point.pane.copy()?))?;
    push(&mut values, Value::Int(point.x))?;
    push(&mut values, Value::Int(point.y))?;
    Ok(Value::List(values))
}

// Puts a value behind the others.
fn push(values: &mut Values, value: Value) -> Result<(), AllocError>
    ensures { OnOk result (values.new ≡ values.old ++ data_of value ∷ []) }
{
    match values.push(value) {
        Ok(()) => Ok(()),
        Err(_) => Err(AllocError),
    }
}

/// The type of places.
pub(crate) fn blank_type(alloc: Global) -> Result<TypeSpec, AllocError>
    ensures { IfOk result (λ s. s ≡ plain_type (codes "blank-area")) }
{
    Ok(TypeSpec::plain(Text::from_slice(alloc, b"blank-area")?))
}
