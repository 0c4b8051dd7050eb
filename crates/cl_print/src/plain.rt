//! The plain form of values.
ghost use Rattle.std.specs.Prelude.{◌≡◌, ◌++◌, OnOk};
ghost use Rattle.cl_value.specs.Value.{data_of};
ghost use Rattle.cl_print.specs.Plain.{plain_of};

use crate::printing::put_value;
use cl_value::Value;
use std::alloc::AllocError;

/// Puts the plain form of a value behind a line: a number in decimal, a text as it is, a symbol's name, `Yes` or `No`, `None`
/// for null, else the printed form.
pub fn put_plain(line: &mut Vec<u8>, value: &Value) -> Result<(), AllocError>
    ensures { OnOk result (line.new.items ≡ line.old.items ++ plain_of (data_of value.now)) }
{
    match value {
        Value::Int(_) => put_value(line, value)?,
        Value::Bool(true) => line.extend_from_slice(b"Yes")?,
        Value::Bool(false) => line.extend_from_slice(b"No")?,
        Value::Text(text) => line.extend_from_slice(text.as_slice())?,
        Value::Symbol(name) => line.extend_from_slice(name.as_slice())?,
        Value::Null => line.extend_from_slice(b"None")?,
        Value::List(_) => put_value(line, value)?,
        Value::Record(_, _) => put_value(line, value)?,
    }
    Ok(())
}
