//! The printed form of values.
ghost use Rattle.std.specs.Prelude.{◌≡◌, ◌++◌, ◌∷◌, [], OnOk, true};
ghost use Rattle.cl_value.specs.Value.{data_of, parts_of};
ghost use Rattle.cl_print.specs.Printed.{escape, print_value, print_parts};

use cl_value::Value;
use itoa::Buffer;
use std::alloc::AllocError;

/// Puts the printed form of a value behind a line: a number in decimal, a text in quotes, a symbol's name, the parts of a
/// list in parentheses, and before them `#` and the name for a record.
#[cycle(print)]
pub fn put_value(line: &mut Vec<u8>, value: &Value) -> Result<(), AllocError>
    ensures { OnOk result (line.new.items ≡ line.old.items ++ print_value (data_of value.now)) }
{
    match value {
        Value::Int(number) => line.extend_from_slice(Buffer::new().format(*number).as_bytes())?,
        Value::Bool(true) => line.extend_from_slice(b"true")?,
        Value::Bool(false) => line.extend_from_slice(b"false")?,
        Value::Text(text) => put_quoted(line, text.as_slice())?,
        Value::Symbol(name) => line.extend_from_slice(name.as_slice())?,
        Value::Null => line.extend_from_slice(b"null")?,
        Value::List(parts) => put_parts(line, parts.as_slice())?,
        Value::Record(name, parts) => {
            line.push(b'#')?;
            line.extend_from_slice(name.as_slice())?;
            put_parts(line, parts.as_slice())?
        }
    }
    Ok(())
}

// Puts values, parted by spaces, in parentheses behind a line.
#[cycle(print)]
fn put_parts(line: &mut Vec<u8>, parts: &[Value]) -> Result<(), AllocError>
    ensures { OnOk result (line.new.items
        ≡ line.old.items ++ 40 ∷ (print_parts true (parts_of parts.now) ++ 41 ∷ [])) }
{
    line.push(b'(')?;
    let mut first = true;
    for part in parts {
        if !first {
            line.push(b' ')?;
        }
        put_value(line, part)?;
        first = false;
    }
    line.push(b')')?;
    Ok(())
}

/// Puts bytes in quotes behind a line, with a `\` before each `"` and `\`.
pub fn put_quoted(line: &mut Vec<u8>, bytes: &[u8]) -> Result<(), AllocError>
    ensures { OnOk result (line.new.items ≡ line.old.items ++ 34 ∷ (escape bytes.now ++ 34 ∷ [])) }
{
    line.push(b'"')?;
    for byte in bytes {
        if *byte == b'"' || *byte == b'\\' {
            line.push(b'\\')?;
        }
        line.push(*byte)?;
    }
    line.push(b'"')?;
    Ok(())
}
