//! Texts that enter no form, put behind bytes.
ghost use Rattle.std.specs.Prelude.{◌≡◌, ◌++◌, true, OnOk};
ghost use Rattle.cl_value.specs.Value.{data_of, parts_of};
ghost use Rattle.cl_ptext.specs.Parts.{has_mark, is_mark};
ghost use Rattle.cl_ptext.specs.Presenting.{WritesAs};
ghost use Rattle.cl_ptext.specs.Texts.{before_part, each_joined, host_text, list_text, plain, quoted, string_text};

use crate::hosts::Hosts;
use cl_eval::{Meter, Stop};
use cl_print::{put_plain, put_quoted};
use cl_value::Value;
use std::alloc::AllocError;

/// Bytes that a text is put behind, and what was spent on it.
#[derive(Drop)]
pub(crate) struct Writing {
    pub(crate) bytes: Vec<u8>,
    pub(crate) meter: Meter,
}

/// Puts the plain form of a value behind the bytes.
pub(crate) fn put(value: &Value, writing: &mut Writing) -> Result<(), Stop>
    ensures text { WritesAs result writing.old writing.new (plain (data_of value.now)) }
    ensures meter { writing.new.meter ≡ writing.old.meter }
{
    put_plain(&mut writing.bytes, value)?;
    Ok(())
}

fn is_mark(byte: u8) -> bool
    ensures { result ≡ is_mark byte }
{
    byte == b' ' || byte == b',' || byte == b'"' || byte == b'\\'
}

fn has_mark(text: &[u8]) -> bool
    ensures { result ≡ has_mark text.now }
{
    text.iter().any(|byte| is_mark(*byte))
}

fn put_text(bytes: &mut Vec<u8>, text: &[u8]) -> Result<(), AllocError>
    ensures { OnOk result (bytes.new.items ≡ bytes.old.items ++ quoted text.now) }
{
    if text.is_empty() || has_mark(text) {
        put_quoted(bytes, text)
    } else {
        bytes.extend_from_slice(text)
    }
}

/// A text, in quotes where it needs them.
pub(crate) fn put_string(value: &Value, writing: &mut Writing) -> Result<(), Stop>
    ensures text { WritesAs result writing.old writing.new (string_text (data_of value.now)) }
    ensures meter { writing.new.meter ≡ writing.old.meter }
{
    match value {
        Value::Text(text) => put_text(&mut writing.bytes, text.as_slice())?,
        _ => put_plain(&mut writing.bytes, value)?,
    }
    Ok(())
}

/// Puts a separator, but before the first part.
pub(crate) fn put_separator(
    first: bool,
    separator: u8,
    bytes: &mut Vec<u8>,
) -> Result<(), AllocError>
    ensures { OnOk result (bytes.new.items ≡ before_part first separator bytes.old.items) }
{
    if !first {
        bytes.push(separator)?;
    }
    Ok(())
}

// The plain forms of values, joined.
fn put_joined(values: &[Value], separator: u8, writing: &mut Writing) -> Result<(), Stop>
    ensures text { WritesAs result writing.old writing.new (each_joined true separator plain (parts_of values.now)) }
    ensures meter { writing.new.meter ≡ writing.old.meter }
{
    let mut first = true;
    for value in values {
        put_separator(first, separator, &mut writing.bytes)?;
        put_plain(&mut writing.bytes, value)?;
        first = false;
    }
    Ok(())
}

/// A list by the plain forms of its parts.
pub(crate) fn put_subset(value: &Value, separator: u8, writing: &mut Writing) -> Result<(), Stop>
    ensures text { WritesAs result writing.old writing.new (list_text separator plain (data_of value.now)) }
    ensures meter { writing.new.meter ≡ writing.old.meter }
{
    match value {
        Value::List(parts) => put_joined(parts.as_slice(), separator, writing),
        _ => put(value, writing),
    }
}

/// The first name of a number of a host type, else the plain form.
pub(crate) fn put_number<H: Hosts>(
    hosts: &H,
    host: &[u8],
    value: &Value,
    writing: &mut Writing,
) -> Result<(), Stop>
    ensures text { WritesAs result writing.old writing.new (host_text (H.entries hosts.now host.now) (data_of value.now)) }
    ensures meter { writing.new.meter ≡ writing.old.meter }
{
    match value {
        Value::Int(number) => match hosts.name_of(host, *number) {
            Some(name) => writing.bytes.extend_from_slice(name.as_slice())?,
            None => put_plain(&mut writing.bytes, value)?,
        },
        _ => put_plain(&mut writing.bytes, value)?,
    }
    Ok(())
}
