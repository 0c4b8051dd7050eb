//! The shape of a user type, but for what it inherits from.
ghost use Rattle.std.specs.Prelude.{◌≡◌, ◌<◌, ◌^◌, IfOk, map, option_map};
ghost use Rattle.cl_forms.specs.DatumView.{datum_of};
ghost use Rattle.cl_forms.specs.KeyedView.{keyed_of};
ghost use Rattle.cl_declare.specs.TypeShapes.{is_predicate, name_alone, name_behind, shape_named, takes_value_and, type_shape};

use crate::names::is_name_list;
use cl_bodies::text_behind;
use cl_forms::{Datum, Key, Keyed, fits, name_in, values_of};
use cl_value::Text;
use cl_words::Signatures;
use std::alloc::AllocError;

/// The keys that a user type may have.
pub const TYPE_KEYS: [Key; 3] = [Key::InheritFrom, Key::Satisfies, Key::Description];

/// What a user type is, but for its parameters and what it inherits from.
#[derive(Drop)]
pub struct TypeShape {
    pub name: Text,
    pub satisfies: Option<Text>,
    pub description: Text,
}

/// The name, the predicate and the description of a user type; None where the type is wrong by itself.
pub fn type_shape(
    signatures: &Signatures,
    name: &Datum,
    parameters: &Datum,
    keys: &[Keyed],
) -> Result<Option<TypeShape>, AllocError>
    ensures { IfOk result
        (λ t. t ≡ type_shape signatures.now (datum_of name.now) (datum_of parameters.now) (map keyed_of keys.now)) }
{
    if !is_name_list(parameters) {
        return Ok(None);
    }
    shape_named(signatures, name_in(name), parameters.parts().len(), keys)
}

/// The shape by the name, with so many parameters.
fn shape_named(
    signatures: &Signatures,
    name: Option<&Text>,
    parameters: usize,
    keys: &[Keyed],
) -> Result<Option<TypeShape>, AllocError>
    requires { parameters < 2 ^ 63 }
    ensures { IfOk result
        (λ t. t ≡ shape_named signatures.now (option_map (λ n. n.now) name.entry) parameters (map keyed_of keys.now)) }
{
    let Some(name) = name else {
        return Ok(None);
    };
    let Some(satisfies) = name_behind(values_of(Key::Satisfies, keys)) else {
        return Ok(None);
    };
    let Some(description) = text_behind(values_of(Key::Description, keys)) else {
        return Ok(None);
    };
    if !is_predicate(signatures, satisfies, parameters) {
        return Ok(None);
    }
    let description = match description {
        Some(text) => text.copy()?,
        None => name.copy()?,
    };
    let satisfies = match satisfies {
        Some(function) => Some(function.copy()?),
        None => None,
    };
    let name = name.copy()?;
    Ok(Some(TypeShape {
        name,
        satisfies,
        description,
    }))
}

/// The name that stands alone.
pub fn name_alone(parts: &[Datum]) -> Option<&Text>
    ensures { option_map (λ n. n.now) result ≡ name_alone (map datum_of parts.now) }
{
    match parts {
        [one] => name_in(one),
        [] => None,
        [_, _, ..] => None,
    }
}

/// The name behind a key, where the key stands; None where something else stands behind it.
pub fn name_behind<'a>(values: Option<&'a [Datum]>) -> Option<Option<&'a Text>>
    ensures { option_map (λ o. option_map (λ n. n.now) o) result
        ≡ name_behind (option_map (λ v. map datum_of v.now) values.entry) }
{
    match values {
        None => Some(None),
        Some(values) => match name_alone(values) {
            Some(name) => Some(Some(name)),
            None => None,
        },
    }
}

/// Whether a predicate, if it is declared, takes the value and so many arguments.
fn is_predicate(signatures: &Signatures, function: Option<&Text>, parameters: usize) -> bool
    requires { parameters < 2 ^ 63 }
    ensures { result ≡ is_predicate signatures.now (option_map (λ f. f.now) function.entry) parameters }
{
    match function {
        None => true,
        Some(function) => takes_value_and(signatures.function(function.as_slice()), parameters),
    }
}

/// Whether a function that is declared takes a value and so many arguments.
fn takes_value_and(count: Option<Option<usize>>, arguments: usize) -> bool
    requires { arguments < 2 ^ 63 }
    ensures { result ≡ takes_value_and count arguments }
{
    match count {
        Some(count) => fits(count, arguments + 1),
        None => true,
    }
}
