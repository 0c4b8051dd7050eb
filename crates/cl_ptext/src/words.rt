//! Words in the texts of values, compared without regard to ASCII case.
ghost use Rattle.std.specs.Prelude.{◌≡◌, IfOk, map, option_map};
ghost use Rattle.std.specs.Char.{to_ascii_lowercase};
ghost use Rattle.std.specs.List.{list_all};
ghost use Rattle.cl_sexp.specs.Bytes.{is_word};
ghost use Rattle.cl_value.specs.Value.{data_of};
ghost use Rattle.cl_lattice.specs.Arguments.{constants, given_by, trees_of, value_of, values_of};
ghost use Rattle.cl_print.specs.Plain.{plain_of};
ghost use Rattle.cl_syntax.specs.TypeSpec.{arg_tree_of};
ghost use Rattle.cl_ptext.specs.Readings.{boolean_in, null_in};
ghost use Rattle.cl_ptext.specs.Words.{constant_in, is_symbol_word, number_in, same_word, small, symbol_in, token_in};

use cl_forms::is_constant;
use cl_lattice::{Bound, value_of};
use cl_print::put_plain;
use cl_sexp::{is_number, is_word};
use cl_syntax::TypeArg;
use cl_value::{Text, Value};
use std::alloc::{AllocError, Global};

fn same_word(word: &[u8], other: &[u8]) -> bool
    ensures { result ≡ same_word word.now other.now }
{
    word.eq_ignore_ascii_case(other)
}

/// The truth value of `Yes` or `No`.
pub(crate) fn boolean_in(text: &[u8]) -> Option<Value>
    ensures { option_map data_of result ≡ boolean_in text.now }
{
    if same_word(b"Yes", text) {
        Some(Value::Bool(true))
    } else if same_word(b"No", text) {
        Some(Value::Bool(false))
    } else {
        None
    }
}

/// Null, of `None`.
pub(crate) fn null_in(text: &[u8]) -> Option<Value>
    ensures { option_map data_of result ≡ null_in text.now }
{
    if same_word(b"None", text) {
        Some(Value::Null)
    } else {
        None
    }
}

/// The number that an optional `-` and digits write, where it fits in 64 bits.
pub(crate) fn number_in(text: &[u8]) -> Option<Value>
    ensures { option_map data_of result ≡ number_in text.now }
{
    if !is_number(text) {
        return None;
    }
    match cl_sexp::number_in(text) {
        Some(number) => Some(Value::Int(number)),
        None => None,
    }
}

fn is_whole_word(text: &[u8]) -> bool
    ensures { result ≡ list_all is_word text.now }
{
    text.iter().all(|byte| is_word(*byte))
}

fn is_symbol_word(text: &[u8]) -> bool
    ensures { result ≡ is_symbol_word text.now }
{
    !text.is_empty() && is_whole_word(text) && !is_number(text)
}

// The bytes with A to Z as a to z.
fn small(alloc: Global, text: &[u8]) -> Result<Text, AllocError>
    ensures { IfOk result (λ t. t ≡ small text.now) }
{
    let bytes = text
        .iter()
        .map(|byte| byte.to_ascii_lowercase())
        .collect(alloc)?;
    Text::from_vec(alloc, bytes)
}

/// The symbol that a text is, in small letters.
pub(crate) fn symbol_in(alloc: Global, text: &[u8]) -> Result<Option<Value>, AllocError>
    ensures { IfOk result (λ v. option_map data_of v ≡ symbol_in text.now) }
{
    if !is_symbol_word(text) {
        return Ok(None);
    }
    let name = small(alloc, text)?;
    if is_constant(name.as_slice()) {
        return Ok(None);
    }
    Ok(Some(Value::Symbol(name)))
}

/// The symbol of the first of the tokens that is this word.
pub(crate) fn token_in(tokens: &[Text], word: &[u8]) -> Result<Option<Value>, AllocError>
    ensures { IfOk result (λ v. option_map data_of v ≡ token_in tokens.now word.now) }
{
    for token in tokens {
        if same_word(token.as_slice(), word) {
            return Ok(Some(Value::Symbol(token.copy()?)));
        }
    }
    Ok(None)
}

// Whether a word is the plain form of a value.
fn is_plain_form(alloc: Global, value: &Value, word: &[u8]) -> Result<bool, AllocError>
    ensures { IfOk result (λ b. b ≡ same_word (plain_of (data_of value.now)) word.now) }
{
    match value {
        Value::Text(text) => Ok(same_word(text.as_slice(), word)),
        Value::Symbol(name) => Ok(same_word(name.as_slice(), word)),
        _ => {
            let mut form = Vec::new(alloc);
            put_plain(&mut form, value)?;
            Ok(same_word(form.as_slice(), word))
        }
    }
}

/// The first of the constants among arguments with this plain form.
#[tactic(auto, using(crate::proofs::WordLemmas::constant_first))]
pub(crate) fn constant_in<'a>(
    alloc: Global,
    args: &'a [TypeArg],
    bound: &Bound<'a>,
    word: &[u8],
) -> Result<Option<Value>, AllocError>
    ensures { IfOk result (λ v. option_map data_of v
        ≡ constant_in (constants (values_of (given_by bound.now) (trees_of args.now))) word.now) }
{
    for arg in args {
        if let Some(value) = value_of(arg, bound) {
            if is_plain_form(alloc, value, word)? {
                return Ok(Some(value.copy()?));
            }
        }
    }
    Ok(None)
}
