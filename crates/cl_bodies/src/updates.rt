//! What stands before the body of `updating-output`.
ghost use Rattle.std.specs.Prelude.{◌≡◌, IfOk, map, option_map};
ghost use Rattle.cl_syntax.specs.ExprTree.{expr_trees_of};
ghost use Rattle.cl_forms.specs.DatumView.{datum_of};
ghost use Rattle.cl_forms.specs.KeyedView.{keyed_of};
ghost use Rattle.cl_expressions.specs.Leaves.{Leaves};
ghost use Rattle.cl_expressions.specs.Load.{Gives, itself};
ghost use Rattle.cl_expressions.specs.Scopes.{variables_of};
ghost use Rattle.cl_bodies.specs.UpdateViews.{said_of};
ghost use Rattle.cl_bodies.specs.Updates.{paths_behind, paths_alone, cache_fits, update_keys_in, nothing_said, parse_id, parse_cache, parse_update_key, parse_update_keys, parse_update_keyed, parse_update_list};

use crate::paths::parse_each_path;
use cl_expressions::{Notes, Reader, parse_expression};
use cl_forms::{Datum, FormRefusal, Key, Keyed, keyed_pairs, symbol_of, values_of};
use cl_syntax::{Expr, Site, Update};
use std::alloc::{AllocError, Global};

/// The keys that may stand before the body.
const UPDATE_KEYS: [Key; 2] = [Key::UniqueId, Key::CacheValue];

/// What the keys say: the id, and the paths of the cache, if they are there.
#[derive(Drop)]
struct Said {
    id: Option<Expr>,
    cache: Option<Vec<Expr>>,
}

/// `(:unique-id E :cache-value (list PATH ...))`, in the form at this offset.
pub fn parse_update_list(
    reader: &Reader,
    at: u32,
    datum: &Datum,
    notes: &mut Notes,
) -> Result<Update, FormRefusal>
    ensures { Gives itself result notes.new
        (parse_update_list reader.now.signatures.now at (datum_of datum.now) (variables_of reader.now.scope.now) notes.old) }
{
    match datum {
        Datum::List(_, _) => parse_update_parts(reader, at, datum.parts(), notes),
        Datum::Number(_, _) => Err(FormRefusal::Refused(6, at)),
        Datum::Literal(_, _) => Err(FormRefusal::Refused(6, at)),
        Datum::Word(_, _) => Err(FormRefusal::Refused(6, at)),
        Datum::Quoted(_, _, _) => Err(FormRefusal::Refused(6, at)),
        Datum::Stray(_) => Err(FormRefusal::Refused(6, at)),
    }
}

fn parse_update_parts(
    reader: &Reader,
    at: u32,
    parts: &[Datum],
    notes: &mut Notes,
) -> Result<Update, FormRefusal>
    ensures { Gives itself result notes.new
        (parse_update_keyed reader.now.signatures.now at (update_keys_in (map datum_of parts.now))
        (variables_of reader.now.scope.now) notes.old) }
{
    match update_keys_in(reader.alloc, parts)? {
        Some(keys) => parse_update_keyed(reader, at, keys.as_slice(), notes),
        None => Err(FormRefusal::Refused(6, at)),
    }
}

/// The keys; `None` where one is not known, stands twice, has no value, or asks for a list of paths that is
/// none.
fn update_keys_in<'a>(
    alloc: Global,
    parts: &'a [Datum],
) -> Result<Option<Vec<Keyed<'a>>>, AllocError>
    ensures { IfOk result (λ r. option_map (λ v. map keyed_of v.items) r ≡ update_keys_in (map datum_of parts.now)) }
{
    let Some(keys) = keyed_pairs(alloc, &UPDATE_KEYS, parts)? else {
        return Ok(None);
    };
    if cache_fits(values_of(Key::CacheValue, keys.as_slice())) {
        Ok(Some(keys))
    } else {
        Ok(None)
    }
}

/// Whether what stands behind the key is a list of paths, if the key stands.
fn cache_fits(values: Option<&[Datum]>) -> bool
    ensures { result ≡ cache_fits (option_map (λ v. map datum_of v.now) values.entry) }
{
    match values {
        None => true,
        Some(values) => paths_alone(values).is_some(),
    }
}

/// The paths of `(list PATH ...)`, which stands alone.
fn paths_alone(values: &[Datum]) -> Option<&[Datum]>
    ensures { option_map (λ v. map datum_of v.now) result ≡ paths_alone (map datum_of values.now) }
{
    match values {
        [value] => paths_behind(value.parts()),
        [] => None,
        [_, _, ..] => None,
    }
}

/// What stands behind the word `list`.
fn paths_behind(parts: &[Datum]) -> Option<&[Datum]>
    ensures { option_map (λ v. map datum_of v.now) result ≡ paths_behind (map datum_of parts.now) }
{
    match parts {
        [] => None,
        [first, paths @ ..] => {
            if symbol_of(first) == b"list".as_slice() {
                Some(paths)
            } else {
                None
            }
        }
    }
}

fn parse_update_keyed(
    reader: &Reader,
    at: u32,
    keys: &[Keyed],
    notes: &mut Notes,
) -> Result<Update, FormRefusal>
    ensures { Gives itself result notes.new
        (parse_update_keyed reader.now.signatures.now at (Some (map keyed_of keys.now)) (variables_of reader.now.scope.now)
        notes.old) }
{
    let Said { id, cache } = parse_update_keys(reader, keys, notes)?;
    let site = Site { form: at, query: 0 };
    Ok(Update::new(site, id, cache))
}

fn parse_update_keys(
    reader: &Reader,
    keys: &[Keyed],
    notes: &mut Notes,
) -> Result<Said, FormRefusal>
    ensures { Gives said_of result notes.new
        (parse_update_keys reader.now.signatures.now (variables_of reader.now.scope.now) (map keyed_of keys.now) nothing_said
        notes.old) }
{
    let mut said = Said {
        id: None,
        cache: None,
    };
    for key in keys {
        parse_update_key(reader, key.key, key.values, &mut said, notes)?;
    }
    Ok(said)
}

/// What stands behind a key.
fn parse_update_key(
    reader: &Reader,
    key: Key,
    values: &[Datum],
    said: &mut Said,
    notes: &mut Notes,
) -> Result<(), FormRefusal>
    ensures { Leaves result (said_of said.new) notes.new
        (parse_update_key reader.now.signatures.now (variables_of reader.now.scope.now) key (map datum_of values.now)
        (said_of said.old) notes.old) }
{
    match key {
        Key::UniqueId => parse_id(reader, values, said, notes),
        _ => parse_cache(reader, paths_alone(values), said, notes),
    }
}

/// The expression that stands first.
fn parse_id(
    reader: &Reader,
    values: &[Datum],
    said: &mut Said,
    notes: &mut Notes,
) -> Result<(), FormRefusal>
    ensures { Leaves result (said_of said.new) notes.new
        (parse_id reader.now.signatures.now (variables_of reader.now.scope.now) (map datum_of values.now) (said_of said.old)
        notes.old) }
{
    match values {
        [] => Ok(()),
        [value, ..] => {
            said.id = Some(parse_expression(reader, value, notes)?);
            Ok(())
        }
    }
}

/// These paths, if they are there.
fn parse_cache(
    reader: &Reader,
    paths: Option<&[Datum]>,
    said: &mut Said,
    notes: &mut Notes,
) -> Result<(), FormRefusal>
    ensures { Leaves result (said_of said.new) notes.new
        (parse_cache reader.now.signatures.now (variables_of reader.now.scope.now)
        (option_map (λ v. map datum_of v.now) paths.entry) (said_of said.old) notes.old) }
{
    match paths {
        None => Ok(()),
        Some(paths) => {
            said.cache = Some(parse_each_path(reader, paths, notes)?);
            Ok(())
        }
    }
}
