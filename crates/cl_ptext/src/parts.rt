//! The texts of the parts that pieces of a text are.
ghost use Rattle.std.specs.Prelude.{◌≡◌, [], IfOk, false, option_map};
ghost use Rattle.cl_ptext.specs.Parts.{behind_spaces, bytes_of, part_in, trimmed_part, unquoted, without_end};

use std::alloc::{AllocError, Global};

/// The text of a part: as it stands in the piece, or what stood in quotes.
#[derive(Drop)]
pub(crate) enum Part<'a> {
    Plain(&'a [u8]),
    Quoted(Vec<u8>),
}

impl Part<'_> {
    /// Its bytes.
    pub(crate) fn as_slice(&self) -> &[u8]
        ensures { result.now ≡ bytes_of self.now }
    {
        match self {
            Part::Plain(bytes) => bytes,
            Part::Quoted(bytes) => bytes.as_slice(),
        }
    }
}

fn behind_spaces(bytes: &[u8]) -> &[u8]
    ensures { result.now ≡ behind_spaces bytes.now }
{
    let mut rest = bytes;
    while let [b' ', more @ ..] = rest {
        rest = more;
    }
    rest
}

#[tactic(auto, using(crate::proofs::PartLemmas::space_at_end, crate::proofs::PartLemmas::other_at_end))]
fn without_end(bytes: &[u8]) -> &[u8]
    ensures { result.now ≡ without_end bytes.now }
{
    let mut rest = bytes;
    while let Some((last, more)) = rest.split_last() {
        if *last != b' ' {
            return rest;
        }
        rest = more;
    }
    rest
}

// What stands in quotes, from behind the first one on.
fn unquoted(alloc: Global, bytes: &[u8]) -> Result<Option<Vec<u8>>, AllocError>
    ensures { IfOk result (λ o. option_map (λ v. v.items) o ≡ unquoted false [] bytes.now) }
{
    let mut inside = Vec::new(alloc);
    let mut escaped = false;
    let mut rest = bytes;
    while let Some((byte, more)) = rest.split_first() {
        if escaped {
            inside.push(*byte)?;
            escaped = false;
        } else if *byte == b'"' {
            return Ok(if more.is_empty() { Some(inside) } else { None });
        } else if *byte == b'\\' {
            escaped = true;
        } else {
            inside.push(*byte)?;
        }
        rest = more;
    }
    Ok(None)
}

fn trimmed_part(alloc: Global, bytes: &[u8]) -> Result<Option<Part<'_>>, AllocError>
    ensures { IfOk result (λ o. option_map bytes_of o ≡ trimmed_part bytes.now) }
{
    match bytes {
        [b'"', quoted @ ..] => match unquoted(alloc, quoted)? {
            Some(inside) => Ok(Some(Part::Quoted(inside))),
            None => Ok(None),
        },
        _ => Ok(Some(Part::Plain(bytes))),
    }
}

/// The text of the part that a piece is; `None` where it reads as nothing.
pub(crate) fn part_in(alloc: Global, piece: &[u8]) -> Result<Option<Part<'_>>, AllocError>
    ensures { IfOk result (λ o. option_map bytes_of o ≡ part_in piece.now) }
{
    trimmed_part(alloc, without_end(behind_spaces(piece)))
}
