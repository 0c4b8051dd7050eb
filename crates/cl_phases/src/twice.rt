//! Names that are declared twice, or are reserved.
ghost use Rattle.std.specs.Prelude.{◌≡◌, IfOk, map};
ghost use Rattle.cl_forms.specs.DatumView.{datum_of};
ghost use Rattle.cl_forms.specs.OuterView.{outer_of};
ghost use Rattle.cl_phases.specs.DeclaredNames.{declared_in, names_at};
ghost use Rattle.cl_phases.specs.Repeats as repeats;
ghost use Rattle.cl_phases.specs.Twice.{commands_twice, declaration_twice, declarations_twice, first_reserved, first_twice, names_twice, parameters_twice, parts_twice, section_twice, sections_twice, spaces_twice, tables_twice, types_twice};

use crate::command_names::{lines_in, strokes_in};
use crate::declared_names::{Space, declared_in, is_reserved, names_at};
use crate::offsets::{at_if, earlier};
use crate::repeats::{NameAt, first_repeated};
use cl_forms::{Datum, DeclarationKind, Key, Outer, OuterKind, section_values};
use std::alloc::{AllocError, Global};

/// The least offset of a name that is declared twice, in its space or within one declaration, of a
/// command-line name or a keystroke that stands twice in its command table, or of a declared name that is
/// reserved.
pub fn first_twice(alloc: Global, outers: &[Outer<'_>]) -> Result<Option<u32>, AllocError>
    ensures { IfOk result (λ r. r ≡ first_twice (map outer_of outers.now)) }
{
    let outside = spaces_twice(alloc, outers)?;
    let within = declarations_twice(alloc, outers)?;
    Ok(earlier(outside, within))
}

fn spaces_twice(alloc: Global, outers: &[Outer<'_>]) -> Result<Option<u32>, AllocError>
    ensures { IfOk result (λ r. r ≡ spaces_twice (map outer_of outers.now)) }
{
    let callees = space_twice(alloc, Space::Callees, outers)?;
    let types = types_twice(alloc, outers)?;
    let tables = tables_twice(alloc, outers)?;
    let translators = space_twice(alloc, Space::Translators, outers)?;
    let dialogs = space_twice(alloc, Space::Dialogs, outers)?;
    let frames = space_twice(alloc, Space::Frames, outers)?;
    Ok(earlier(
        earlier(callees, types),
        earlier(tables, earlier(translators, earlier(dialogs, frames))),
    ))
}

fn tables_twice(alloc: Global, outers: &[Outer<'_>]) -> Result<Option<u32>, AllocError>
    ensures { IfOk result (λ r. r ≡ tables_twice (map outer_of outers.now)) }
{
    let tables = space_twice(alloc, Space::Tables, outers)?;
    let commands = commands_twice(alloc, outers)?;
    Ok(earlier(tables, commands))
}

fn types_twice(alloc: Global, outers: &[Outer<'_>]) -> Result<Option<u32>, AllocError>
    ensures { IfOk result (λ r. r ≡ types_twice (map outer_of outers.now)) }
{
    let types = space_twice(alloc, Space::Types, outers)?;
    let present = space_twice(alloc, Space::PresentMethods, outers)?;
    let accept = space_twice(alloc, Space::AcceptMethods, outers)?;
    Ok(earlier(types, earlier(present, accept)))
}

fn space_twice(alloc: Global, space: Space, outers: &[Outer<'_>]) -> Result<Option<u32>, AllocError>
    ensures { IfOk result
        (λ r. r ≡ names_twice space (declared_in space (map outer_of outers.now))) }
{
    let names = declared_in(alloc, space, outers)?;
    let repeated = first_repeated(alloc, names.as_slice())?;
    let reserved = first_reserved(space, names.as_slice());
    Ok(earlier(repeated, reserved))
}

fn commands_twice(alloc: Global, outers: &[Outer<'_>]) -> Result<Option<u32>, AllocError>
    ensures { IfOk result (λ r. r ≡ commands_twice (map outer_of outers.now)) }
{
    let names = space_twice(alloc, Space::Commands, outers)?;
    let lines = lines_in(alloc, outers)?;
    let line = first_repeated(alloc, lines.as_slice())?;
    let strokes = strokes_in(alloc, outers)?;
    let stroke = first_repeated(alloc, strokes.as_slice())?;
    Ok(earlier(names, earlier(line, stroke)))
}

#[tactic(auto, using(crate::proofs::EarlierLemmas::earlier_assoc, crate::proofs::EarlierLemmas::earlier_none))]
fn first_reserved(space: Space, names: &[NameAt]) -> Option<u32>
    ensures { result ≡ first_reserved space names.now }
{
    let mut first = None;
    for name in names {
        let reserved = is_reserved(space, name.name.as_slice());
        first = earlier(first, at_if(reserved, name.at));
    }
    first
}

/// What stands twice within one declaration: fields, parameters, arguments, slots or panes.
#[tactic(auto, using(crate::proofs::EarlierLemmas::earlier_assoc, crate::proofs::EarlierLemmas::earlier_none))]
fn declarations_twice(alloc: Global, outers: &[Outer<'_>]) -> Result<Option<u32>, AllocError>
    ensures { IfOk result (λ r. r ≡ declarations_twice (map outer_of outers.now)) }
{
    let mut first = None;
    for outer in outers {
        let within = declaration_twice(alloc, outer)?;
        first = earlier(first, within);
    }
    Ok(first)
}

fn declaration_twice(alloc: Global, outer: &Outer<'_>) -> Result<Option<u32>, AllocError>
    ensures { IfOk result (λ r. r ≡ declaration_twice (outer_of outer.now)) }
{
    match outer.kind {
        OuterKind::Declared(kind) => parts_twice(alloc, kind, outer.behind_name()),
        OuterKind::Planned(_) => Ok(None),
        OuterKind::Unknown(_) => Ok(None),
        OuterKind::Headless => Ok(None),
    }
}

fn parts_twice(
    alloc: Global,
    kind: DeclarationKind,
    more: &[Datum],
) -> Result<Option<u32>, AllocError>
    ensures { IfOk result (λ r. r ≡ parts_twice kind (map datum_of more.now)) }
{
    match kind {
        DeclarationKind::Record => all_twice(alloc, more),
        DeclarationKind::PresentationType => parameters_twice(alloc, more),
        DeclarationKind::HostType => Ok(None),
        DeclarationKind::PresentMethod => Ok(None),
        DeclarationKind::AcceptMethod => Ok(None),
        DeclarationKind::Function => parameters_twice(alloc, more),
        DeclarationKind::Display => parameters_twice(alloc, more),
        DeclarationKind::CommandTable => Ok(None),
        DeclarationKind::Command => parameters_twice(alloc, more),
        DeclarationKind::Translator => Ok(None),
        DeclarationKind::CommandTranslator => Ok(None),
        DeclarationKind::Dialog => Ok(None),
        DeclarationKind::Frame => sections_twice(alloc, more),
    }
}

fn all_twice(alloc: Global, parts: &[Datum]) -> Result<Option<u32>, AllocError>
    ensures { IfOk result (λ r. r ≡ repeats.first_repeated (names_at (map datum_of parts.now))) }
{
    let names = names_at(alloc, parts)?;
    first_repeated(alloc, names.as_slice())
}

fn parameters_twice(alloc: Global, more: &[Datum]) -> Result<Option<u32>, AllocError>
    ensures { IfOk result (λ r. r ≡ parameters_twice (map datum_of more.now)) }
{
    match more {
        [] => Ok(None),
        [parameters, ..] => all_twice(alloc, parameters.parts()),
    }
}

#[tactic(auto, using(crate::proofs::EarlierLemmas::earlier_assoc, crate::proofs::EarlierLemmas::earlier_none))]
fn sections_twice(alloc: Global, sections: &[Datum]) -> Result<Option<u32>, AllocError>
    ensures { IfOk result (λ r. r ≡ sections_twice (map datum_of sections.now)) }
{
    let mut first = None;
    for section in sections {
        let within = section_twice(alloc, section)?;
        first = earlier(first, within);
    }
    Ok(first)
}

fn section_twice(alloc: Global, section: &Datum) -> Result<Option<u32>, AllocError>
    ensures { IfOk result (λ r. r ≡ section_twice (datum_of section.now)) }
{
    let slots = all_twice(alloc, section_values(Key::Slots, section))?;
    let panes = all_twice(alloc, section_values(Key::Panes, section))?;
    Ok(earlier(slots, panes))
}
