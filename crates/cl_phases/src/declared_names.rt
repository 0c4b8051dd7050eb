//! The names that the outermost forms of a text declare.
ghost use Rattle.std.specs.Prelude.{◌≡◌, ◌++◌, IfOk, OnOk, map, option_map};
ghost use Rattle.cl_forms.specs.DatumView.{datum_of};
ghost use Rattle.cl_forms.specs.OuterView.{outer_of};
ghost use Rattle.cl_phases.specs.DeclaredNames.{declared_in, declares, first_at, is_in, is_reserved, name_at, names_at, own_name_at, same_space, space_of, word_at};

use crate::repeats::NameAt;
use cl_forms::{Datum, DeclarationKind, Outer, OuterKind};
use cl_words::{is_global_table, is_operator, is_standard_type};
use std::alloc::{AllocError, Global};

/// Declarations whose names differ.
#[derive(Clone, Copy, PartialEq, Eq)]
pub enum Space {
    /// Functions and displays.
    Callees,
    /// Records, user types and host types.
    Types,
    PresentMethods,
    AcceptMethods,
    /// Command tables.
    Tables,
    Commands,
    /// Translators of both kinds.
    Translators,
    Dialogs,
    Frames,
}

fn same_space(one: Space, other: Space) -> bool
    ensures { result ≡ same_space one other }
{
    one == other
}

/// The space of a declaration's name.
fn space_of(kind: DeclarationKind) -> Space
    ensures { result ≡ space_of kind }
{
    match kind {
        DeclarationKind::Record => Space::Types,
        DeclarationKind::PresentationType => Space::Types,
        DeclarationKind::HostType => Space::Types,
        DeclarationKind::PresentMethod => Space::PresentMethods,
        DeclarationKind::AcceptMethod => Space::AcceptMethods,
        DeclarationKind::Function => Space::Callees,
        DeclarationKind::Display => Space::Callees,
        DeclarationKind::CommandTable => Space::Tables,
        DeclarationKind::Command => Space::Commands,
        DeclarationKind::Translator => Space::Translators,
        DeclarationKind::CommandTranslator => Space::Translators,
        DeclarationKind::Dialog => Space::Dialogs,
        DeclarationKind::Frame => Space::Frames,
    }
}

/// Whether such a form declares a name in the space.
pub fn is_in(space: Space, kind: OuterKind) -> bool
    ensures { result ≡ is_in space kind }
{
    match kind {
        OuterKind::Declared(kind) => same_space(space, space_of(kind)),
        OuterKind::Planned(_) => false,
        OuterKind::Unknown(_) => false,
        OuterKind::Headless => false,
    }
}

/// Whether no declaration in the space may have this name.
pub fn is_reserved(space: Space, name: &[u8]) -> bool
    ensures { result ≡ is_reserved space name.now }
{
    match space {
        Space::Callees => is_operator(name),
        Space::Types => is_standard_type(name),
        Space::PresentMethods => false,
        Space::AcceptMethods => false,
        Space::Tables => is_global_table(name),
        Space::Commands => false,
        Space::Translators => false,
        Space::Dialogs => false,
        Space::Frames => false,
    }
}

/// The names that the forms declare in a space, in the order of the text.
pub fn declared_in(
    alloc: Global,
    space: Space,
    outers: &[Outer<'_>],
) -> Result<Vec<NameAt>, AllocError>
    ensures { IfOk result (λ v. v.items ≡ declared_in space (map outer_of outers.now)) }
{
    let mut names = Vec::new(alloc);
    for outer in outers {
        add_declared(&mut names, space, outer)?;
    }
    Ok(names)
}

/// Adds the name that a form declares in a space, where it declares one.
pub fn add_declared(
    names: &mut Vec<NameAt>,
    space: Space,
    outer: &Outer<'_>,
) -> Result<(), AllocError>
    ensures { OnOk result (names.new.items ≡ names.old.items ++ declares space (outer_of outer.now)) }
{
    if is_in(space, outer.kind) {
        add_own_name(names, outer.name)
    } else {
        Ok(())
    }
}

/// Adds the name that a datum is, if it is one.
pub fn add_own_name(names: &mut Vec<NameAt>, name: Option<&Datum>) -> Result<(), AllocError>
    ensures { OnOk result
        (names.new.items ≡ names.old.items ++ own_name_at (option_map (λ d. datum_of d.now) name.entry)) }
{
    match name {
        None => Ok(()),
        Some(name) => add_word(names, name),
    }
}

/// The names of parts, each of which is a name or a list that begins with one.
pub fn names_at(alloc: Global, parts: &[Datum]) -> Result<Vec<NameAt>, AllocError>
    ensures { IfOk result (λ v. v.items ≡ names_at (map datum_of parts.now)) }
{
    let mut names = Vec::new(alloc);
    for part in parts {
        add_name(&mut names, part)?;
    }
    Ok(names)
}

fn add_name(names: &mut Vec<NameAt>, datum: &Datum) -> Result<(), AllocError>
    ensures { OnOk result (names.new.items ≡ names.old.items ++ name_at (datum_of datum.now)) }
{
    add_word(names, datum)?;
    add_first(names, datum.parts())
}

fn add_first(names: &mut Vec<NameAt>, parts: &[Datum]) -> Result<(), AllocError>
    ensures { OnOk result (names.new.items ≡ names.old.items ++ first_at (map datum_of parts.now)) }
{
    match parts {
        [] => Ok(()),
        [first, ..] => add_word(names, first),
    }
}

fn add_word(names: &mut Vec<NameAt>, datum: &Datum) -> Result<(), AllocError>
    ensures { OnOk result (names.new.items ≡ names.old.items ++ word_at (datum_of datum.now)) }
{
    match datum {
        Datum::Word(word, at) => {
            let name = word.copy()?;
            names.push(NameAt { name, at: *at }).map_err(|_| AllocError)
        }
        Datum::Number(_, _) => Ok(()),
        Datum::Literal(_, _) => Ok(()),
        Datum::Quoted(_, _, _) => Ok(()),
        Datum::Stray(_) => Ok(()),
        Datum::List(_, _) => Ok(()),
    }
}
