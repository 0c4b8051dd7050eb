//! The outermost forms of a text, by their heads.
ghost use Rattle.std.specs.Prelude.{◌≡◌, ◌++◌, ◌∷◌, IfOk, map, option_map};
ghost use Rattle.cl_forms.specs.DatumView.{datum_of};
ghost use Rattle.cl_forms.specs.OuterView.{outer_of};
ghost use Rattle.cl_forms.specs.Outer.{declaration_named, type_declared, declared_by, is_planned, kind_named, first_of, behind_first, command_name, first_or_itself, outer_name, declared_name, behind_name, headless, outer_headed, outer_listed, outer_in, outers_of};

use crate::datum::Datum;
use crate::naming::name_in;
use cl_value::Text;
use std::alloc::{AllocError, Global};

/// The declarations that are built.
#[derive(Clone, Copy)]
pub enum DeclarationKind {
    Record,
    PresentationType,
    HostType,
    PresentMethod,
    AcceptMethod,
    Function,
    Display,
    CommandTable,
    Command,
    Translator,
    CommandTranslator,
    Dialog,
    Frame,
}

/// What an outermost form is by its head.
#[derive(Clone, Copy)]
pub enum OuterKind {
    Declared(DeclarationKind),
    /// A declaration that is not built yet, with the offset of its head.
    Planned(u32),
    /// Another symbol heads it, at this offset.
    Unknown(u32),
    /// No symbol heads it.
    Headless,
}

/// An outermost form.
#[derive(Clone, Copy)]
pub struct Outer<'a> {
    pub kind: OuterKind,
    /// What stands behind the head, where the name is. Of `(NAME KEY VALUE ...)`, which a command may have
    /// there, it is the first part.
    pub name: Option<&'a Datum>,
    /// All that stands behind the head.
    pub parts: &'a [Datum],
    pub at: u32,
}

impl<'a> Outer<'a> {
    /// The name, where one stands there.
    pub fn declared_name(&self) -> Option<&'a Text>
        ensures { option_map (λ name. name.now) result ≡ declared_name (outer_of self.now) }
    {
        match self.name {
            Some(name) => name_in(name),
            None => None,
        }
    }

    /// What stands behind the name.
    pub fn behind_name(&self) -> &'a [Datum]
        ensures { map datum_of result.now ≡ behind_name (outer_of self.now) }
    {
        behind_first(self.parts)
    }
}

/// The outermost forms, in the order of the text.
pub fn outers_of(alloc: Global, forms: &[Datum]) -> Result<Vec<Outer<'_>>, AllocError>
    ensures { IfOk result (λ v. map outer_of v.items ≡ outers_of (map datum_of forms.now)) }
{
    let mut outers = Vec::new(alloc);
    for form in forms {
        outers.push(outer_in(form))?;
    }
    Ok(outers)
}

/// An outermost form by its head.
pub fn outer_in(form: &Datum) -> Outer<'_>
    ensures { outer_of result ≡ outer_in (datum_of form.now) }
{
    outer_listed(form.offset(), form.parts())
}

fn outer_listed(at: u32, parts: &[Datum]) -> Outer<'_>
    ensures { outer_of result ≡ outer_listed at (map datum_of parts.now) }
{
    match parts {
        [] => headless(at),
        [head, parts @ ..] => outer_headed(at, head, parts),
    }
}

fn outer_headed<'a>(at: u32, head: &Datum, parts: &'a [Datum]) -> Outer<'a>
    ensures { outer_of result ≡ outer_headed at (datum_of head.now) (map datum_of parts.now) }
{
    match head {
        Datum::Word(word, head_at) => {
            let kind = kind_named(word.as_slice(), *head_at);
            let name = outer_name(kind, parts);
            Outer {
                kind,
                name,
                parts,
                at,
            }
        }
        Datum::Number(_, _) => headless(at),
        Datum::Literal(_, _) => headless(at),
        Datum::Quoted(_, _, _) => headless(at),
        Datum::Stray(_) => headless(at),
        Datum::List(_, _) => headless(at),
    }
}

fn headless<'a>(at: u32) -> Outer<'a>
    ensures { outer_of result ≡ headless at }
{
    Outer {
        kind: OuterKind::Headless,
        name: None,
        parts: &[],
        at,
    }
}

/// What a form is that this word heads, at this offset.
fn kind_named(word: &[u8], at: u32) -> OuterKind
    ensures { result ≡ kind_named word.now at }
{
    match declaration_named(word) {
        Some(kind) => OuterKind::Declared(kind),
        None => {
            if is_planned(word) {
                OuterKind::Planned(at)
            } else {
                OuterKind::Unknown(at)
            }
        }
    }
}

fn declaration_named(word: &[u8]) -> Option<DeclarationKind>
    ensures { result ≡ declaration_named word.now }
{
    if let Some(kind) = type_declared(word) {
        return Some(kind);
    }
    declared_by(word)
}

/// What declares something of presentation types.
fn type_declared(word: &[u8]) -> Option<DeclarationKind>
    ensures { result ≡ type_declared word.now }
{
    if word == b"define-record".as_slice() {
        Some(DeclarationKind::Record)
    } else if word == b"define-presentation-type".as_slice() {
        Some(DeclarationKind::PresentationType)
    } else if word == b"define-host-type".as_slice() {
        Some(DeclarationKind::HostType)
    } else if word == b"define-present-method".as_slice() {
        Some(DeclarationKind::PresentMethod)
    } else if word == b"define-accept-method".as_slice() {
        Some(DeclarationKind::AcceptMethod)
    } else {
        None
    }
}

fn declared_by(word: &[u8]) -> Option<DeclarationKind>
    ensures { result ≡ declared_by word.now }
{
    if word == b"define-function".as_slice() {
        Some(DeclarationKind::Function)
    } else if word == b"define-display".as_slice() {
        Some(DeclarationKind::Display)
    } else if word == b"define-command-table".as_slice() {
        Some(DeclarationKind::CommandTable)
    } else if word == b"define-command".as_slice() {
        Some(DeclarationKind::Command)
    } else if word == b"define-presentation-translator".as_slice() {
        Some(DeclarationKind::Translator)
    } else if word == b"define-presentation-to-command-translator".as_slice() {
        Some(DeclarationKind::CommandTranslator)
    } else if word == b"define-dialog".as_slice() {
        Some(DeclarationKind::Dialog)
    } else if word == b"define-application-frame".as_slice() {
        Some(DeclarationKind::Frame)
    } else {
        None
    }
}

fn is_planned(word: &[u8]) -> bool
    ensures { result ≡ is_planned word.now }
{
    word == b"define-drag-and-drop-translator".as_slice()
}

/// What stands where the name of such a form is.
fn outer_name(kind: OuterKind, parts: &[Datum]) -> Option<&Datum>
    ensures { option_map (λ d. datum_of d.now) result ≡ outer_name kind (map datum_of parts.now) }
{
    match kind {
        OuterKind::Declared(DeclarationKind::Command) => command_name(parts),
        OuterKind::Declared(DeclarationKind::Record) => first_of(parts),
        OuterKind::Declared(DeclarationKind::PresentationType) => first_of(parts),
        OuterKind::Declared(DeclarationKind::HostType) => first_of(parts),
        OuterKind::Declared(DeclarationKind::PresentMethod) => first_of(parts),
        OuterKind::Declared(DeclarationKind::AcceptMethod) => first_of(parts),
        OuterKind::Declared(DeclarationKind::Function) => first_of(parts),
        OuterKind::Declared(DeclarationKind::Display) => first_of(parts),
        OuterKind::Declared(DeclarationKind::CommandTable) => first_of(parts),
        OuterKind::Declared(DeclarationKind::Translator) => first_of(parts),
        OuterKind::Declared(DeclarationKind::CommandTranslator) => first_of(parts),
        OuterKind::Declared(DeclarationKind::Dialog) => first_of(parts),
        OuterKind::Declared(DeclarationKind::Frame) => first_of(parts),
        OuterKind::Planned(_) => first_of(parts),
        OuterKind::Unknown(_) => first_of(parts),
        OuterKind::Headless => None,
    }
}

/// What stands where the name of a command is, by what stands behind its head.
fn command_name(parts: &[Datum]) -> Option<&Datum>
    ensures { option_map (λ d. datum_of d.now) result ≡ command_name (map datum_of parts.now) }
{
    match parts {
        [] => None,
        [first, ..] => first_or_itself(first),
    }
}

/// The first part of a list; an atom itself.
pub fn first_or_itself(datum: &Datum) -> Option<&Datum>
    ensures { option_map (λ d. datum_of d.now) result ≡ first_or_itself (datum_of datum.now) }
{
    match datum {
        Datum::List(parts, _) => first_of(parts.as_slice()),
        Datum::Number(_, _) => Some(datum),
        Datum::Literal(_, _) => Some(datum),
        Datum::Word(_, _) => Some(datum),
        Datum::Quoted(_, _, _) => Some(datum),
        Datum::Stray(_) => Some(datum),
    }
}

/// The part that stands first.
pub fn first_of(parts: &[Datum]) -> Option<&Datum>
    ensures { option_map (λ d. datum_of d.now) result ≡ first_of (map datum_of parts.now) }
{
    match parts {
        [] => None,
        [first, ..] => Some(first),
    }
}

/// What stands behind the first part.
pub fn behind_first(parts: &[Datum]) -> &[Datum]
    ensures { map datum_of result.now ≡ behind_first (map datum_of parts.now) }
{
    match parts {
        [] => &[],
        [_, more @ ..] => more,
    }
}
