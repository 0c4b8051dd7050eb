//! Lengths and counts that are past their limits.
ghost use Rattle.std.specs.Prelude.{◌≡◌, map, option_map};
ghost use Rattle.cl_forms.specs.Datum.{datums_of};
ghost use Rattle.cl_forms.specs.DatumView.{datum_of};
ghost use Rattle.cl_forms.specs.Outer.{behind_name};
ghost use Rattle.cl_forms.specs.OuterView.{outer_of};
ghost use Rattle.cl_phases.specs.Limits.{first_past, long_among, long_in, long_line, past, past_declaration, past_declarations, past_kind, past_line, past_outer, past_parameters, past_queries, past_section, past_sections};

use crate::command_names::head_value;
use crate::offsets::{at_if, earlier};
use cl_forms::{
    Datum, DeclarationKind, Key, Outer, OuterKind, behind_first, outer_in, section_values,
};

/// The most bytes of a symbol.
const LONGEST_SYMBOL: usize = 64;
/// The most bytes of a command-line name.
const LONGEST_LINE: usize = 64;
/// The most bytes of a literal text.
const LONGEST_TEXT: usize = 4_096;
/// The most outermost forms.
const MOST_FORMS: usize = 4_096;
/// The most fields of a record, the most parameters of a user type, a function or a display, the most
/// arguments of a command and the most queries of a dialog.
const MOST_NAMES: usize = 16;
/// The most slots of a frame.
const MOST_SLOTS: usize = 256;
/// The most panes of a frame.
const MOST_PANES: usize = 16;

/// The least offset of what is past a limit: a symbol, a text or a command-line name that is too long, and
/// the first form, field, parameter, argument, query, slot or pane that is one too many.
pub fn first_past(forms: &[Datum]) -> Option<u32>
    ensures { result ≡ first_past (map datum_of forms.now) }
{
    let long = long_among(forms);
    let counted = past_declarations(forms);
    earlier(past(MOST_FORMS, forms), earlier(long, counted))
}

/// The first symbol or text in a datum that is too long.
#[cycle(long)]
fn long_in(datum: &Datum) -> Option<u32>
    ensures { result ≡ long_in (datum_of datum.now) }
{
    match datum {
        Datum::Number(_, _) => None,
        Datum::Literal(text, at) => at_if(text.as_slice().len() > LONGEST_TEXT, *at),
        Datum::Word(word, at) => at_if(word.as_slice().len() > LONGEST_SYMBOL, *at),
        Datum::Quoted(name, _, at) => at_if(name.as_slice().len() > LONGEST_SYMBOL, *at),
        Datum::Stray(_) => None,
        Datum::List(parts, _) => long_among(parts.as_slice()),
    }
}

#[cycle(long)]
#[tactic(auto, using(cl_forms::proofs::Data::datum_weighs, crate::proofs::EarlierLemmas::earlier_assoc, crate::proofs::EarlierLemmas::earlier_none))]
fn long_among(parts: &[Datum]) -> Option<u32>
    ensures { result ≡ long_among (datums_of (map datum_of parts.now)) }
{
    let mut first = None;
    for part in parts {
        first = earlier(first, long_in(part));
    }
    first
}

/// The first part behind so many.
fn past(count: usize, parts: &[Datum]) -> Option<u32>
    ensures { result ≡ past count (map datum_of parts.now) }
{
    match parts.get(count) {
        Some(part) => Some(part.offset()),
        None => None,
    }
}

/// The first declaration's part that is one too many.
#[tactic(auto, using(crate::proofs::EarlierLemmas::earlier_assoc, crate::proofs::EarlierLemmas::earlier_none))]
fn past_declarations(forms: &[Datum]) -> Option<u32>
    ensures { result ≡ past_declarations (map datum_of forms.now) }
{
    let mut first = None;
    for form in forms {
        let outer = outer_in(form);
        first = earlier(first, past_declaration(&outer));
    }
    first
}

fn past_declaration(outer: &Outer<'_>) -> Option<u32>
    ensures { result ≡ past_declaration (outer_of outer.now) }
{
    let line = past_line(head_value(Key::Name, outer));
    earlier(line, past_outer(outer))
}

/// A command-line name that is given and too long.
fn past_line(given: Option<&Datum>) -> Option<u32>
    ensures { result ≡ past_line (option_map (λ d. datum_of d.now) given.entry) }
{
    match given {
        Some(given) => long_line(given),
        None => None,
    }
}

fn long_line(datum: &Datum) -> Option<u32>
    ensures { result ≡ long_line (datum_of datum.now) }
{
    match datum {
        Datum::Literal(text, at) => at_if(text.as_slice().len() > LONGEST_LINE, *at),
        Datum::Number(_, _) => None,
        Datum::Word(_, _) => None,
        Datum::Quoted(_, _, _) => None,
        Datum::Stray(_) => None,
        Datum::List(_, _) => None,
    }
}

fn past_outer(outer: &Outer<'_>) -> Option<u32>
    ensures { result ≡ past_outer (outer_of outer.now).kind (behind_name (outer_of outer.now)) }
{
    match outer.kind {
        OuterKind::Declared(kind) => past_kind(kind, outer.behind_name()),
        OuterKind::Planned(_) => None,
        OuterKind::Unknown(_) => None,
        OuterKind::Headless => None,
    }
}

fn past_kind(kind: DeclarationKind, more: &[Datum]) -> Option<u32>
    ensures { result ≡ past_kind kind (map datum_of more.now) }
{
    match kind {
        DeclarationKind::Record => past(MOST_NAMES, more),
        DeclarationKind::PresentationType => past_parameters(more),
        DeclarationKind::HostType => None,
        DeclarationKind::PresentMethod => None,
        DeclarationKind::AcceptMethod => None,
        DeclarationKind::Function => past_parameters(more),
        DeclarationKind::Display => past_parameters(more),
        DeclarationKind::CommandTable => None,
        DeclarationKind::Command => past_parameters(more),
        DeclarationKind::Translator => None,
        DeclarationKind::CommandTranslator => None,
        DeclarationKind::Dialog => past_queries(more),
        DeclarationKind::Frame => past_sections(more),
    }
}

fn past_parameters(more: &[Datum]) -> Option<u32>
    ensures { result ≡ past_parameters (map datum_of more.now) }
{
    match more {
        [] => None,
        [parameters, ..] => past(MOST_NAMES, parameters.parts()),
    }
}

/// The queries of a dialog stand behind its name and its keys.
fn past_queries(more: &[Datum]) -> Option<u32>
    ensures { result ≡ past_queries (map datum_of more.now) }
{
    past(MOST_NAMES, behind_first(more))
}

#[tactic(auto, using(crate::proofs::EarlierLemmas::earlier_assoc, crate::proofs::EarlierLemmas::earlier_none))]
fn past_sections(sections: &[Datum]) -> Option<u32>
    ensures { result ≡ past_sections (map datum_of sections.now) }
{
    let mut first = None;
    for section in sections {
        first = earlier(first, past_section(section));
    }
    first
}

fn past_section(section: &Datum) -> Option<u32>
    ensures { result ≡ past_section (datum_of section.now) }
{
    let slots = past(MOST_SLOTS, section_values(Key::Slots, section));
    let panes = past(MOST_PANES, section_values(Key::Panes, section));
    earlier(slots, panes)
}
