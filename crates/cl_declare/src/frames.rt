//! The shape of a frame, but for the forms in it.
ghost use Rattle.std.specs.Prelude.{◌≡◌, IfOk, map, option_map};
ghost use Rattle.cl_forms.specs.Datum.{parts_of};
ghost use Rattle.cl_forms.specs.DatumView.{datum_of};
ghost use Rattle.cl_forms.specs.KeyedView.{keyed_of};
ghost use Rattle.cl_declare.specs.Frames.{number_in, size_in, is_slot, are_slots, takes_none, place_in, pane_of, pane_listed, some_panes, behind, frame_shape};

use crate::command_tables::table_or_global;
use crate::pane_forms::{PaneForm, PaneForms};
use crate::type_shapes::name_behind;
use cl_application::SlotDecls;
use cl_forms::{Datum, Key, Keyed, fits, name_in, values_of};
use cl_value::Text;
use cl_words::Signatures;
use std::alloc::{AllocError, Global};

/// The keys that a frame may have.
pub const FRAME_KEYS: [Key; 4] = [Key::Size, Key::Slots, Key::Panes, Key::CommandTable];

/// A frame as its text gives it, sizes in cells.
#[derive(Drop)]
pub struct FrameForm {
    pub name: Text,
    pub width: i64,
    pub height: i64,
    pub slots: SlotDecls,
    pub panes: PaneForms,
    pub table: Text,
    pub at: u32,
}

/// Two numbers of cells.
#[derive(Clone, Copy)]
pub struct Size {
    pub width: i64,
    pub height: i64,
}

/// Where a pane lies in its frame, in cells.
#[derive(Clone, Copy)]
struct Place {
    x: i64,
    y: i64,
    width: i64,
    height: i64,
}

/// What a frame is, but for its slots.
#[derive(Drop)]
pub struct FrameShape {
    pub name: Text,
    pub size: Size,
    pub panes: PaneForms,
    pub table: Text,
}

/// The name, the size, the panes and the command table of a frame; None where the frame is wrong by itself.
pub fn frame_shape(
    alloc: Global,
    signatures: &Signatures,
    name: &Datum,
    sections: &[Keyed],
) -> Result<Option<FrameShape>, AllocError>
    ensures { IfOk result
        (λ f. f ≡ frame_shape signatures.now (datum_of name.now) (map keyed_of sections.now)) }
{
    if !are_slots(behind(Key::Slots, sections)) {
        return Ok(None);
    }
    let Some(name) = name_in(name) else {
        return Ok(None);
    };
    let Some(size) = size_in(behind(Key::Size, sections)) else {
        return Ok(None);
    };
    let Some(panes) = some_panes(alloc, signatures, behind(Key::Panes, sections))? else {
        return Ok(None);
    };
    let Some(table) = name_behind(values_of(Key::CommandTable, sections)) else {
        return Ok(None);
    };
    let table = table_or_global(alloc, table)?;
    let name = name.copy()?;
    Ok(Some(FrameShape {
        name,
        size,
        panes,
        table,
    }))
}

/// What stands behind a key; nothing where the frame has no such section.
pub fn behind<'a>(key: Key, sections: &[Keyed<'a>]) -> &'a [Datum]
    ensures { map datum_of result.now ≡ behind key (map keyed_of sections.now) }
{
    match values_of(key, sections) {
        Some(values) => values,
        None => &[],
    }
}

pub fn number_in(datum: &Datum) -> Option<i64>
    ensures { result ≡ number_in (datum_of datum.now) }
{
    match datum {
        Datum::Number(number, _) => Some(*number),
        Datum::Literal(_, _) => None,
        Datum::Word(_, _) => None,
        Datum::Quoted(_, _, _) => None,
        Datum::Stray(_) => None,
        Datum::List(_, _) => None,
    }
}

/// `WIDTH HEIGHT`
#[tactic(auto, using(crate::proofs::DeclarationCounts::size_counts))]
fn size_in(parts: &[Datum]) -> Option<Size>
    ensures { result ≡ size_in (map datum_of parts.now) }
{
    match parts {
        [width, height] => Some(Size {
            width: number_in(width)?,
            height: number_in(height)?,
        }),
        [] => None,
        [_] => None,
        [_, _, _, ..] => None,
    }
}

fn are_slots(slots: &[Datum]) -> bool
    ensures { result ≡ are_slots (map datum_of slots.now) }
{
    for slot in slots {
        if !is_slot(slot.parts()) {
            return false;
        }
    }
    true
}

/// Whether these are the parts of `(NAME TYPE E)`.
#[tactic(auto, using(crate::proofs::DeclarationCounts::is_slot_counts))]
fn is_slot(parts: &[Datum]) -> bool
    ensures { result ≡ is_slot (map datum_of parts.now) }
{
    match parts {
        [name, _, _] => name_in(name).is_some(),
        [] => false,
        [_] => false,
        [_, _] => false,
        [_, _, _, _, ..] => false,
    }
}

/// The panes of a frame; None where there is none, or one of them is wrong by itself.
#[tactic(auto, using(crate::proofs::PaneLemmas::pane_behind))]
fn some_panes(
    alloc: Global,
    signatures: &Signatures,
    panes: &[Datum],
) -> Result<Option<PaneForms>, AllocError>
    ensures { IfOk result (λ p. p ≡ some_panes signatures.now (map datum_of panes.now)) }
{
    let Some((first, more)) = panes.split_first() else {
        return Ok(None);
    };
    let Some(first) = pane_listed(signatures, first.offset(), first.parts())? else {
        return Ok(None);
    };
    let mut forms = PaneForms::of(alloc, first)?;
    for pane in more {
        let Some(pane) = pane_listed(signatures, pane.offset(), pane.parts())? else {
            return Ok(None);
        };
        forms.push(pane)?;
    }
    Ok(Some(forms))
}

/// `(NAME X Y WIDTH HEIGHT DISPLAY)`
#[tactic(auto, using(crate::proofs::DeclarationCounts::pane_counts))]
fn pane_listed(
    signatures: &Signatures,
    at: u32,
    parts: &[Datum],
) -> Result<Option<PaneForm>, AllocError>
    ensures { IfOk result (λ p. p ≡ pane_listed signatures.now at (map datum_of parts.now)) }
{
    match parts {
        [name, x, y, width, height, display] => {
            let place = place_in(x, y, width, height);
            pane_of(signatures, at, name_in(name), place, name_in(display))
        }
        [] => Ok(None),
        [_] => Ok(None),
        [_, _] => Ok(None),
        [_, _, _] => Ok(None),
        [_, _, _, _] => Ok(None),
        [_, _, _, _, _] => Ok(None),
        [_, _, _, _, _, _, _, ..] => Ok(None),
    }
}

fn place_in(x: &Datum, y: &Datum, width: &Datum, height: &Datum) -> Option<Place>
    ensures { result ≡ place_in (datum_of x.now) (datum_of y.now) (datum_of width.now) (datum_of height.now) }
{
    Some(Place {
        x: number_in(x)?,
        y: number_in(y)?,
        width: number_in(width)?,
        height: number_in(height)?,
    })
}

fn pane_of(
    signatures: &Signatures,
    at: u32,
    name: Option<&Text>,
    place: Option<Place>,
    display: Option<&Text>,
) -> Result<Option<PaneForm>, AllocError>
    ensures { IfOk result (λ p. p ≡ pane_of signatures.now at (option_map (λ n. n.now) name.entry) place
        (option_map (λ n. n.now) display.entry)) }
{
    let Some(name) = name else {
        return Ok(None);
    };
    let Some(place) = place else {
        return Ok(None);
    };
    let Some(display) = display else {
        return Ok(None);
    };
    if !takes_none(signatures.display(display.as_slice())) {
        return Ok(None);
    }
    Ok(Some(PaneForm {
        name: name.copy()?,
        x: place.x,
        y: place.y,
        width: place.width,
        height: place.height,
        display: display.copy()?,
        at,
    }))
}

/// Whether a display that is declared takes no parameters.
fn takes_none(count: Option<Option<usize>>) -> bool
    ensures { result ≡ takes_none count }
{
    match count {
        Some(count) => fits(count, 0),
        None => true,
    }
}
