//! The sections of a frame, in the order of the text.
ghost use Rattle.std.specs.Prelude.{◌≡◌, [], Ok, map};
ghost use Rattle.cl_forms.specs.Datum.{offset};
ghost use Rattle.cl_forms.specs.DatumView.{datum_of};
ghost use Rattle.cl_forms.specs.KeyedView.{keyed_of};
ghost use Rattle.cl_forms.specs.Naming.{name_in};
ghost use Rattle.cl_expressions.specs.Load.{Gives, Notes as Noted, itself};
ghost use Rattle.cl_expressions.specs.Leaves.{Leaves, LeavesNotes};
ghost use Rattle.cl_declare.specs.Sections.{parse_slot, parse_slots, note_display, note_pane, note_panes, parse_section, parse_sections, parse_frame};

use crate::command_tables::note_tables;
use crate::frames::{FRAME_KEYS, FrameForm, frame_shape};
use cl_application::{SlotDecl, SlotDecls};
use cl_bodies::parse_type;
use cl_expressions::{Notes, Reader, Scope, parse_expression};
use cl_forms::{Datum, FormRefusal, Key, Keyed, keyed_sections, name_in, symbol_text};
use cl_table::Names;

/// `(define-application-frame NAME SECTION ...)`
pub fn parse_frame(
    reader: &Reader,
    at: u32,
    parts: &[Datum],
    notes: &mut Notes,
) -> Result<FrameForm, FormRefusal>
    ensures { Gives itself result notes.new
        (parse_frame reader.now.signatures.now at (map datum_of parts.now) notes.old) }
{
    let Some((name, sections)) = parts.split_first() else {
        return Err(FormRefusal::Refused(6, at));
    };
    let Some(sections) = keyed_sections(reader.alloc, &FRAME_KEYS, sections)? else {
        return Err(FormRefusal::Refused(6, at));
    };
    let shape = frame_shape(reader.alloc, reader.signatures, name, sections.as_slice())?;
    let Some(shape) = shape else {
        return Err(FormRefusal::Refused(6, at));
    };
    let slots = parse_sections(reader, sections.as_slice(), notes)?;
    Ok(FrameForm {
        name: shape.name,
        width: shape.size.width,
        height: shape.size.height,
        slots,
        panes: shape.panes,
        table: shape.table,
        at,
    })
}

/// The slots of a frame's sections. What is not declared is noted.
fn parse_sections(
    reader: &Reader,
    sections: &[Keyed],
    notes: &mut Notes,
) -> Result<SlotDecls, FormRefusal>
    ensures { Gives itself result notes.new
        (parse_sections reader.now.signatures.now (map keyed_of sections.now) [] notes.old) }
{
    let mut slots = SlotDecls::new(reader.alloc);
    for section in sections {
        parse_section(reader, section, &mut slots, notes)?;
    }
    Ok(slots)
}

fn parse_section(
    reader: &Reader,
    section: &Keyed,
    slots: &mut SlotDecls,
    notes: &mut Notes,
) -> Result<(), FormRefusal>
    ensures { Leaves result slots.new notes.new
        (parse_section reader.now.signatures.now (keyed_of section.now) slots.old notes.old) }
{
    match section.key {
        Key::Slots => parse_slots(reader, section.values, slots, notes),
        Key::Panes => {
            note_panes(reader, section.values, notes);
            Ok(())
        }
        Key::CommandTable => {
            note_tables(reader, section.values, notes);
            Ok(())
        }
        Key::Size => Ok(()),
        Key::Name => Ok(()),
        Key::Keystroke => Ok(()),
        Key::InheritFrom => Ok(()),
        Key::Satisfies => Ok(()),
        Key::Description => Ok(()),
        Key::Separator => Ok(()),
        Key::SingleBox => Ok(()),
        Key::Default => Ok(()),
        Key::Prompt => Ok(()),
        Key::Gesture => Ok(()),
        Key::Priority => Ok(()),
        Key::Documentation => Ok(()),
        Key::Tester => Ok(()),
        Key::UniqueId => Ok(()),
        Key::CacheValue => Ok(()),
        Key::Command => Ok(()),
        Key::Pane => Ok(()),
        Key::When => Ok(()),
        Key::Else => Ok(()),
    }
}

fn parse_slots(
    reader: &Reader,
    parts: &[Datum],
    slots: &mut SlotDecls,
    notes: &mut Notes,
) -> Result<(), FormRefusal>
    ensures { Leaves result slots.new notes.new
        (parse_slots reader.now.signatures.now (map datum_of parts.now) slots.old notes.old) }
{
    for slot in parts {
        parse_slot(reader, slot.offset(), slot.parts(), slots, notes)?;
    }
    Ok(())
}

/// `(NAME TYPE E)`
#[tactic(auto, using(crate::proofs::DeclarationCounts::slot_counts))]
fn parse_slot(
    reader: &Reader,
    at: u32,
    parts: &[Datum],
    slots: &mut SlotDecls,
    notes: &mut Notes,
) -> Result<(), FormRefusal>
    ensures { Leaves result slots.new notes.new
        (parse_slot reader.now.signatures.now at (map datum_of parts.now) slots.old notes.old) }
{
    match parts {
        [name, spec, value] => {
            let parameters = Names::new(reader.alloc);
            let spec = parse_type(reader, &parameters, spec, notes)?;
            let opening = parse_expression(&reader.seeing(&Scope::Empty), value, notes)?;
            let name = symbol_text(reader.alloc, name)?;
            let opening_at = value.offset();
            Ok(slots.add_first(SlotDecl {
                name,
                spec,
                opening,
                opening_at,
                at,
            })?)
        }
        [] => Ok(()),
        [_] => Ok(()),
        [_, _] => Ok(()),
        [_, _, _, _, ..] => Ok(()),
    }
}

/// The display of each pane is noted where it is not declared.
fn note_panes(reader: &Reader, panes: &[Datum], notes: &mut Notes)
    ensures { note_panes reader.now.signatures.now (map datum_of panes.now) notes.old
        ≡ Ok (tt, notes.new) }
{
    for pane in panes {
        note_pane(reader, pane.parts(), notes);
    }
}

#[tactic(auto, using(crate::proofs::DeclarationCounts::note_counts))]
fn note_pane(reader: &Reader, parts: &[Datum], notes: &mut Notes)
    ensures { note_pane reader.now.signatures.now (map datum_of parts.now) notes.old
        ≡ Ok (tt, notes.new) }
{
    match parts {
        [_, _, _, _, _, display] => note_display(reader, display, notes),
        [] => (),
        [_] => (),
        [_, _] => (),
        [_, _, _] => (),
        [_, _, _, _] => (),
        [_, _, _, _, _] => (),
        [_, _, _, _, _, _, _, ..] => (),
    }
}

fn note_display(reader: &Reader, display: &Datum, notes: &mut Notes)
    ensures { note_display reader.now.signatures.now (offset (datum_of display.now))
        (name_in (datum_of display.now)) notes.old ≡ Ok (tt, notes.new) }
{
    if let Some(name) = name_in(display) {
        notes.note(
            reader.signatures.display(name.as_slice()).is_some(),
            display.offset(),
        );
    }
}
