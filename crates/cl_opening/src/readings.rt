//! Opening values, defaults, what stands for queries that are not shown and predicates that read a slot.
ghost use Rattle.std.specs.Prelude.{◌≡◌, ◌↔◌, IfOk, IsTrue};
ghost use Rattle.cl_lattice.specs.Firsts.{IsFirst, offset_of};
ghost use Rattle.cl_opening.specs.Readings.{CommandReads, DialogReads, Finds, FindsReading, PredicateReads, TypeReads, command_offset, dialog_offset};

use cl_application::{Commands, DialogDecls};
use cl_declare::{Declarations, FrameForm};
use cl_phases::{SlotSearch, earlier};
use cl_syntax::{TypeDecl, UserTypes};
use std::alloc::{AllocError, Global};

/// The offset of the first declaration with an opening value, a default, an `:else` or a predicate that reads a
/// slot, through calls too. The body of each function is looked at once for all of them.
pub fn first_reading(alloc: Global, declarations: &Declarations) -> Result<Option<u32>, AllocError>
    ensures { IfOk result (FindsReading declarations.now) }
{
    let mut search = SlotSearch::new(alloc, &declarations.functions);
    let frame = first_frame(&mut search, declarations.frames.as_slice())?;
    let user_type = first_type(&mut search, &declarations.types)?;
    let command = first_command(&mut search, &declarations.commands)?;
    let dialog = first_dialog(&mut search, &declarations.dialogs)?;
    Ok(earlier(frame, earlier(user_type, earlier(command, dialog))))
}

/// The offset of the first frame with an opening value that reads a slot.
fn first_frame(search: &mut SlotSearch, frames: &[FrameForm]) -> Result<Option<u32>, AllocError>
    ensures found { IfOk result (Finds search.old frames.now) }
    ensures same { search.new ≡ search.old }
{
    for frame in frames {
        if search.any_reads_slot(&frame.slots)? {
            return Ok(Some(frame.at));
        }
    }
    Ok(None)
}

/// The offset of the first user type whose predicate reads a slot.
#[tactic(auto, using(crate::proofs::ReadingLemmas::types_here, crate::proofs::ReadingLemmas::types_next, crate::proofs::ReadingLemmas::types_done, crate::proofs::ReadingLemmas::types_start))]
fn first_type(search: &mut SlotSearch, types: &UserTypes) -> Result<Option<u32>, AllocError>
    ensures found { IfOk result (IsFirst (TypeReads search.old) offset_of types.now) }
    ensures same { search.new ≡ search.old }
{
    for place in 0..types.len() {
        let Some(decl) = types.at(place) else {
            unreachable!()
        };
        if predicate_reads(search, decl)? {
            return Ok(Some(decl.at));
        }
    }
    Ok(None)
}

/// The offset of the first command with a default that reads a slot.
#[tactic(auto, using(crate::proofs::ReadingLemmas::commands_here, crate::proofs::ReadingLemmas::commands_next, crate::proofs::ReadingLemmas::commands_done, crate::proofs::ReadingLemmas::commands_start))]
fn first_command(search: &mut SlotSearch, commands: &Commands) -> Result<Option<u32>, AllocError>
    ensures found { IfOk result (IsFirst (CommandReads search.old) command_offset commands.now) }
    ensures same { search.new ≡ search.old }
{
    for place in 0..commands.len() {
        let Some(command) = commands.at(place) else {
            unreachable!()
        };
        if search.command_reads_slot(command)? {
            return Ok(Some(command.at));
        }
    }
    Ok(None)
}

/// The offset of the first dialog with an `:else` that reads a slot.
#[tactic(auto, using(crate::proofs::DialogReadings::dialogs_here, crate::proofs::DialogReadings::dialogs_next, crate::proofs::DialogReadings::dialogs_done, crate::proofs::DialogReadings::dialogs_start))]
fn first_dialog(search: &mut SlotSearch, dialogs: &DialogDecls) -> Result<Option<u32>, AllocError>
    ensures { IfOk result (IsFirst (DialogReads search.old) dialog_offset dialogs.now) }
{
    for place in 0..dialogs.len() {
        let Some(dialog) = dialogs.at(place) else {
            unreachable!()
        };
        if search.dialog_reads_slot(dialog)? {
            return Ok(Some(dialog.at));
        }
    }
    Ok(None)
}

/// Whether the predicate of a user type reads a slot.
fn predicate_reads(search: &mut SlotSearch, decl: &TypeDecl) -> Result<bool, AllocError>
    ensures reads { IfOk result (λ b. IsTrue b ↔ PredicateReads search.old decl.now.satisfies) }
    ensures same { search.new ≡ search.old }
{
    match &decl.satisfies {
        Some(function) => search.function_reads_slot(function.as_slice()),
        None => Ok(false),
    }
}
