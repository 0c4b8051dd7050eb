//! The device of a frame, and its panes in it.
ghost use Rattle.std.specs.Prelude.{◌≡◌, [], IfOk};
ghost use Rattle.cl_application.specs.Panes.{are_parted, lie_apart, IsPlaced};
ghost use Rattle.cl_opening.specs.Placing.{side, span_of, pane_on, is_apart, place_pane, place_panes, place_frame, Places};
ghost use Rattle.cl_expressions.specs.Load.{itself};
ghost use Rattle.cl_opening.specs.Answers.{Makes};

use cl_application::{FrameDecl, PaneDecl, PaneDecls};
use cl_declare::{FrameForm, PaneForm};
use cl_forms::FormRefusal;
use std::alloc::{AllocError, Global};

/// Cells along a side of the frame.
#[derive(Clone, Copy)]
pub struct Span {
    pub from: u16,
    pub count: u16,
}

/// The frame on its device, or refusal 15.
pub fn place_frame(alloc: Global, frame: FrameForm) -> Result<FrameDecl, FormRefusal>
    ensures value { Makes itself result (place_frame frame) }
    ensures placed { IfOk result IsPlaced }
{
    let Some(width) = side(512, frame.width) else {
        return Err(FormRefusal::Refused(15, frame.at));
    };
    let Some(height) = side(256, frame.height) else {
        return Err(FormRefusal::Refused(15, frame.at));
    };
    frame.panes.has_pane();
    let panes = place_panes(alloc, width, height, frame.panes.as_slice())?;
    Ok(FrameDecl {
        name: frame.name,
        width,
        height,
        slots: frame.slots,
        panes,
        table: frame.table,
        at: frame.at,
    })
}

/// All panes in order of declaration.
fn place_panes(
    alloc: Global,
    width: u16,
    height: u16,
    panes: &[PaneForm],
) -> Result<PaneDecls, FormRefusal>
    ensures { Makes itself result (place_panes width height panes.now []) }
{
    let mut placed = PaneDecls::new(alloc);
    for pane in panes {
        place_pane(width, height, pane, &mut placed)?;
    }
    Ok(placed)
}

/// A pane behind those that were placed.
fn place_pane(
    width: u16,
    height: u16,
    pane: &PaneForm,
    placed: &mut PaneDecls,
) -> Result<(), FormRefusal>
    ensures { Places result placed.new (place_pane width height pane.now placed.old) }
{
    let Some(decl) = pane_on(width, height, pane)? else {
        return Err(FormRefusal::Refused(15, pane.at));
    };
    if !is_apart(&decl, placed) {
        return Err(FormRefusal::Refused(15, pane.at));
    }
    Ok(placed.add_first(decl)?)
}

/// The pane on its device, where it has a place there.
fn pane_on(width: u16, height: u16, pane: &PaneForm) -> Result<Option<PaneDecl>, AllocError>
    ensures { IfOk result (λ p. p ≡ pane_on width height pane.now) }
{
    let Some(across) = span_of(width, pane.x, pane.width) else {
        return Ok(None);
    };
    let Some(down) = span_of(height, pane.y, pane.height) else {
        return Ok(None);
    };
    Ok(Some(PaneDecl {
        name: pane.name.copy()?,
        x: across.from,
        y: down.from,
        width: across.count,
        height: down.count,
        display: pane.display.copy()?,
        at: pane.at,
    }))
}

/// Whether the pane lies apart from all that were placed.
fn is_apart(pane: &PaneDecl, placed: &PaneDecls) -> bool
    ensures { result ≡ is_apart pane.now placed.now }
{
    for place in 0..placed.len() {
        let Some(other) = placed.at(place) else {
            unreachable!()
        };
        if !lie_apart(other, pane) {
            return false;
        }
    }
    true
}

fn lie_apart(one: &PaneDecl, other: &PaneDecl) -> bool
    ensures { result ≡ lie_apart one.now other.now }
{
    are_parted(one.x, one.width, other.x, other.width)
        || are_parted(one.y, one.height, other.y, other.height)
}

/// Whether a stretch of so many cells ends before the other one begins, or begins behind its end.
fn are_parted(from: u16, count: u16, other: u16, other_count: u16) -> bool
    ensures { result ≡ are_parted from count other other_count }
{
    let end = u32::from(from) + u32::from(count);
    let other_end = u32::from(other) + u32::from(other_count);
    end <= u32::from(other) || other_end <= u32::from(from)
}

/// A side of the device, from 1 to the most.
fn side(most: u16, number: i64) -> Option<u16>
    ensures { result ≡ side most number }
{
    match u16::try_from(number) {
        Ok(n) if 1 <= n && n <= most => Some(n),
        _ => None,
    }
}

/// A side of a pane, of at least one cell and within the device's.
fn span_of(most: u16, from: i64, count: i64) -> Option<Span>
    ensures { result ≡ span_of most from count }
{
    let (Ok(from), Ok(count)) = (u16::try_from(from), u16::try_from(count)) else {
        return None;
    };
    if 1 <= count && count <= most && from <= most - count {
        Some(Span { from, count })
    } else {
        None
    }
}
