//! What keys do in an application.
ghost use Rattle.std.specs.Prelude.{◌≡◌, IfOk, IfSome, map, option_map, true};
ghost use Rattle.cl_application.specs.Panes.{declared_by, panes_of};
ghost use Rattle.cl_keys.specs.Gestures.{gesture_of, has_cell, lies_in, name_of, pane_at, pointed};

use crate::keys::{Button, Key, Press};
use cl_application::{App, PaneDecl, PaneDecls};
use cl_gesture::{Gesture, PointAt};
use cl_translators::GestureName;
use cl_value::Text;
use std::alloc::{AllocError, Global};

/// The gesture that a key makes in an application: a press points at the pane in which its cell lies, the first one in order of
/// declaration. None: a press outside of all panes, and the end.
pub fn gesture_of(alloc: Global, app: &App, key: &Key) -> Result<Option<Gesture>, AllocError>
    ensures { IfOk result (λ g. g ≡ gesture_of app.now key.now) }
{
    match key {
        Key::Typed(byte) => Ok(Some(Gesture::Type(Text::from_slice(alloc, &[*byte])?))),
        Key::Return => Ok(Some(Gesture::Return)),
        Key::Rubout => Ok(Some(Gesture::Rubout)),
        Key::Clear => Ok(Some(Gesture::Clear)),
        Key::Force => Ok(Some(Gesture::Force)),
        Key::Stroke(letter) => Ok(Some(Gesture::Stroke(Text::from_slice(alloc, &[*letter])?))),
        Key::Press(press) => pointed(press, app),
        Key::End => Ok(None),
    }
}

// The gesture of a press.
fn pointed(press: &Press, app: &App) -> Result<Option<Gesture>, AllocError>
    ensures { IfOk result (λ g. g ≡ pointed press.now (panes_of app.now)) }
{
    match pane_at(press.column, press.row, &app.frame.panes) {
        Some(pane) => Ok(Some(Gesture::Point(PointAt {
            pane: pane.name.copy()?,
            gesture: name_of(press.button),
            x: i64::from(press.column - pane.x),
            y: i64::from(press.row - pane.y),
        }))),
        None => Ok(None),
    }
}

// The gesture of the pointer that a button makes.
fn name_of(button: Button) -> GestureName
    ensures { result ≡ name_of button }
{
    match button {
        Button::Left => GestureName::Select,
        Button::Middle => GestureName::Describe,
        Button::Right => GestureName::Menu,
    }
}

// The first pane in which a cell lies.
fn pane_at(column: u16, row: u16, panes: &PaneDecls) -> Option<&PaneDecl>
    ensures first { option_map (λ p. p.now) result ≡ pane_at column row (map declared_by panes.now) }
    ensures within { IfSome result (λ p. has_cell column row p.now ≡ true) }
{
    for place in 0..panes.len() {
        let Some(pane) = panes.at(place) else {
            unreachable!()
        };
        if has_cell(column, row, pane) {
            return Some(pane);
        }
    }
    None
}

// Whether a cell lies in a pane.
fn has_cell(column: u16, row: u16, pane: &PaneDecl) -> bool
    ensures { result ≡ has_cell column row pane.now }
{
    lies_in(pane.x, pane.width, column) && lies_in(pane.y, pane.height, row)
}

// Whether a number lies among so many from a start on.
fn lies_in(start: u16, count: u16, number: u16) -> bool
    ensures { result ≡ lies_in start count number }
{
    start <= number && u32::from(number) < u32::from(start) + u32::from(count)
}
