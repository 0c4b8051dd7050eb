//! What is told of a screen and of a pane.
ghost use Rattle.std.specs.Prelude.{◌≡◌, ◌<◌, ◌++◌, ◌∷◌, All, IfOk, codes, length, map};
ghost use Rattle.std.specs.Fmt.{decimal};
ghost use Rattle.cl_application.specs.Panes.{panes_of};
ghost use Rattle.cl_raster.specs.Raster.{IsInk};
ghost use Rattle.cl_record.specs.Lines.{item_line, lines_from};
ghost use Rattle.cl_frame.specs.Frames.{IsFrameOf, marks_of_frame};
ghost use Rattle.cl_frame.specs.Panes.{marks_in, marks_of_pane, shown_panes};
ghost use Rattle.cl_redisplay.specs.Shown.{ink_digit, shown_ink_rows, shown_rows};
ghost use Rattle.cl_session.specs.Step.{headed_lines};
ghost use Rattle.cl_session.specs.Telling.{TellsPane, place_of_pane};

use crate::handling::{joined, one_line};
use cl_application::App;
use cl_eval::Lines;
use cl_frame::{Frame, Pane};
use cl_value::Text;
use std::alloc::{AllocError, Global};

/// The glyphs of each row of the screen.
pub fn frame_lines(alloc: Global, app: &App, frame: &Frame) -> Result<Lines, AllocError>
    requires { IsFrameOf app.now frame.now }
    ensures { IfOk result (λ l. l
        ≡ shown_rows (shown_panes (panes_of app.now) (marks_of_frame frame.now)) app.now.frame.width
        app.now.frame.height) }
{
    let mut lines = Lines::new(alloc);
    for y in 0..app.frame.height {
        lines.push(Text::from_slice(alloc, frame.row(y))?)?;
    }
    Ok(lines)
}

/// The inks of each row of the screen, as digits.
pub fn ink_lines(alloc: Global, app: &App, frame: &Frame) -> Result<Lines, AllocError>
    requires { IsFrameOf app.now frame.now }
    ensures { IfOk result (λ l. l
        ≡ shown_ink_rows (shown_panes (panes_of app.now) (marks_of_frame frame.now))
        app.now.frame.width app.now.frame.height) }
{
    let mut lines = Lines::new(alloc);
    for y in 0..app.frame.height {
        let digits = digits(alloc, frame.inks(y))?;
        lines.push(Text::from_vec(alloc, digits)?)?;
    }
    Ok(lines)
}

// Inks as digits.
fn digits(alloc: Global, inks: &[u8]) -> Result<Vec<u8>, AllocError>
    requires { All IsInk inks.now }
    ensures { IfOk result (λ v. v.items ≡ map ink_digit inks.now) }
{
    let mut digits = Vec::new(alloc);
    for ink in inks {
        digits.push(b'0' + *ink)?;
    }
    Ok(digits)
}

/// The place of the pane of this name, without regard to case.
pub fn place_of_pane(app: &App, name: &[u8]) -> Option<usize>
    ensures { result ≡ place_of_pane name.now (panes_of app.now) }
{
    for place in 0..app.frame.panes.len() {
        let Some(pane) = app.frame.panes.at(place) else {
            unreachable!()
        };
        if name.eq_ignore_ascii_case(pane.name.as_slice()) {
            return Some(place);
        }
    }
    None
}

/// The lines of the history of the pane in this place.
pub fn history_lines(
    alloc: Global,
    app: &App,
    frame: &Frame,
    place: usize,
) -> Result<Lines, AllocError>
    requires place { place < length (panes_of app.now) }
    requires frame { IsFrameOf app.now frame.now }
    ensures { IfOk result (TellsPane (panes_of app.now) (marks_of_frame frame.now) place) }
{
    let Some(declared) = app.frame.panes.at(place) else {
        unreachable!()
    };
    pane_lines(alloc, declared.name.as_slice(), &frame.panes[place])
}

// A line with the pane's name and how many lines follow, and the lines of its history.
fn pane_lines(alloc: Global, name: &[u8], pane: &Pane) -> Result<Lines, AllocError>
    ensures { IfOk result (λ l. l
        ≡ headed_lines name.now (lines_from item_line 0 (marks_in (marks_of_pane pane.now)))) }
{
    let texts = printed(alloc, pane)?;
    let mut lines = one_line(alloc, &head(alloc, name, texts.len())?)?;
    for text in texts.as_slice() {
        lines.push(text.copy()?)?;
    }
    Ok(lines)
}

// The first of them.
fn head(alloc: Global, name: &[u8], count: usize) -> Result<Vec<u8>, AllocError>
    ensures { IfOk result (λ v. v.items ≡ codes "history " ++ name.now ++ 32 ∷ decimal count) }
{
    let named = joined(alloc, b"history ", name)?;
    let count = format!(in alloc; " {count}")?;
    joined(alloc, &named, count.as_bytes())
}

// The others.
fn printed(alloc: Global, pane: &Pane) -> Result<Vec<Text>, AllocError>
    ensures { IfOk result
        (λ v. v.items ≡ lines_from item_line 0 (marks_in (marks_of_pane pane.now))) }
{
    let mut texts = Vec::new(alloc);
    if let Some(history) = &pane.history {
        history.print(alloc, &mut texts)?;
    }
    Ok(texts)
}
