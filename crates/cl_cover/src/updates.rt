//! Updates whose listed paths do not cover what their body reads.
ghost use Rattle.std.specs.Prelude.{◌≡◌, ◌++◌, IfOk};
ghost use Rattle.cl_syntax.specs.ShapeTree.{shape_trees_of};
ghost use Rattle.cl_syntax.specs.UpdateTree.{UpdateTree};
ghost use Rattle.cl_cover.specs.Updates.{cached, uncovered_among, uncovered_of, updates_among, updates_in, updates_of};

use crate::coverage::first_uncovered;
use crate::listed::listed_paths;
use cl_application::App;
use cl_syntax::{Path, Shape, ShapeKind, Update};
use std::alloc::{AllocError, Global};

/// An update with a cache that does not cover what its body reads: the offset of its form in the text, and the first path that the
/// body reads and that the cache does not cover.
#[derive(Drop)]
pub struct Uncovered {
    pub form: u32,
    pub path: Path,
}

/// The first update with a cache, in the order of the text, whose listed paths do not cover what its body reads; `None` where each
/// is covered.
pub fn first_uncovered_update(alloc: Global, app: &App) -> Result<Option<Uncovered>, AllocError>
    ensures { IfOk result (λ found. found ≡ uncovered_of app.now) }
{
    let displays = &app.displays;
    for place in 0..displays.len() {
        let Some(display) = displays.at(place) else {
            unreachable!()
        };
        if let Some(found) = uncovered_in_forms(alloc, app, display.body.as_slice())? {
            return Ok(Some(found));
        }
    }
    Ok(None)
}

/// The first in a display form.
#[cycle(uncovered_in_form)]
#[tactic(auto, using(crate::proofs::UpdateLemmas::behind_others))]
fn uncovered_in_form(
    alloc: Global,
    app: &App,
    form: &Shape,
) -> Result<Option<Uncovered>, AllocError>
    ensures { IfOk result (λ found. found ≡ uncovered_among app.now (updates_in form.now)) }
{
    match &form.kind {
        ShapeKind::WriteText(_) => Ok(None),
        ShapeKind::Newline => Ok(None),
        ShapeKind::Draw(_, _) => Ok(None),
        ShapeKind::Indent(_, body) => uncovered_in_forms(alloc, app, body.as_slice()),
        ShapeKind::Ink(_, body) => uncovered_in_forms(alloc, app, body.as_slice()),
        ShapeKind::Room(body) => uncovered_in_forms(alloc, app, body.as_slice()),
        ShapeKind::Present(_, _) => Ok(None),
        ShapeKind::AsPresentation(_, body) => uncovered_in_forms(alloc, app, body.as_slice()),
        ShapeKind::Update(update, body) => uncovered_at(alloc, app, update, body.as_slice()),
        ShapeKind::If(choice) => match uncovered_in_form(alloc, app, &choice.then)? {
            Some(found) => Ok(Some(found)),
            None => uncovered_in_form(alloc, app, &choice.other),
        },
        ShapeKind::When(_, body) => uncovered_in_forms(alloc, app, body.as_slice()),
        ShapeKind::Let(_, body) => uncovered_in_forms(alloc, app, body.as_slice()),
        ShapeKind::Dolist(_, _, body) => uncovered_in_forms(alloc, app, body.as_slice()),
        ShapeKind::Progn(body) => uncovered_in_forms(alloc, app, body.as_slice()),
        ShapeKind::Call(_, _) => Ok(None),
    }
}

/// The first of an update and those in its body.
#[cycle(uncovered_in_form)]
#[tactic(auto, using(crate::proofs::UpdateLemmas::behind_others))]
fn uncovered_at(
    alloc: Global,
    app: &App,
    update: &Update,
    body: &[Shape],
) -> Result<Option<Uncovered>, AllocError>
    ensures { IfOk result (λ found. found
        ≡ uncovered_among app.now (cached update.now.site update.now.cache (shape_trees_of body.now) ++ updates_among (shape_trees_of body.now))) }
{
    match uncovered_itself(alloc, app, update, body)? {
        Some(found) => Ok(Some(found)),
        None => uncovered_in_forms(alloc, app, body),
    }
}

/// The first in forms in a row.
#[cycle(uncovered_in_form)]
#[tactic(auto, using(crate::proofs::Parts::form_nodes))]
fn uncovered_in_forms(
    alloc: Global,
    app: &App,
    forms: &[Shape],
) -> Result<Option<Uncovered>, AllocError>
    ensures { IfOk result (λ found. found ≡ uncovered_among app.now (updates_among (shape_trees_of forms.now))) }
{
    for form in forms {
        if let Some(found) = uncovered_in_form(alloc, app, form)? {
            return Ok(Some(found));
        }
    }
    Ok(None)
}

/// The update itself, where it has a cache that does not cover what its body reads.
fn uncovered_itself(
    alloc: Global,
    app: &App,
    update: &Update,
    body: &[Shape],
) -> Result<Option<Uncovered>, AllocError>
    ensures { IfOk result (λ found. found ≡ uncovered_among app.now (cached update.now.site update.now.cache (shape_trees_of body.now))) }
{
    let Some(cache) = update.cache() else {
        return Ok(None);
    };
    let listed = listed_paths(alloc, cache)?;
    match first_uncovered(alloc, app, listed.as_slice(), body)? {
        Some(path) => Ok(Some(Uncovered {
            form: update.site().form,
            path,
        })),
        None => Ok(None),
    }
}
