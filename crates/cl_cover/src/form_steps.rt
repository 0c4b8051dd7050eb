//! The steps of display forms, in the order of the text.
ghost use Rattle.std.specs.Prelude.{◌≡◌, [], ◌++◌, OnOk};
ghost use Rattle.cl_syntax.specs.ShapeTree.{shape_trees_of};
ghost use Rattle.cl_cover.specs.Sights.{behind};
ghost use Rattle.cl_cover.specs.Steps.{steps, steps_cache, steps_form, steps_forms, steps_id};

use crate::expression_steps::{add_among, add_bound, add_steps};
use crate::sights::Sight;
use crate::spec_steps::add_spec;
use crate::steps::Step;
use crate::update_steps::{add_cache, add_id};
use cl_syntax::{Callee, Expr, Shape, ShapeKind, Update};
use cl_table::Names;
use cl_value::Text;
use std::alloc::{AllocError, Global};

/// Adds the steps of a display form.
#[cycle(add_form)]
#[tactic(auto, using(crate::proofs::SightLemmas::back_all))]
fn add_form(
    alloc: Global,
    form: &Shape,
    sight: &mut Sight,
    out: &mut Vec<Step>,
) -> Result<(), AllocError>
    ensures steps { OnOk result (out.new.items ≡ out.old.items ++ steps_form sight.old form.now) }
    ensures sight { OnOk result (sight.new ≡ sight.old) }
{
    let whole = Names::new(alloc);
    match &form.kind {
        ShapeKind::WriteText(text) => add_steps(alloc, text, &whole, sight, out),
        ShapeKind::Newline => Ok(()),
        ShapeKind::Draw(_, parts) => add_among(alloc, parts, &whole, sight, out),
        ShapeKind::Indent(number, body) => add_with(alloc, number, body.as_slice(), sight, out),
        ShapeKind::Ink(number, body) => add_with(alloc, number, body.as_slice(), sight, out),
        ShapeKind::Room(body) => add_forms(alloc, body.as_slice(), sight, out),
        ShapeKind::Present(object, spec) => {
            add_steps(alloc, object, &whole, sight, out)?;
            add_spec(spec, out)
        }
        ShapeKind::AsPresentation(presentation, body) => {
            add_with(alloc, presentation.object(), body.as_slice(), sight, out)
        }
        ShapeKind::Update(update, body) => {
            add_update(alloc, update, body.as_slice(), sight, out)
        }
        ShapeKind::If(choice) => {
            add_steps(alloc, &choice.test, &whole, sight, out)?;
            add_form(alloc, &choice.then, sight, out)?;
            add_form(alloc, &choice.other, sight, out)
        }
        ShapeKind::When(test, body) => add_with(alloc, test, body.as_slice(), sight, out),
        ShapeKind::Let(bindings, body) => {
            let depth = sight.depth();
            add_bound(alloc, bindings, sight, out)?;
            add_forms(alloc, body.as_slice(), sight, out)?;
            sight.back_to(depth);
            Ok(())
        }
        ShapeKind::Dolist(name, list, body) => {
            add_each(alloc, name, list, body.as_slice(), sight, out)
        }
        ShapeKind::Progn(body) => add_forms(alloc, body.as_slice(), sight, out),
        ShapeKind::Call(name, parts) => {
            add_among(alloc, parts, &whole, sight, out)?;
            out.push(Step::Calls(Callee::Display(name.copy()?)))?;
            Ok(())
        }
    }
}

/// Adds the steps of an expression, and of the forms behind it.
#[cycle(add_form)]
fn add_with(
    alloc: Global,
    part: &Expr,
    body: &[Shape],
    sight: &mut Sight,
    out: &mut Vec<Step>,
) -> Result<(), AllocError>
    ensures steps { OnOk result (out.new.items ≡ out.old.items ++ (steps sight.old [] part.now ++ steps_forms sight.old (shape_trees_of body.now))) }
    ensures sight { OnOk result (sight.new ≡ sight.old) }
{
    let whole = Names::new(alloc);
    add_steps(alloc, part, &whole, sight, out)?;
    add_forms(alloc, body, sight, out)
}

/// Adds the steps of an update's id and of the paths of its cache, and of the forms behind them.
#[cycle(add_form)]
fn add_update(
    alloc: Global,
    update: &Update,
    body: &[Shape],
    sight: &mut Sight,
    out: &mut Vec<Step>,
) -> Result<(), AllocError>
    ensures steps { OnOk result (out.new.items ≡ out.old.items
        ++ (steps_id sight.old update.now.id ++ (steps_cache sight.old update.now.cache ++ steps_forms sight.old (shape_trees_of body.now)))) }
    ensures sight { OnOk result (sight.new ≡ sight.old) }
{
    add_id(alloc, update, sight, out)?;
    add_cache(alloc, update, sight, out)?;
    add_forms(alloc, body, sight, out)
}

/// Adds the steps of a list, and of forms behind the name of each of its elements.
#[cycle(add_form)]
#[tactic(auto, using(crate::proofs::SightLemmas::back_one))]
fn add_each(
    alloc: Global,
    name: &Text,
    list: &Expr,
    body: &[Shape],
    sight: &mut Sight,
    out: &mut Vec<Step>,
) -> Result<(), AllocError>
    ensures steps { OnOk result (out.new.items ≡ out.old.items ++ (steps sight.old [] list.now ++ steps_forms (behind name.now sight.old) (shape_trees_of body.now))) }
    ensures sight { OnOk result (sight.new ≡ sight.old) }
{
    let whole = Names::new(alloc);
    let depth = sight.depth();
    add_steps(alloc, list, &whole, sight, out)?;
    sight.hide(name)?;
    add_forms(alloc, body, sight, out)?;
    sight.back_to(depth);
    Ok(())
}

/// Adds the steps of forms in a row.
#[cycle(add_form)]
#[tactic(auto, using(crate::proofs::Parts::form_nodes))]
pub(crate) fn add_forms(
    alloc: Global,
    forms: &[Shape],
    sight: &mut Sight,
    out: &mut Vec<Step>,
) -> Result<(), AllocError>
    ensures steps { OnOk result (out.new.items ≡ out.old.items ++ steps_forms sight.old (shape_trees_of forms.now)) }
    ensures sight { OnOk result (sight.new ≡ sight.old) }
{
    for form in forms {
        add_form(alloc, form, sight, out)?;
    }
    Ok(())
}
