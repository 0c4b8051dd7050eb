//! The paths of steps, through all that they call.
ghost use Rattle.std.specs.Prelude.{◌≡◌, IfOk, option_map};
ghost use Rattle.cl_application.specs.App.{display_named, function_named, present_method};
ghost use Rattle.cl_table.specs.Names.{named};
ghost use Rattle.cl_cover.specs.Steps.{body_steps, display_steps, function_steps, inherited_steps, method_steps};
ghost use Rattle.cl_cover.specs.Walk.{paths_along};

use crate::callees::Callees;
use crate::expression_steps::add_steps;
use crate::form_steps::add_forms;
use crate::pending::Pending;
use crate::sights::Sight;
use crate::spec_steps::add_spec;
use crate::steps::Step;
use cl_application::App;
use cl_syntax::{Callee, Path};
use cl_table::Names;
use cl_value::Text;
use std::alloc::{AllocError, Global};

/// The paths of these steps, through all that they call. It looks at the body of what is called once.
#[tactic(auto, using(crate::proofs::WalkTurns::reads_on, crate::proofs::WalkTurns::entered_on, crate::proofs::WalkTurns::undeclared_on, crate::proofs::WalkTurns::none_left))]
pub(crate) fn paths_along(
    alloc: Global,
    app: &App,
    steps: Vec<Step>,
) -> Result<Vec<Path>, AllocError>
    ensures { IfOk result (λ paths. paths.items ≡ paths_along app.now steps.items) }
{
    let mut left = app.functions.len() as u128 + app.displays.len() as u128;
    left += app.present_methods.len() as u128 + app.types.len() as u128;
    let mut paths = Vec::new(alloc);
    let mut entered = Callees::new(alloc);
    let mut pending = Pending::new(alloc);
    pending.put_first(steps)?;
    while let Some(step) = pending.next() {
        let callee = match step {
            Step::Reads(path) => {
                paths.push(path)?;
                continue;
            }
            Step::Calls(callee) => callee,
        };
        if entered.contains(&callee) {
            continue;
        }
        let Some(body) = body_steps(alloc, app, &callee)? else {
            continue;
        };
        // As many callees as are declared may be entered, so this does not come.
        if left == 0 {
            return Ok(paths);
        }
        left -= 1;
        pending.put_first(body)?;
        entered.push(callee)?;
    }
    Ok(paths)
}

/// The steps of the body of what is called; `None` where it is not declared.
fn body_steps(alloc: Global, app: &App, callee: &Callee) -> Result<Option<Vec<Step>>, AllocError>
    ensures { IfOk result (λ body. option_map (λ v. v.items) body ≡ body_steps app.now callee.now) }
{
    match callee {
        Callee::Function(name) => function_steps(alloc, app, name),
        Callee::Display(name) => display_steps(alloc, app, name),
        Callee::PresentMethod(name) => method_steps(alloc, app, name),
        Callee::Inherited(name) => inherited_steps(alloc, app, name),
    }
}

fn function_steps(alloc: Global, app: &App, name: &Text) -> Result<Option<Vec<Step>>, AllocError>
    ensures { IfOk result (λ body. option_map (λ v. v.items) body ≡ function_steps (function_named name.now app.now)) }
{
    let Some(function) = app.function(name.as_slice()) else {
        return Ok(None);
    };
    let whole = Names::new(alloc);
    let mut sight = Sight::slots(alloc);
    let mut steps = Vec::new(alloc);
    add_steps(alloc, &function.body, &whole, &mut sight, &mut steps)?;
    Ok(Some(steps))
}

fn display_steps(alloc: Global, app: &App, name: &Text) -> Result<Option<Vec<Step>>, AllocError>
    ensures { IfOk result (λ body. option_map (λ v. v.items) body ≡ display_steps (display_named name.now app.now)) }
{
    let Some(display) = app.shape_of(name.as_slice()) else {
        return Ok(None);
    };
    let mut sight = Sight::slots(alloc);
    let mut steps = Vec::new(alloc);
    add_forms(alloc, display.body.as_slice(), &mut sight, &mut steps)?;
    Ok(Some(steps))
}

fn method_steps(alloc: Global, app: &App, name: &Text) -> Result<Option<Vec<Step>>, AllocError>
    ensures { IfOk result (λ body. option_map (λ v. v.items) body ≡ method_steps (present_method name.now app.now)) }
{
    let Some(method) = app.present_method(name.as_slice()) else {
        return Ok(None);
    };
    let whole = Names::new(alloc);
    let mut sight = Sight::slots(alloc);
    let mut steps = Vec::new(alloc);
    add_steps(alloc, &method.body, &whole, &mut sight, &mut steps)?;
    Ok(Some(steps))
}

fn inherited_steps(alloc: Global, app: &App, name: &Text) -> Result<Option<Vec<Step>>, AllocError>
    ensures { IfOk result (λ body. option_map (λ v. v.items) body ≡ inherited_steps (named name.now app.now.types)) }
{
    let Some(declared) = app.types.get(name.as_slice()) else {
        return Ok(None);
    };
    let mut steps = Vec::new(alloc);
    add_spec(&declared.inherit_from, &mut steps)?;
    Ok(Some(steps))
}
