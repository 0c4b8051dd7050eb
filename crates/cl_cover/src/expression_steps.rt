//! The steps of expressions, in the order of the text.
ghost use Rattle.std.specs.Prelude.{◌≡◌, [], ◌∷◌, ◌++◌, IfOk, OnOk};
ghost use Rattle.cl_syntax.specs.Expr.{bindings_of};
ghost use Rattle.cl_syntax.specs.ExprTree as expr;
ghost use Rattle.cl_syntax.specs.ExprTree.{expr_trees_of};
ghost use Rattle.cl_syntax.specs.declared.operators.Operator.TheVariants as operator;
ghost use Rattle.cl_syntax.specs.declared.operators.RecordOperator.TheVariants as record_operator;
ghost use Rattle.cl_eval.specs.ReadPaths.{operand_fields};
ghost use Rattle.cl_cover.specs.Sights.{behind, behind_all};
ghost use Rattle.cl_cover.specs.Steps.{steps, steps_among, steps_bound};
ghost use Rattle.cl_cover.specs.declared.steps.Step.TheVariants as step;

use crate::paths::names_behind;
use crate::sights::Sight;
use crate::steps::Step;
use cl_syntax::{
    Binding, Callee, Expr, ExprKind, Operator, Path, RecordOperator, Root, copy_names,
};
use cl_table::Names;
use cl_value::Text;
use std::alloc::{AllocError, Global};

/// Adds the steps of an expression of which these fields are taken.
#[cycle(add_steps)]
#[tactic(auto, using(crate::proofs::SightLemmas::back_all, crate::proofs::SightLemmas::back_one))]
pub(crate) fn add_steps(
    alloc: Global,
    expr: &Expr,
    along: &Names,
    sight: &mut Sight,
    out: &mut Vec<Step>,
) -> Result<(), AllocError>
    ensures steps { OnOk result (out.new.items ≡ out.old.items ++ steps sight.old along.now expr.now) }
    ensures sight { OnOk result (sight.new ≡ sight.old) }
{
    let whole = Names::new(alloc);
    match &expr.kind {
        ExprKind::Constant(_) => Ok(()),
        ExprKind::Variable(name) => add_variable(alloc, name, along, sight, out),
        ExprKind::Slot(name) => add_path(alloc, Root::Slot(name.copy()?), along, out),
        ExprKind::If(choice) => {
            add_steps(alloc, &choice.test, &whole, sight, out)?;
            add_steps(alloc, &choice.then, &whole, sight, out)?;
            add_steps(alloc, &choice.other, &whole, sight, out)
        }
        ExprKind::Let(bindings, body) => {
            let depth = sight.depth();
            add_bound(alloc, bindings, sight, out)?;
            add_steps(alloc, body, &whole, sight, out)?;
            sight.back_to(depth);
            Ok(())
        }
        ExprKind::And(parts) => add_among(alloc, parts, &whole, sight, out),
        ExprKind::Or(parts) => add_among(alloc, parts, &whole, sight, out),
        ExprKind::Map(each) => add_each(alloc, &each.name, &each.list, &each.body, sight, out),
        ExprKind::Filter(each) => add_each(alloc, &each.name, &each.list, &each.body, sight, out),
        ExprKind::Fold(fold) => {
            add_steps(alloc, &fold.list, &whole, sight, out)?;
            add_steps(alloc, &fold.opening, &whole, sight, out)?;
            add_folded(alloc, &fold.name, &fold.accumulator, &fold.body, sight, out)
        }
        ExprKind::Operation(operator, parts) => {
            let operand_fields = operand_fields(alloc, operator, parts, along)?;
            add_among(alloc, parts, &operand_fields, sight, out)
        }
        ExprKind::Call(name, parts) => {
            add_among(alloc, parts, &whole, sight, out)?;
            out.push(Step::Calls(Callee::Function(name.copy()?)))?;
            Ok(())
        }
    }
}

/// Adds the steps of parts, of each of which these fields are taken.
#[cycle(add_steps)]
#[tactic(auto, using(crate::proofs::Parts::part_nodes))]
pub(crate) fn add_among(
    alloc: Global,
    parts: &[Expr],
    along: &Names,
    sight: &mut Sight,
    out: &mut Vec<Step>,
) -> Result<(), AllocError>
    ensures steps { OnOk result (out.new.items ≡ out.old.items ++ steps_among sight.old along.now (expr_trees_of parts.now)) }
    ensures sight { OnOk result (sight.new ≡ sight.old) }
{
    for part in parts {
        add_steps(alloc, part, along, sight, out)?;
    }
    Ok(())
}

/// Adds the steps of the values of bindings, and hides what they bind.
#[cycle(add_steps)]
#[tactic(auto, using(crate::proofs::Parts::binding_nodes))]
pub(crate) fn add_bound(
    alloc: Global,
    bindings: &[Binding],
    sight: &mut Sight,
    out: &mut Vec<Step>,
) -> Result<(), AllocError>
    ensures steps { OnOk result (out.new.items ≡ out.old.items ++ steps_bound sight.old (bindings_of bindings.now)) }
    ensures sight { OnOk result (sight.new ≡ behind_all (bindings_of bindings.now) sight.old) }
{
    let whole = Names::new(alloc);
    for binding in bindings {
        add_steps(alloc, &binding.value, &whole, sight, out)?;
        sight.hide(&binding.name)?;
    }
    Ok(())
}

/// Adds the steps of a list, and of a body behind the name of each of its elements.
#[cycle(add_steps)]
#[tactic(auto, using(crate::proofs::SightLemmas::back_one))]
fn add_each(
    alloc: Global,
    name: &Text,
    list: &Expr,
    body: &Expr,
    sight: &mut Sight,
    out: &mut Vec<Step>,
) -> Result<(), AllocError>
    ensures steps { OnOk result (out.new.items ≡ out.old.items ++ (steps sight.old [] list.now ++ steps (behind name.now sight.old) [] body.now)) }
    ensures sight { OnOk result (sight.new ≡ sight.old) }
{
    let whole = Names::new(alloc);
    let depth = sight.depth();
    add_steps(alloc, list, &whole, sight, out)?;
    sight.hide(name)?;
    add_steps(alloc, body, &whole, sight, out)?;
    sight.back_to(depth);
    Ok(())
}

/// Adds the steps of a body behind the name of an element and that of an accumulator.
#[cycle(add_steps)]
#[tactic(auto, using(crate::proofs::SightLemmas::back_two))]
fn add_folded(
    alloc: Global,
    name: &Text,
    accumulator: &Text,
    body: &Expr,
    sight: &mut Sight,
    out: &mut Vec<Step>,
) -> Result<(), AllocError>
    ensures steps { OnOk result (out.new.items ≡ out.old.items ++ steps (behind accumulator.now (behind name.now sight.old)) [] body.now) }
    ensures sight { OnOk result (sight.new ≡ sight.old) }
{
    let whole = Names::new(alloc);
    let depth = sight.depth();
    sight.hide(name)?;
    sight.hide(accumulator)?;
    add_steps(alloc, body, &whole, sight, out)?;
    sight.back_to(depth);
    Ok(())
}

/// Adds that a variable is read, where it counts.
fn add_variable(
    alloc: Global,
    name: &Text,
    along: &Names,
    sight: &Sight,
    out: &mut Vec<Step>,
) -> Result<(), AllocError>
    ensures { OnOk result (out.new.items ≡ out.old.items ++ steps sight.now along.now (expr.Variable name.now)) }
{
    if sight.is_hidden(name) {
        return Ok(());
    }
    add_path(alloc, Root::Variable(name.copy()?), along, out)
}

/// Adds that a path is read.
fn add_path(alloc: Global, root: Root, along: &Names, out: &mut Vec<Step>) -> Result<(), AllocError>
    ensures { OnOk result (out.new.items ≡ out.old.items ++ step.Reads (record { root = root; fields = along.now }) ∷ []) }
{
    let fields = copy_names(alloc, along)?;
    out.push(Step::Reads(Path { root, fields }))?;
    Ok(())
}

/// The fields that are taken of an operator's parts.
fn operand_fields(
    alloc: Global,
    operator: &Operator,
    parts: &[Expr],
    along: &Names,
) -> Result<Names, AllocError>
    ensures { IfOk result (λ names. names ≡ operand_fields operator.now (expr_trees_of parts.now) along.now) }
{
    match operator {
        Operator::Record(record) => match record {
            RecordOperator::Get(field) => taken_by_get(alloc, field, parts, along),
            RecordOperator::Make(_) => Ok(Names::new(alloc)),
            RecordOperator::With(_) => Ok(Names::new(alloc)),
        },
        Operator::Arithmetic(_) => Ok(Names::new(alloc)),
        Operator::Comparison(_) => Ok(Names::new(alloc)),
        Operator::List(_) => Ok(Names::new(alloc)),
        Operator::Text(_) => Ok(Names::new(alloc)),
        Operator::Not => Ok(Names::new(alloc)),
        Operator::Equal => Ok(Names::new(alloc)),
        Operator::Length => Ok(Names::new(alloc)),
        Operator::IsNull => Ok(Names::new(alloc)),
    }
}

/// The fields that are taken of the parts of `(get E FIELD)`.
#[tactic(auto, using(crate::proofs::TakenLemmas::taken_of_one, crate::proofs::TakenLemmas::taken_of_others))]
fn taken_by_get(
    alloc: Global,
    field: &Text,
    parts: &[Expr],
    along: &Names,
) -> Result<Names, AllocError>
    ensures { IfOk result (λ names. names ≡ operand_fields (operator.Record (record_operator.Get field.now)) (expr_trees_of parts.now) along.now) }
{
    if parts.len() == 1 {
        names_behind(alloc, field, along)
    } else {
        Ok(Names::new(alloc))
    }
}
