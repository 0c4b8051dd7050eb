//! The present methods that a specifier reaches.
ghost use Rattle.std.specs.Prelude.{◌≡◌, ◌++◌, OnOk, map};
ghost use Rattle.cl_syntax.specs.TypeSpec.{arg_tree_of};
ghost use Rattle.cl_syntax.specs.TypeSpecTree.{arg_trees_of};
ghost use Rattle.cl_cover.specs.Steps.{steps_arg, steps_args, steps_spec};

use crate::steps::Step;
use cl_syntax::{Callee, TypeArg, TypeSpec};
use std::alloc::AllocError;

/// Adds a call for the type of a specifier, those of its arguments, and one for what the type inherits from.
#[cycle(add_spec)]
pub(crate) fn add_spec(spec: &TypeSpec, out: &mut Vec<Step>) -> Result<(), AllocError>
    ensures { OnOk result (out.new.items ≡ out.old.items ++ steps_spec spec.now) }
{
    out.push(Step::Calls(Callee::PresentMethod(spec.name.text().copy()?)))?;
    add_args(spec.args.as_slice(), out)?;
    out.push(Step::Calls(Callee::Inherited(spec.name.text().copy()?)))?;
    Ok(())
}

#[cycle(add_spec)]
#[tactic(auto, using(crate::proofs::Parts::arg_nodes))]
fn add_args(args: &[TypeArg], out: &mut Vec<Step>) -> Result<(), AllocError>
    ensures { OnOk result (out.new.items ≡ out.old.items ++ steps_args (arg_trees_of (map arg_tree_of args.now))) }
{
    for arg in args {
        add_arg(arg, out)?;
    }
    Ok(())
}

#[cycle(add_spec)]
fn add_arg(arg: &TypeArg, out: &mut Vec<Step>) -> Result<(), AllocError>
    ensures { OnOk result (out.new.items ≡ out.old.items ++ steps_arg (arg_tree_of arg.now)) }
{
    match arg {
        TypeArg::Constant(_) => Ok(()),
        TypeArg::Any => Ok(()),
        TypeArg::Param(_) => Ok(()),
        TypeArg::Spec(spec) => add_spec(spec, out),
        TypeArg::Names(_) => Ok(()),
    }
}
