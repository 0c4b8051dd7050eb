//! Testers and bodies of translators.
ghost use Rattle.std.specs.Prelude.{◌≡◌, ◌∷◌, IfOk, map, option_map};
ghost use Rattle.cl_translate.specs.Applies.{command_with, is_true, passes, result_of, value_on};
ghost use Rattle.cl_translate.specs.Scenes.{scene_of};
ghost use Rattle.cl_value.specs.Data.{items_of, list, symbol};
ghost use Rattle.cl_value.specs.Value.{data_of};

use crate::choosers::Chooser;
use cl_application::TranslatorDecl;
use cl_eval::{Env, Evaluated, OWN_LIMITS, Types, eval};
use cl_outside::own_steps;
use cl_syntax::Expr;
use cl_value::{Text, Value, Values};
use std::alloc::{AllocError, Global};

impl<T: Types> Chooser<'_, T> {
    // What an expression comes to where the parameter is the object.
    fn value_on(
        &self,
        translator: &TranslatorDecl,
        object: &Value,
        expr: &Expr,
    ) -> Result<Option<Value>, AllocError>
        ensures { IfOk result (λ o. option_map data_of o
            ≡ value_on (scene_of T.holds T.hierarchy self.now) translator.now (data_of object.now) expr.now) }
    {
        let mut env = Env::new(self.alloc);
        env.bind(translator.parameter.copy()?, object.copy()?)?;
        match eval(
            self.alloc,
            self.app,
            expr,
            &env,
            self.slots,
            OWN_LIMITS,
            &mut own_steps(),
        ) {
            Evaluated::Value(value, _, _) => Ok(Some(value)),
            Evaluated::Trap(_, _) => Ok(None),
            Evaluated::Memory => Err(AllocError),
        }
    }

    // Whether the tester, if there is one, comes to true.
    pub(crate) fn passes(
        &self,
        translator: &TranslatorDecl,
        object: &Value,
    ) -> Result<bool, AllocError>
        ensures { IfOk result (λ b. b
            ≡ passes (scene_of T.holds T.hierarchy self.now) translator.now (data_of object.now) translator.now.tester) }
    {
        match &translator.tester {
            Some(tester) => Ok(is_true(&self.value_on(translator, object, tester)?)),
            None => Ok(true),
        }
    }

    // What a translator gives.
    pub(crate) fn result_of(
        &self,
        translator: &TranslatorDecl,
        object: &Value,
    ) -> Result<Option<Value>, AllocError>
        ensures { IfOk result (λ o. option_map data_of o
            ≡ result_of (scene_of T.holds T.hierarchy self.now) translator.now (data_of object.now)) }
    {
        let Some(value) = self.value_on(translator, object, &translator.body)? else {
            return Ok(None);
        };
        match &translator.command {
            Some(command) => command_with(self.alloc, command, &value),
            None => Ok(Some(value)),
        }
    }
}

fn is_true(value: &Option<Value>) -> bool
    ensures { result ≡ is_true (option_map data_of value.now) }
{
    match value {
        Some(Value::Bool(truth)) => *truth,
        _ => false,
    }
}

// The symbol of a command before a list of arguments.
fn command_with(alloc: Global, command: &Text, value: &Value) -> Result<Option<Value>, AllocError>
    ensures { IfOk result (λ o. option_map data_of o ≡ command_with command.now (data_of value.now)) }
{
    match value {
        Value::List(arguments) => Ok(Some(listed(alloc, command, arguments.as_slice())?)),
        _ => Ok(None),
    }
}

// The symbol of a command and its arguments, in a list.
fn listed(alloc: Global, command: &Text, arguments: &[Value]) -> Result<Value, AllocError>
    ensures { IfOk result (λ v. data_of v ≡ list (items_of (symbol command.now ∷ map data_of arguments.now))) }
{
    let mut values = Values::new(alloc);
    if values.push(Value::Symbol(command.copy()?)).is_err() {
        return Err(AllocError);
    }
    for argument in arguments {
        if values.push(argument.copy()?).is_err() {
            return Err(AllocError);
        }
    }
    Ok(Value::List(values))
}
