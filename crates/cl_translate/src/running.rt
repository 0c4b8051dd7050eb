//! What fits an input context.
ghost use Rattle.std.specs.Prelude.{◌≡◌, IfOk};
ghost use Rattle.cl_translate.specs.Applies.{fits, is_itself, may_run, precedence_of};
ghost use Rattle.cl_syntax.specs.TypeSpecTree.{name_of};
ghost use Rattle.cl_translate.specs.Scenes.{scene_of};
ghost use Rattle.cl_value.specs.Value.{data_of};

use crate::choosers::Chooser;
use crate::heads::has_head;
use cl_eval::Types;
use cl_syntax::TypeSpec;
use cl_value::{Held, Text, Value};
use std::alloc::AllocError;

impl<T: Types> Chooser<'_, T> {
    // Whether a value is a member of a type.
    pub(crate) fn holds(&self, value: &Value, spec: &TypeSpec) -> Result<bool, AllocError>
        ensures { IfOk result (λ b. b ≡ (scene_of T.holds T.hierarchy self.now).holds (data_of value.now) spec.now) }
    {
        match self.types.member(value, spec) {
            Held::Yes => Ok(true),
            Held::No => Ok(false),
            Held::Memory => Err(AllocError),
        }
    }

    // Whether a value is a command that is accessible and enabled.
    fn may_run(&self, value: &Value) -> bool
        ensures { result ≡ may_run (scene_of T.holds T.hierarchy self.now) (data_of value.now) }
    {
        let Value::List(parts) = value else {
            return false;
        };
        match parts.as_slice() {
            [Value::Symbol(name), ..] => {
                self.tables.accessible(name.as_slice()) && self.enabled.is(name)
            }
            _ => false,
        }
    }

    // Whether a value fits a context: in that of a command a command alone does.
    pub(crate) fn fits(&self, context: &TypeSpec, value: &Value) -> Result<bool, AllocError>
        ensures { IfOk result (λ b. b ≡ fits (scene_of T.holds T.hierarchy self.now) context.now (data_of value.now)) }
    {
        if context.name.as_slice() != b"command".as_slice() {
            return Ok(true);
        }
        let command = TypeSpec::plain(Text::from_slice(self.alloc, b"command")?);
        Ok(self.holds(value, &command)? && self.may_run(value))
    }

    // Whether an object of a type is given as it is.
    pub(crate) fn is_itself(
        &self,
        context: &TypeSpec,
        spec: &TypeSpec,
        object: &Value,
    ) -> Result<bool, AllocError>
        ensures { IfOk result (λ b. b
            ≡ is_itself (scene_of T.holds T.hierarchy self.now) context.now (name_of spec.now) (data_of object.now)) }
    {
        if !has_head(context, self.precedence_of(spec)) {
            return Ok(false);
        }
        Ok(self.holds(object, context)? && self.fits(context, object)?)
    }

    // The precedence list of a type; no names where there is no such type.
    pub(crate) fn precedence_of(&self, spec: &TypeSpec) -> &[Text]
        ensures { result.now ≡ precedence_of (scene_of T.holds T.hierarchy self.now) (name_of spec.now) }
    {
        self.types.precedence(spec.name.as_slice())
    }
}
