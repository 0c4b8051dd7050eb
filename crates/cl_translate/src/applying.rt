//! When a translator applies.
ghost use Rattle.std.specs.Prelude.{◌≡◌, IfOk, option_map};
ghost use Rattle.cl_record.specs.TouchWalks.{touch_of};
ghost use Rattle.cl_translate.specs.Applies.{if_fits, outcome, translated};
ghost use Rattle.cl_translate.specs.Choices.{gives, identity, place_gives};
ghost use Rattle.cl_translate.specs.Scenes.{scene_of};
ghost use Rattle.cl_value.specs.Value.{data_of};

use crate::choosers::Chooser;
use cl_application::TranslatorDecl;
use cl_eval::Types;
use cl_record::Touch;
use cl_syntax::TypeSpec;
use cl_translators::TranslatorPlace;
use cl_value::Value;
use std::alloc::AllocError;

impl<T: Types> Chooser<'_, T> {
    // What a translator gives, where it fits.
    fn outcome(
        &self,
        context: &TypeSpec,
        translator: &TranslatorDecl,
        object: &Value,
    ) -> Result<Option<Value>, AllocError>
        ensures { IfOk result (λ o. option_map data_of o
            ≡ outcome (scene_of T.holds T.hierarchy self.now) context.now translator.now (data_of object.now)) }
    {
        if !self.holds(object, &translator.from)? || !self.passes(translator, object)? {
            return Ok(None);
        }
        let result = self.result_of(translator, object)?;
        self.if_fits(context, &translator.to, result)
    }

    // A value that is a member of the to-type and fits.
    fn if_fits(
        &self,
        context: &TypeSpec,
        to: &TypeSpec,
        value: Option<Value>,
    ) -> Result<Option<Value>, AllocError>
        ensures { IfOk result (λ o. option_map data_of o
            ≡ if_fits (scene_of T.holds T.hierarchy self.now) context.now to.now (option_map data_of value)) }
    {
        let Some(value) = value else {
            return Ok(None);
        };
        if self.holds(&value, to)? && self.fits(context, &value)? {
            Ok(Some(value))
        } else {
            Ok(None)
        }
    }

    // What a translator gives, where it applies.
    fn translate(
        &self,
        context: &TypeSpec,
        translator: &TranslatorDecl,
        object: &Value,
    ) -> Result<Option<Value>, AllocError>
        ensures { IfOk result (λ o. option_map data_of o
            ≡ translated (scene_of T.holds T.hierarchy self.now) context.now translator.now (data_of object.now)) }
    {
        if !self.types.subtype(&translator.to, context) {
            return Ok(None);
        }
        self.outcome(context, translator, object)
    }

    // What a declared translator gives.
    pub(crate) fn of_place(
        &self,
        context: &TypeSpec,
        candidate: Touch<'_>,
        place: &TranslatorPlace,
    ) -> Result<Option<Value>, AllocError>
        ensures { IfOk result (λ o. option_map data_of o
            ≡ place_gives (scene_of T.holds T.hierarchy self.now) context.now (touch_of candidate.entry) place.now) }
    {
        match self.app.translators.get(place.name.as_slice()) {
            Some(translator) => self.translate(context, translator, candidate.object),
            None => Ok(None),
        }
    }

    // What the identity translator gives.
    pub(crate) fn of_identity(
        &self,
        context: &TypeSpec,
        candidate: Touch<'_>,
    ) -> Result<Option<Value>, AllocError>
        ensures { IfOk result (λ o. option_map data_of o
            ≡ gives (scene_of T.holds T.hierarchy self.now) context.now (touch_of candidate.entry) identity) }
    {
        if self.is_itself(context, candidate.spec, candidate.object)? {
            Ok(Some(candidate.object.copy()?))
        } else {
            Ok(None)
        }
    }
}
