//! The choice at a place: the first that applies.
ghost use Rattle.std.specs.Prelude.{◌≡◌, ◌<◌, ◌+◌, IfOk, filter, length, map, option_map, reverse};
ghost use Rattle.std.specs.List.{flat_map};
ghost use Rattle.cl_record.specs.Marks.{history_marks};
ghost use Rattle.cl_record.specs.TouchWalks.{touch_of};
ghost use Rattle.cl_record.specs.Touches.{touch_of_label, touched_labels};
ghost use Rattle.cl_syntax.specs.TypeSpecTree.{name_of};
ghost use Rattle.cl_translate.specs.Applies.{precedence_of};
ghost use Rattle.cl_translate.specs.Choices.{blank_area, candidates, chosen, first_answer, given_of, gives, place_gives, trial_gives};
ghost use Rattle.cl_translate.specs.Choices.{gathered, gathered_high, identities, translators_for, trials_in};
ghost use Rattle.cl_translate.specs.Highs.{highs_of};
ghost use Rattle.cl_translate.specs.Scenes.{scene_of};
ghost use Rattle.cl_translators.specs.Order.{digits, is_for};
ghost use Rattle.cl_value.specs.Value.{data_of};

use crate::candidates::{blank_object, blank_type};
use crate::choosers::{Chooser, Point};
use crate::highs::highs_of;
use cl_eval::Types;
use cl_medium::Leaf;
use cl_record::{History, Touch};
use cl_syntax::TypeSpec;
use cl_translators::{GestureName, TranslatorPlace};
use cl_value::{Text, Value};
use std::alloc::AllocError;

/// What was chosen: the number of the context, counted from 0, and the value that is given in it.
#[derive(Drop)]
pub struct Choice {
    pub number: usize,
    pub value: Value,
}

impl<T: Types> Chooser<'_, T> {
    /// The choice for a gesture at a place of a pane: for each context, the innermost first, and each candidate, the presentation
    /// that began latest first and the place itself last, the translators are tried in their order; the first that applies counts.
    /// `None` exactly where none applies. It fails for want of memory alone.
    pub fn choose<L: Leaf>(
        &self,
        history: &History<L>,
        point: &Point<'_>,
        contexts: &[TypeSpec],
        gesture: GestureName,
    ) -> Result<Option<Choice>, AllocError>
        ensures { IfOk result (λ o. option_map given_of o ≡ chosen (scene_of T.holds T.hierarchy self.now) gesture contexts.now
            (candidates (touched_labels L.bounds point.now.x point.now.y (history_marks L.moved_by history.now))
            (blank_area point.now.pane.now point.now.x point.now.y))) }
    {
        let (object, spec) = (blank_object(self.alloc, point)?, blank_type(self.alloc)?);
        let mut candidates = history.touches(self.alloc, point.x, point.y)?;
        candidates.push(Touch {
            object: &object,
            spec: &spec,
        })?;
        let highs = highs_of(self.alloc, gesture, self.translators.as_slice())?;
        for number in 0..contexts.len() {
            let found = self.in_context(
                &contexts[number],
                candidates.as_slice(),
                gesture,
                highs.as_slice(),
            )?;
            if let Some(value) = found {
                return Ok(Some(Choice { number, value }));
            }
        }
        Ok(None)
    }

    // The first in a context.
    fn in_context(
        &self,
        context: &TypeSpec,
        candidates: &[Touch<'_>],
        gesture: GestureName,
        highs: &[u8],
    ) -> Result<Option<Value>, AllocError>
        requires { highs.now ≡ highs_of gesture self.now.translators.now }
        ensures { IfOk result (λ o. option_map data_of o
            ≡ first_answer (trial_gives (scene_of T.holds T.hierarchy self.now) context.now)
            (trials_in (scene_of T.holds T.hierarchy self.now) gesture (map touch_of candidates.now))) }
    {
        for candidate in candidates {
            let found = self.of_candidate(context, *candidate, gesture, highs)?;
            if found.is_some() {
                return Ok(found);
            }
        }
        Ok(None)
    }

    // The first for a candidate.
    fn of_candidate(
        &self,
        context: &TypeSpec,
        candidate: Touch<'_>,
        gesture: GestureName,
        highs: &[u8],
    ) -> Result<Option<Value>, AllocError>
        requires { highs.now ≡ highs_of gesture self.now.translators.now }
        ensures { IfOk result (λ o. option_map data_of o
            ≡ first_answer (gives (scene_of T.holds T.hierarchy self.now) context.now (touch_of candidate.entry))
            (translators_for (scene_of T.holds T.hierarchy self.now) gesture (name_of candidate.entry.spec.now))) }
    {
        let precedence = self.precedence_of(candidate.spec);
        let found = self.of_gathered(context, candidate, gesture, highs, precedence)?;
        if found.is_some() {
            return Ok(found);
        }
        self.of_identities(context, candidate, gesture)
    }

    // The identity translator, for a gesture that has it.
    fn of_identities(
        &self,
        context: &TypeSpec,
        candidate: Touch<'_>,
        gesture: GestureName,
    ) -> Result<Option<Value>, AllocError>
        ensures { IfOk result (λ o. option_map data_of o
            ≡ first_answer (gives (scene_of T.holds T.hierarchy self.now) context.now (touch_of candidate.entry)) (identities gesture)) }
    {
        match gesture {
            GestureName::Select => self.of_identity(context, candidate),
            GestureName::Describe => Ok(None),
            GestureName::Menu => Ok(None),
            GestureName::Edit => Ok(None),
            GestureName::Delete => Ok(None),
        }
    }

    // The first of the declared translators for a precedence list.
    fn of_gathered(
        &self,
        context: &TypeSpec,
        candidate: Touch<'_>,
        gesture: GestureName,
        highs: &[u8],
        precedence: &[Text],
    ) -> Result<Option<Value>, AllocError>
        requires { highs.now ≡ highs_of gesture self.now.translators.now }
        ensures { IfOk result (λ o. option_map data_of o
            ≡ first_answer (place_gives (scene_of T.holds T.hierarchy self.now) context.now (touch_of candidate.entry)) (gathered self.now.translators.now gesture precedence.now)) }
    {
        for high in highs {
            let found = self.of_high(context, candidate, gesture, precedence, *high)?;
            if found.is_some() {
                return Ok(found);
            }
        }
        Ok(None)
    }

    // The first of those with one high part.
    fn of_high(
        &self,
        context: &TypeSpec,
        candidate: Touch<'_>,
        gesture: GestureName,
        precedence: &[Text],
        high: u8,
    ) -> Result<Option<Value>, AllocError>
        requires { high < 10 }
        ensures { IfOk result (λ o. option_map data_of o
            ≡ first_answer (place_gives (scene_of T.holds T.hierarchy self.now) context.now (touch_of candidate.entry)) (gathered_high self.now.translators.now gesture precedence.now high)) }
    {
        for from in precedence {
            let places = self.translators.group(gesture, from, high);
            let found = self.of_places(context, candidate, places)?;
            if found.is_some() {
                return Ok(found);
            }
        }
        Ok(None)
    }

    // The first of these translators.
    fn of_places(
        &self,
        context: &TypeSpec,
        candidate: Touch<'_>,
        places: &[TranslatorPlace],
    ) -> Result<Option<Value>, AllocError>
        ensures { IfOk result (λ o. option_map data_of o
            ≡ first_answer (place_gives (scene_of T.holds T.hierarchy self.now) context.now (touch_of candidate.entry)) places.now) }
    {
        for place in places {
            let found = self.of_place(context, candidate, place)?;
            if found.is_some() {
                return Ok(found);
            }
        }
        Ok(None)
    }
}
