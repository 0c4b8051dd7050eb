//! The parts of a translator, as its form has them.
ghost use Rattle.std.specs.Prelude.{◌≡◌, map, option_map};
ghost use Rattle.cl_forms.specs.DatumView.{datum_of};
ghost use Rattle.cl_declare.specs.TranslatorForms.{form_typed, translator_form};
ghost use Rattle.cl_declare.specs.TranslatorView.{form_of};

use cl_forms::Datum;

/// The parts of a translator.
#[derive(Clone, Copy)]
pub struct TranslatorForm<'a> {
    pub name: &'a Datum,
    pub from: &'a Datum,
    /// The to-type, or the command.
    pub to: &'a Datum,
    pub keys: &'a [Datum],
    pub parameters: &'a Datum,
    pub body: &'a Datum,
}

/// The parts of `NAME (FROM TO KEY VALUE ...) (PARAMETER) BODY`; None where there are others.
#[tactic(auto, using(crate::proofs::DeclarationCounts::translator_counts))]
pub fn translator_form(parts: &[Datum]) -> Option<TranslatorForm<'_>>
    ensures { option_map form_of result ≡ translator_form (map datum_of parts.now) }
{
    match parts {
        [name, types, parameters, body] => form_typed(name, types.parts(), parameters, body),
        [] => None,
        [_] => None,
        [_, _] => None,
        [_, _, _] => None,
        [_, _, _, _, _, ..] => None,
    }
}

fn form_typed<'a>(
    name: &'a Datum,
    types: &'a [Datum],
    parameters: &'a Datum,
    body: &'a Datum,
) -> Option<TranslatorForm<'a>>
    ensures { option_map form_of result
        ≡ form_typed (datum_of name.now) (map datum_of types.now) (datum_of parameters.now) (datum_of body.now) }
{
    match types {
        [from, to, keys @ ..] => Some(TranslatorForm {
            name,
            from,
            to,
            keys,
            parameters,
            body,
        }),
        [] => None,
        [_] => None,
    }
}
