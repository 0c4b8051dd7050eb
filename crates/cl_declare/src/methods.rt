//! The methods of types, as forms declare them.
ghost use Rattle.std.specs.Prelude.{◌≡◌, ◌∷◌, [], Ok, map, option_map};
ghost use Rattle.cl_forms.specs.DatumView.{datum_of};
ghost use Rattle.cl_expressions.specs.Expressions.{parse_expression};
ghost use Rattle.cl_expressions.specs.Load.{Gives, itself, noted};
ghost use Rattle.cl_words.specs.Signatures.{type_in};
ghost use Rattle.cl_expressions.specs.Scopes.{in_sight};
ghost use Rattle.cl_declare.specs.Methods.{may_have_methods, parse_method, parse_named_method};

use crate::type_shapes::name_alone;
use cl_application::MethodDecl;
use cl_expressions::{Notes, Reader, Scope, parse_expression};
use cl_forms::{Datum, FormRefusal, name_in};
use cl_syntax::Expr;
use cl_table::Names;
use cl_value::Text;
use cl_words::{TypeHead, TypeKind};

/// `(define-present-method NAME (PARAMETER) BODY)`, or the same of `define-accept-method`
#[tactic(auto, using(crate::proofs::DeclarationCounts::method_counts))]
pub fn parse_method(
    reader: &Reader,
    at: u32,
    parts: &[Datum],
    notes: &mut Notes,
) -> Result<MethodDecl, FormRefusal>
    ensures { Gives itself result notes.new
        (parse_method reader.now.signatures.now at (map datum_of parts.now) notes.old) }
{
    match parts {
        [name, parameters, body] => {
            let place = (at, name.offset());
            let parameter = name_alone(parameters.parts());
            parse_named_method(reader, place, name_in(name), parameter, body, notes)
        }
        [] => Err(FormRefusal::Refused(6, at)),
        [_] => Err(FormRefusal::Refused(6, at)),
        [_, _] => Err(FormRefusal::Refused(6, at)),
        [_, _, _, _, ..] => Err(FormRefusal::Refused(6, at)),
    }
}

/// A method by the name of its type and its parameter, with the offsets of the form and of the name.
fn parse_named_method(
    reader: &Reader,
    place: (u32, u32),
    name: Option<&Text>,
    parameter: Option<&Text>,
    body: &Datum,
    notes: &mut Notes,
) -> Result<MethodDecl, FormRefusal>
    ensures { Gives itself result notes.new
        (parse_named_method reader.now.signatures.now place.0 place.1 (option_map (λ n. n.now) name.entry)
        (option_map (λ p. p.now) parameter.entry) (datum_of body.now) notes.old) }
{
    let Some(name) = name else {
        return Err(FormRefusal::Refused(6, place.0));
    };
    let Some(parameter) = parameter else {
        return Err(FormRefusal::Refused(6, place.0));
    };
    note_method(reader, name, place.1, notes);
    let body = parse_body(reader, parameter, body, notes)?;
    Ok(MethodDecl {
        name: name.copy()?,
        parameter: parameter.copy()?,
        body,
        at: place.0,
    })
}

/// The name of a type is noted where that may have no methods.
fn note_method(reader: &Reader, name: &Text, at: u32, notes: &mut Notes)
    ensures { noted (may_have_methods (type_in reader.now.signatures.now name.now)) at notes.old
        ≡ Ok (tt, notes.new) }
{
    let head = reader.signatures.type_head(name.as_slice());
    notes.note(may_have_methods(head), at);
}

/// The body of a method, which sees its parameter alone.
fn parse_body(
    reader: &Reader,
    parameter: &Text,
    body: &Datum,
    notes: &mut Notes,
) -> Result<Expr, FormRefusal>
    ensures { Gives itself result notes.new
        (parse_expression reader.now.signatures.now (datum_of body.now) (in_sight (parameter.now ∷ []) []) notes.old) }
{
    let mut parameters = Names::new(reader.alloc);
    parameters.push(parameter.copy()?)?;
    let outside = reader.seeing(&Scope::Empty);
    let variables = Scope::Names(parameters.as_slice(), outside.scope);
    parse_expression(&outside.seeing(&variables), body, notes)
}

/// Whether a type may have methods.
fn may_have_methods(head: Option<&TypeHead>) -> bool
    ensures { result ≡ may_have_methods (option_map (λ t. t.now) head.entry) }
{
    match head {
        Some(head) => match head.kind {
            TypeKind::Record => true,
            TypeKind::Host => false,
            TypeKind::User => true,
        },
        None => false,
    }
}
