//! Records, functions and displays, as forms declare them.
ghost use Rattle.std.specs.Prelude.{map};
ghost use Rattle.cl_forms.specs.DatumView.{datum_of};
ghost use Rattle.cl_expressions.specs.Load.{Gives, Notes as Noted, itself};
ghost use Rattle.cl_declare.specs.Callees.{parse_record, parse_function, parse_display};

use crate::names::{is_name_list, names_in};
use cl_application::{DisplayDecl, FunctionDecl};
use cl_bodies::parse_shapes;
use cl_expressions::{Notes, Reader, Scope, parse_expression};
use cl_forms::{Datum, FormRefusal, are_names, name_in, symbol_text};
use cl_syntax::RecordDecl;
use std::alloc::Global;

/// `(define-record NAME FIELD FIELD ...)`
pub fn parse_record(alloc: Global, at: u32, parts: &[Datum]) -> Result<RecordDecl, FormRefusal>
    ensures { (n : Noted) → Gives itself result n (parse_record at (map datum_of parts.now) n) }
{
    match parts {
        [] => Err(FormRefusal::Refused(6, at)),
        [_] => Err(FormRefusal::Refused(6, at)),
        [name, fields @ ..] => {
            if !are_names(parts) {
                return Err(FormRefusal::Refused(6, at));
            }
            Ok(RecordDecl {
                name: symbol_text(alloc, name)?,
                fields: names_in(alloc, fields)?,
                at,
            })
        }
    }
}

/// `(define-function NAME (PARAMETER ...) BODY)`
#[tactic(auto, using(crate::proofs::DeclarationCounts::function_counts))]
pub fn parse_function(
    reader: &Reader,
    at: u32,
    parts: &[Datum],
    notes: &mut Notes,
) -> Result<FunctionDecl, FormRefusal>
    ensures { Gives itself result notes.new
        (parse_function reader.now.signatures.now at (map datum_of parts.now) notes.old) }
{
    match parts {
        [name, parameters, body] => {
            if name_in(name).is_none() || !is_name_list(parameters) {
                return Err(FormRefusal::Refused(6, at));
            }
            let parameters = names_in(reader.alloc, parameters.parts())?;
            let outside = reader.seeing(&Scope::Empty);
            let variables = Scope::Names(parameters.as_slice(), outside.scope);
            let body = parse_expression(&outside.seeing(&variables), body, notes)?;
            Ok(FunctionDecl {
                name: symbol_text(reader.alloc, name)?,
                parameters,
                body,
                at,
            })
        }
        [] => Err(FormRefusal::Refused(6, at)),
        [_] => Err(FormRefusal::Refused(6, at)),
        [_, _] => Err(FormRefusal::Refused(6, at)),
        [_, _, _, _, ..] => Err(FormRefusal::Refused(6, at)),
    }
}

/// `(define-display NAME (PARAMETER ...) FORM ...)`
pub fn parse_display(
    reader: &Reader,
    at: u32,
    parts: &[Datum],
    notes: &mut Notes,
) -> Result<DisplayDecl, FormRefusal>
    ensures { Gives itself result notes.new
        (parse_display reader.now.signatures.now at (map datum_of parts.now) notes.old) }
{
    match parts {
        [] => Err(FormRefusal::Refused(6, at)),
        [_] => Err(FormRefusal::Refused(6, at)),
        [name, parameters, body @ ..] => {
            if name_in(name).is_none() || !is_name_list(parameters) {
                return Err(FormRefusal::Refused(6, at));
            }
            let parameters = names_in(reader.alloc, parameters.parts())?;
            let outside = reader.seeing(&Scope::Empty);
            let variables = Scope::Names(parameters.as_slice(), outside.scope);
            let body = parse_shapes(&outside.seeing(&variables), body, notes)?;
            Ok(DisplayDecl {
                name: symbol_text(reader.alloc, name)?,
                parameters,
                body,
                at,
            })
        }
    }
}
