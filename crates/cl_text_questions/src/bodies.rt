//! Functions and methods, as texts have them.
use cl_application::{FunctionDecl, Functions, MethodDecl, Methods};
use cl_expressions::{Notes, Reader, Scope, parse_expression};
use cl_forms::{Datum, FormRefusal, name_in, named_part, outers_of, symbol_of};
use cl_questions::names_in;
use cl_table::Table;
use cl_value::Text;
use cl_words::{Signatures, SlotHead, signatures_of};
use std::alloc::Global;

/// The functions and the methods of a text. Of two of one kind and one name the first counts.
#[derive(Drop)]
pub(crate) struct Bodies {
    pub(crate) functions: Functions,
    pub(crate) present_methods: Methods,
    pub(crate) accept_methods: Methods,
}

/// What stands behind the head of a function or of a method, and where the form begins.
#[derive(Clone, Copy)]
struct Parts<'a> {
    name: &'a Text,
    parameters: &'a [Datum],
    body: &'a Datum,
    at: u32,
}

impl Bodies {
    /// The functions and the methods among outermost forms. A name that is not declared is refused with number 8.
    pub(crate) fn read(alloc: Global, forms: &[Datum]) -> Result<Bodies, FormRefusal> {
        let signatures = signatures_in(alloc, forms)?;
        let reader = Reader {
            alloc,
            signatures: &signatures,
            scope: &Scope::Empty,
        };
        let mut notes = Notes::new(alloc);
        let mut bodies = Bodies {
            functions: Table::new(alloc),
            present_methods: Table::new(alloc),
            accept_methods: Table::new(alloc),
        };
        for form in forms {
            bodies.add(&reader, form, &mut notes)?;
        }
        match notes.unknown() {
            Some(at) => Err(FormRefusal::Refused(8, at)),
            None => Ok(bodies),
        }
    }

    // What an outermost form declares.
    fn add(&mut self, reader: &Reader, form: &Datum, notes: &mut Notes) -> Result<(), FormRefusal> {
        match form.parts() {
            [head, name, parameters, body] => match name_in(name) {
                Some(name) => {
                    let parts = Parts {
                        name,
                        parameters: parameters.parts(),
                        body,
                        at: form.offset(),
                    };
                    self.add_named(reader, symbol_of(head), parts, notes)
                }
                None => Ok(()),
            },
            _ => Ok(()),
        }
    }

    // What a form with this head declares.
    fn add_named(
        &mut self,
        reader: &Reader,
        head: &[u8],
        parts: Parts<'_>,
        notes: &mut Notes,
    ) -> Result<(), FormRefusal> {
        if head == b"define-function".as_slice() {
            self.functions
                .add_first(function_in(reader, parts, notes)?)?;
        } else if head == b"define-present-method".as_slice() {
            self.present_methods
                .add_first(method_in(reader, parts, notes)?)?;
        } else if head == b"define-accept-method".as_slice() {
            self.accept_methods
                .add_first(method_in(reader, parts, notes)?)?;
        }
        Ok(())
    }
}

// What the bodies may name: functions, records, and the slots of forms `(slot NAME VALUE)`.
fn signatures_in(alloc: Global, forms: &[Datum]) -> Result<Signatures, FormRefusal> {
    let outers = outers_of(alloc, forms)?;
    let mut signatures = signatures_of(alloc, outers.as_slice())?;
    for form in forms {
        if let Some((name, _)) = slot_in(form) {
            let name = name.copy()?;
            signatures.slots.add_first(SlotHead { name })?;
        }
    }
    Ok(signatures)
}

/// The name and the value of a slot, where a form is `(slot NAME VALUE)`.
pub(crate) fn slot_in(form: &Datum) -> Option<(&Text, &Datum)> {
    match form.parts() {
        [head, name, value] if symbol_of(head) == b"slot".as_slice() => {
            let name = name_in(name)?;
            Some((name, value))
        }
        _ => None,
    }
}

fn function_in(
    reader: &Reader,
    parts: Parts<'_>,
    notes: &mut Notes,
) -> Result<FunctionDecl, FormRefusal> {
    let parameters = names_in(reader.alloc, parts.parameters)?;
    let outside = reader.seeing(&Scope::Empty);
    let variables = Scope::Names(parameters.as_slice(), outside.scope);
    let body = parse_expression(&outside.seeing(&variables), parts.body, notes)?;
    Ok(FunctionDecl {
        name: parts.name.copy()?,
        parameters,
        body,
        at: parts.at,
    })
}

// A method has one parameter.
fn method_in(
    reader: &Reader,
    parts: Parts<'_>,
    notes: &mut Notes,
) -> Result<MethodDecl, FormRefusal> {
    let parameter = match parts.parameters {
        [parameter] => named_part(parts.at, parameter)?,
        _ => return Err(FormRefusal::Refused(6, parts.at)),
    };
    let outside = reader.seeing(&Scope::Empty);
    let variables = Scope::One(&parameter, outside.scope);
    let body = parse_expression(&outside.seeing(&variables), parts.body, notes)?;
    Ok(MethodDecl {
        name: parts.name.copy()?,
        parameter,
        body,
        at: parts.at,
    })
}
