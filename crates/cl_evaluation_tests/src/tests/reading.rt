//! Trees from texts, over what the tests declare. A function holds one tree at most: the proof of a path on which several are
//! dropped is long.
use cl_bodies::{parse_acts, parse_shapes};
use cl_eval::Env;
use cl_expressions::{Notes, Reader, Scope, parse_expression};
use cl_forms::{Datum, Datums, Form, all_forms, data_in, outers_of};
use cl_load::{Loaded, load};
use cl_ptext::HostTypes;
use cl_sexp::read_forms;
use cl_syntax::{Acts, Expr, Shapes};
use cl_value::{Text, Value};
use cl_words::{Signatures, signatures_of};
use std::alloc::Global;
use std::test::Fail;

/// What the tests declare.
pub const DECLARED: &str = "(define-record point x y)
(define-function twice (n) (+ n n))
(define-function forever (n) (forever n))
(define-display none ())
(define-display pair (a b) (write-text a) (newline) (write-text b))
(define-command com-add () (reply \"a\"))
(define-application-frame tests (:size 9 9) (:slots (count integer 5) (word string \"so\")) (:panes (main 0 0 9 9 none)))
";

/// The data of a text.
pub fn data_of(alloc: Global, text: &[u8]) -> Result<Datums, Fail> {
    if text.len() > 1_048_576 {
        return Err("too long".into());
    }
    let tokens = read_forms(alloc, text)?;
    let forms = all_forms(alloc, text, tokens.as_slice())?;
    data_of_forms(alloc, forms.as_slice())
}

fn data_of_forms(alloc: Global, forms: &[Form]) -> Result<Datums, Fail> {
    Ok(data_in(alloc, forms)?)
}

/// The data of what the tests declare, and those of a text behind it.
fn data_behind(alloc: Global, text: &str) -> Result<Datums, Fail> {
    let text = format!(in alloc; "{DECLARED}{text}")?;
    data_of(alloc, text.as_bytes())
}

/// What the tests declare, with the opening slots: `count` is 5, and `word` is "so".
pub fn loaded(alloc: Global) -> Result<Loaded, Fail> {
    let hosts = HostTypes { types: &[] };
    Ok(load(alloc, DECLARED.as_bytes(), &hosts)?)
}

/// The variable `v` is 7, and `w` is "vw".
pub fn variables(alloc: Global) -> Result<Env, Fail> {
    let mut env = Env::new(alloc);
    env.bind(Text::from_slice(alloc, b"v")?, Value::Int(7))?;
    let said = Text::from_slice(alloc, b"vw")?;
    env.bind(Text::from_slice(alloc, b"w")?, Value::Text(said))?;
    Ok(env)
}

/// The last form, which is the one that a text has behind what the tests declare.
fn last_of(data: &[Datum]) -> Result<&Datum, Fail> {
    Ok(data.last().ok_or("no form")?)
}

/// What the outermost forms declare.
fn signatures_in(alloc: Global, data: &[Datum]) -> Result<Signatures, Fail> {
    let outers = outers_of(alloc, data)?;
    Ok(signatures_of(alloc, outers.as_slice())?)
}

/// The expression of this text; a variable may have any name.
pub fn expression(alloc: Global, text: &str) -> Result<Expr, Fail> {
    let data = data_behind(alloc, text)?;
    expression_in(alloc, data.as_slice())
}

fn expression_in(alloc: Global, data: &[Datum]) -> Result<Expr, Fail> {
    let last = last_of(data)?;
    let signatures = signatures_in(alloc, data)?;
    let reader = Reader {
        alloc,
        signatures: &signatures,
        scope: &Scope::Empty,
    };
    let mut notes = Notes::new(alloc);
    Ok(parse_expression(&reader, last, &mut notes)?)
}

/// The statements in this form.
pub fn statements(alloc: Global, text: &str) -> Result<Acts, Fail> {
    let data = data_behind(alloc, text)?;
    statements_in(alloc, data.as_slice())
}

fn statements_in(alloc: Global, data: &[Datum]) -> Result<Acts, Fail> {
    let last = last_of(data)?;
    let signatures = signatures_in(alloc, data)?;
    let reader = Reader {
        alloc,
        signatures: &signatures,
        scope: &Scope::Empty,
    };
    let mut notes = Notes::new(alloc);
    Ok(parse_acts(&reader, last.parts(), &mut notes)?)
}

/// The display forms in this form.
pub fn display_forms(alloc: Global, text: &str) -> Result<Shapes, Fail> {
    let data = data_behind(alloc, text)?;
    display_forms_in(alloc, data.as_slice())
}

fn display_forms_in(alloc: Global, data: &[Datum]) -> Result<Shapes, Fail> {
    let last = last_of(data)?;
    let signatures = signatures_in(alloc, data)?;
    let reader = Reader {
        alloc,
        signatures: &signatures,
        scope: &Scope::Empty,
    };
    let mut notes = Notes::new(alloc);
    Ok(parse_shapes(&reader, last.parts(), &mut notes)?)
}
