//! What is seen of a query, and of the exit.
ghost use Rattle.std.specs.Prelude.{◌≡◌, [], ◌∷◌, ◌++◌, codes, IfOk, OnOk};
ghost use Rattle.cl_value.specs.Data.{text};
ghost use Rattle.cl_syntax.specs.ExprTree as expr;
ghost use Rattle.cl_syntax.specs.ShapeTree as shape;
ghost use Rattle.cl_dialog_forms.specs.Forms.{as_choice, exit_forms, query_line, value_form, written};

use crate::names::set_name;
use cl_application::ArgumentDecl;
use cl_syntax::{Expr, Presentation, Shape, Shapes, TypeSpec};
use cl_value::{Text, Value};
use std::alloc::{AllocError, Global};

/// A line with the prompt and the value of a query, as a choice.
pub(crate) fn query_line(
    alloc: Global,
    name: &Text,
    argument: &ArgumentDecl,
) -> Result<Shapes, AllocError>
    ensures { IfOk result (λ line. line ≡ query_line name.now argument.now) }
{
    let mut seen = Shapes::new(alloc);
    seen.push(prompt_form(alloc, &argument.prompt)?)?;
    seen.push(value_form(alloc, name, argument)?)?;
    let mut line = Shapes::new(alloc);
    line.push(as_choice(alloc, name.copy()?, seen)?)?;
    line.push(Shape::newline())?;
    Ok(line)
}

/// Puts `[Exit] [Abort]` behind other forms, each as a choice.
pub(crate) fn add_exit(alloc: Global, forms: &mut Shapes) -> Result<(), AllocError>
    ensures { OnOk result (forms.new ≡ forms.old ++ exit_forms) }
{
    add_choice(alloc, b"exit", b"[Exit]", forms)?;
    forms.push(written(alloc, b" ")?)?;
    add_choice(alloc, b"abort", b"[Abort]", forms)?;
    Ok(())
}

/// Puts a text behind other forms, as a choice of that name.
fn add_choice(
    alloc: Global,
    name: &[u8],
    label: &[u8],
    forms: &mut Shapes,
) -> Result<(), AllocError>
    ensures { OnOk result (forms.new ≡ forms.old ++ as_choice name.now (written label.now ∷ []) ∷ []) }
{
    let name = Text::from_slice(alloc, name)?;
    let mut body = Shapes::new(alloc);
    body.push(written(alloc, label)?)?;
    forms.push(as_choice(alloc, name, body)?)?;
    Ok(())
}

/// The prompt before the value of its query.
fn prompt_form(alloc: Global, prompt: &Text) -> Result<Shape, AllocError>
    ensures { IfOk result (λ form. form ≡ written (prompt.now ++ codes ": ")) }
{
    let mut bytes = Vec::from_slice(alloc, prompt.as_slice())?;
    bytes.extend_from_slice(b": ")?;
    written(alloc, bytes.as_slice())
}

/// The value of a query as its argument's type presents it, where it is set.
fn value_form(alloc: Global, name: &Text, argument: &ArgumentDecl) -> Result<Shape, AllocError>
    ensures { IfOk result (λ form. form ≡ value_form name.now argument.now) }
{
    let is_set = set_name(alloc, name.as_slice())?;
    let unset = text_constant(alloc, b"---")?;
    let value = presented(alloc, name, &argument.spec)?;
    let unset = Shape::write_text(unset);
    Shape::choice(alloc, Expr::variable(is_set), value, unset)
}

/// `(present NAME SPEC)`
fn presented(alloc: Global, name: &Text, spec: &TypeSpec) -> Result<Shape, AllocError>
    ensures { IfOk result (λ form. form ≡ shape.Present (expr.Variable name.now) spec.now) }
{
    let spec = spec.copy()?;
    Shape::present(alloc, Expr::variable(name.copy()?), spec)
}

/// `(with-output-as-presentation ('NAME dialog-choice :single-box true) FORM ...)`
fn as_choice(alloc: Global, name: Text, body: Shapes) -> Result<Shape, AllocError>
    ensures { IfOk result (λ form. form ≡ as_choice name body) }
{
    let object = Expr::constant(Value::Symbol(name));
    let spec = TypeSpec::plain(Text::from_slice(alloc, b"dialog-choice")?);
    let choice = Presentation::new(alloc, object, spec, true)?;
    Ok(Shape::as_presentation(choice, body))
}

/// `(write-text TEXT)`
fn written(alloc: Global, bytes: &[u8]) -> Result<Shape, AllocError>
    ensures { IfOk result (λ form. form ≡ written bytes.now) }
{
    Ok(Shape::write_text(text_constant(alloc, bytes)?))
}

fn text_constant(alloc: Global, bytes: &[u8]) -> Result<Expr, AllocError>
    ensures { IfOk result (λ constant. constant ≡ expr.Constant (text bytes.now)) }
{
    let text = Text::from_slice(alloc, bytes)?;
    Ok(Expr::constant(Value::Text(text)))
}
