//! The data that the forms of a text are.
ghost use Rattle.std.specs.Prelude.{◌≡◌, ◌++◌, IfOk, OnOk, map};
ghost use Rattle.cl_forms.specs.Tree.{trees_of};
ghost use Rattle.cl_forms.specs.Form.{tree_of};
ghost use Rattle.cl_forms.specs.DatumView.{datum_of};
ghost use Rattle.cl_forms.specs.declared.grouping.Waiting.TheVariants.{Nothing};
ghost use Rattle.cl_forms.specs.Grouped.{one_more, waits, waits_after, behind, symbol_behind, symbol_taken, left_over, taken, grouped};

use crate::datum::{Datum, Datums};
use crate::form::Form;
use crate::words::{is_constant, is_quote};
use cl_value::Text;
use std::alloc::{AllocError, Global};

/// The quotes that wait for what follows them, by the offset of the first.
#[derive(Clone, Copy)]
pub enum Waiting {
    Nothing,
    One(u32),
    More(u32),
}

/// The data that forms are.
#[cycle(grouping)]
#[tactic(auto, using(crate::proofs::Data::form_weighs))]
pub fn data_in(alloc: Global, forms: &[Form]) -> Result<Datums, AllocError>
    ensures { IfOk result (λ ds. ds ≡ grouped Nothing (trees_of (map tree_of forms.now))) }
{
    let mut row = Datums::new(alloc);
    let mut waiting = Waiting::Nothing;
    for form in forms {
        take(alloc, &mut row, waiting, form)?;
        waiting = waits(waiting, form);
    }
    leave(&mut row, waiting)?;
    Ok(row)
}

/// Puts what a form completes behind the data.
#[cycle(grouping)]
fn take(alloc: Global, row: &mut Datums, waiting: Waiting, form: &Form) -> Result<(), AllocError>
    ensures { OnOk result (row.new ≡ row.old ++ taken waiting (tree_of form.now)) }
{
    match form {
        Form::Number(number, at) => row.push(behind(waiting, Datum::Number(*number, *at)))?,
        Form::Literal(text, at) => row.push(behind(waiting, Datum::Literal(text.copy()?, *at)))?,
        Form::Name(name, at) => take_symbol(row, waiting, name, *at)?,
        Form::Parts(parts, at) => {
            let parts = data_in(alloc, parts.as_slice())?;
            row.push(behind(waiting, Datum::List(parts, *at)))?
        }
    }
    Ok(())
}

fn take_symbol(row: &mut Datums, waiting: Waiting, name: &Text, at: u32) -> Result<(), AllocError>
    ensures { OnOk result (row.new ≡ row.old ++ symbol_taken waiting name.now at) }
{
    if is_quote(name.as_slice()) {
        return Ok(());
    }
    row.push(symbol_behind(waiting, name, at)?)?;
    Ok(())
}

fn symbol_behind(waiting: Waiting, name: &Text, at: u32) -> Result<Datum, AllocError>
    ensures { IfOk result (λ d. datum_of d ≡ symbol_behind waiting name.now at) }
{
    match waiting {
        Waiting::Nothing => Ok(Datum::Word(name.copy()?, at)),
        Waiting::One(first) => {
            if is_constant(name.as_slice()) {
                Ok(Datum::Stray(first))
            } else {
                Ok(Datum::Quoted(name.copy()?, first, at))
            }
        }
        Waiting::More(first) => Ok(Datum::Stray(first)),
    }
}

/// What stands behind the quotes that wait.
fn behind(waiting: Waiting, datum: Datum) -> Datum
    ensures { datum_of result ≡ behind waiting (datum_of datum) }
{
    match waiting {
        Waiting::Nothing => datum,
        Waiting::One(first) => Datum::Stray(first),
        Waiting::More(first) => Datum::Stray(first),
    }
}

/// Puts the quotes that nothing follows behind the data.
fn leave(row: &mut Datums, waiting: Waiting) -> Result<(), AllocError>
    ensures { OnOk result (row.new ≡ row.old ++ left_over waiting) }
{
    match waiting {
        Waiting::Nothing => (),
        Waiting::One(first) => row.push(Datum::Stray(first))?,
        Waiting::More(first) => row.push(Datum::Stray(first))?,
    }
    Ok(())
}

/// The quotes that wait after a form.
fn waits(waiting: Waiting, form: &Form) -> Waiting
    ensures { result ≡ waits waiting (tree_of form.now) }
{
    match form {
        Form::Name(name, at) => waits_after(waiting, name.as_slice(), *at),
        Form::Number(_, _) => Waiting::Nothing,
        Form::Literal(_, _) => Waiting::Nothing,
        Form::Parts(_, _) => Waiting::Nothing,
    }
}

fn waits_after(waiting: Waiting, name: &[u8], at: u32) -> Waiting
    ensures { result ≡ waits_after waiting name.now at }
{
    if is_quote(name) {
        one_more(waiting, at)
    } else {
        Waiting::Nothing
    }
}

fn one_more(waiting: Waiting, at: u32) -> Waiting
    ensures { result ≡ one_more waiting at }
{
    match waiting {
        Waiting::Nothing => Waiting::One(at),
        Waiting::One(first) => Waiting::More(first),
        Waiting::More(first) => Waiting::More(first),
    }
}
