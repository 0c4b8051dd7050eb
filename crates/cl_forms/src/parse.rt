//! Puts tokens together to forms.
ghost use Rattle.std.specs.Prelude.{◌≡◌, ◌++◌, ◌<◌, false, IfOk, All, IsTrue, length};
ghost use Rattle.cl_sexp.specs.Tokens.{InText, Nests};
ghost use Rattle.cl_forms.specs.Tree.{spelled, spelled_all, trees_of};
ghost use Rattle.cl_forms.specs.Form.{tree_of};
ghost use Rattle.cl_forms.specs.Spelled.{lexemes, begins_form, IsRead, AreRead};

use crate::atom::atom;
use crate::form::{Form, Forms};
use cl_sexp::{Kind, Token};
use std::alloc::{AllocError, Global};

/// The forms that the tokens of a text are.
pub fn all_forms(alloc: Global, text: &[u8], tokens: &[Token]) -> Result<Forms, AllocError>
    requires nested { Nests 0 tokens.now }
    requires inside { All (InText (length text.now)) tokens.now }
    ensures { IfOk result (λ forms. lexemes text.now tokens.now ≡ spelled_all (trees_of forms)) }
{
    let (forms, _) = forms_in(alloc, text, tokens, 0)?;
    Ok(forms)
}

/// The forms up to the `)` that closes the form around them, or to the end, and the tokens from there on.
#[cycle(parse)]
fn forms_in<'a>(
    alloc: Global,
    text: &[u8],
    tokens: &'a [Token],
    depth: u8,
) -> Result<(Forms, &'a [Token]), AllocError>
    requires nested { Nests depth tokens.now }
    requires inside { All (InText (length text.now)) tokens.now }
    ensures read { IfOk result (λ r. AreRead text.now depth tokens.now r.0 r.1.now) }
    ensures ends { IfOk result (λ r. begins_form r.1.now ≡ false) }
{
    let mut forms = Forms::new(alloc);
    let mut rest = tokens;
    'forms: while begins_form(rest) {
        let (form, behind) = form_at(alloc, text, rest, depth)?;
        forms.push(form)?;
        rest = behind;
    }
    Ok((forms, rest))
}

/// The form that begins here, and the tokens behind it.
#[cycle(parse)]
fn form_at<'a>(
    alloc: Global,
    text: &[u8],
    tokens: &'a [Token],
    depth: u8,
) -> Result<(Form, &'a [Token]), AllocError>
    requires begins { IsTrue (begins_form tokens.now) }
    requires nested { Nests depth tokens.now }
    requires inside { All (InText (length text.now)) tokens.now }
    ensures { IfOk result (λ r. IsRead text.now depth tokens.now (tree_of r.0) r.1.now) }
{
    let Some((token, after)) = tokens.split_first() else {
        unreachable!()
    };
    match token.kind {
        Kind::Open => {
            let (parts, closed) = forms_in(alloc, text, after, depth + 1)?;
            let Some((_, behind)) = closed.split_first() else {
                unreachable!()
            };
            Ok((Form::Parts(parts, token.start), behind))
        }
        _ => Ok((atom(alloc, text, *token)?, after)),
    }
}

/// Whether a form begins here: there is a token, and it closes none.
fn begins_form(tokens: &[Token]) -> bool
    ensures { result ≡ begins_form tokens.now }
{
    match tokens {
        [] => false,
        [token, ..] => token.kind != Kind::Close,
    }
}
