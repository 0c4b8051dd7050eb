//! The atoms of a text.
ghost use Rattle.std.specs.Prelude.{◌≡◌, ◌∷◌, [], ℕ, false, IfOk, length, map};
ghost use Rattle.std.specs.Char.{to_ascii_lowercase};
ghost use Rattle.cl_sexp.specs.Tokens.{InText};
ghost use Rattle.cl_forms.specs.Tree.{spelled};
ghost use Rattle.cl_forms.specs.Form.{tree_of};
ghost use Rattle.cl_forms.specs.Spelled.{lexeme_of, unescaped, IsAtom};

use crate::form::Form;
use cl_sexp::{Kind, Token};
use cl_value::Text;
use std::alloc::{AllocError, Global};

/// The atom that a token is.
pub fn atom(alloc: Global, text: &[u8], token: Token) -> Result<Form, AllocError>
    requires inside { InText (length text.now) token }
    requires atom { IsAtom token.kind }
    ensures { IfOk result (λ form. spelled (tree_of form)
        ≡ lexeme_of text.now token.kind token.start token.end ∷ []) }
{
    let at = token.start;
    let (start, end) = (at as usize, token.end as usize);
    match token.kind {
        Kind::Quote => Ok(Form::Name(Text::from_slice(alloc, b"'")?, at)),
        Kind::Int(number) => Ok(Form::Number(number, at)),
        Kind::Text => Ok(Form::Literal(content(alloc, &text[start + 1..end - 1])?, at)),
        Kind::Symbol => Ok(Form::Name(small(alloc, &text[start..end])?, at)),
        Kind::Open => unreachable!(),
        Kind::Close => unreachable!(),
    }
}

/// What stands between two quotes, without each `\` that gives the byte behind it.
fn content(alloc: Global, bytes: &[u8]) -> Result<Text, AllocError>
    ensures { IfOk result (λ t. t ≡ unescaped false bytes.now) }
{
    let mut content = Vec::new(alloc);
    let mut escaped = false;
    for byte in bytes {
        if *byte == b'\\' && !escaped {
            escaped = true;
        } else {
            content.push(*byte)?;
            escaped = false;
        }
    }
    Text::from_vec(alloc, content)
}

/// The bytes with A to Z as a to z.
fn small(alloc: Global, bytes: &[u8]) -> Result<Text, AllocError>
    ensures { IfOk result (λ t. t ≡ map to_ascii_lowercase bytes.now) }
{
    let bytes = bytes
        .iter()
        .map(|byte| byte.to_ascii_lowercase())
        .collect(alloc)?;
    Text::from_vec(alloc, bytes)
}
