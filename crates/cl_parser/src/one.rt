//! What a whole line is read as, as the one token of a type.
ghost use Rattle.std.specs.Prelude.{◌≡◌, IfOk};
ghost use Rattle.cl_parser.specs.One.{one_at, one_of};
ghost use Rattle.cl_parser.specs.Tokens.{scene_of};

use crate::parsing::Parser;
use cl_eval::Types;
use cl_line::Line;
use cl_syntax::TypeSpec;
use cl_value::Value;
use std::alloc::AllocError;

/// What a whole line is read as, as the one token of a type.
#[derive(Drop)]
pub enum One {
    /// The object of its one token.
    Object(Value),
    /// There is no token, or the first gives no object of the type.
    Bad,
    /// There is more than one token.
    Surplus,
}

impl<T: Types> Parser<'_, T> {
    /// What the whole line is read as, for this type; no command is named in it.
    pub fn one(&self, line: &Line, spec: &TypeSpec) -> Result<One, AllocError>
        ensures { IfOk result (λ o. one_at o ≡ one_of (scene_of T.holds T.reads self.now) spec.now line.now) }
    {
        let Some(token) = line.next_token(0) else {
            return Ok(One::Bad);
        };
        let Some(value) = self.token_value(line, token, spec)? else {
            return Ok(One::Bad);
        };
        match line.next_token(token.end) {
            Some(_) => Ok(One::Surplus),
            None => Ok(One::Object(value)),
        }
    }
}
