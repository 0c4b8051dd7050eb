//! What the tokens of a line are read as.
ghost use Rattle.std.specs.Prelude.{◌≡◌, ◌<◌, ◌+◌, ◌∷◌, [], IfOk, drop, length, option_map};
ghost use Rattle.cl_line.specs.Tokens.{tokens_behind};
ghost use Rattle.cl_parser.specs.Parses.{decls_of, parse, without_tokens};
ghost use Rattle.cl_parser.specs.Tokens.{object_value, scene_of, token_value};
ghost use Rattle.cl_value.specs.Value.{data_of};

use crate::defaults::default_value;
use cl_application::{App, ArgumentDecl, ArgumentDecls};
use cl_eval::{Slots, Types};
use cl_line::{Line, Token};
use cl_syntax::TypeSpec;
use cl_value::{Held, Value, Values};
use std::alloc::{AllocError, Global};

/// What the tokens of a line are read as.
#[derive(Drop)]
pub enum Parsed {
    /// A value for each argument.
    Arguments(Values),
    /// There is neither a token nor a default for the argument in this place, counted from 0, and it is the first such one.
    Need(usize),
    /// The token of this number, counted from 1, gives no value for its argument, and it is the first such one.
    BadArg(usize),
    /// There are more tokens than arguments.
    Surplus,
}

/// What arguments are read by: an application, its types, and slots.
#[derive(Drop)]
pub struct Parser<'a, T> {
    pub alloc: Global,
    pub app: &'a App,
    pub types: &'a T,
    pub slots: &'a Slots,
}

impl<T: Types> Parser<'_, T> {
    /// What the tokens of a line from the element `from` on are read as, for these arguments: a bad token comes before one too
    /// many, and that before an argument that is needed. Defaults are evaluated anew each time; one that traps counts as none.
    pub fn parse(
        &self,
        line: &Line,
        from: usize,
        arguments: &ArgumentDecls,
    ) -> Result<Parsed, AllocError>
        ensures { IfOk result (λ p. p ≡ parse (scene_of T.holds T.reads self.now) line.now (tokens_behind from line.now) (decls_of arguments.now)) }
    {
        let mut values = Values::new(self.alloc);
        let mut at = from;
        for place in 0..arguments.len() {
            let Some(token) = line.next_token(at) else {
                return self.without_tokens(place, values, arguments);
            };
            let Some(value) = self.token_value(line, token, &argument_at(arguments, place).spec)?
            else {
                return Ok(Parsed::BadArg(place + 1));
            };
            if values.push(value).is_err() {
                return Err(AllocError);
            }
            at = token.end;
        }
        match line.next_token(at) {
            Some(_) => Ok(Parsed::Surplus),
            None => Ok(Parsed::Arguments(values)),
        }
    }

    /// The defaults of all these arguments, or the first that has none.
    pub fn defaults(&self, arguments: &ArgumentDecls) -> Result<Parsed, AllocError>
        ensures { IfOk result (λ p. p ≡ without_tokens self.now.app.now 0 [] (decls_of arguments.now)) }
    {
        self.without_tokens(0, Values::new(self.alloc), arguments)
    }

    // The arguments from a place on, which have no token.
    fn without_tokens(
        &self,
        first: usize,
        mut values: Values,
        arguments: &ArgumentDecls,
    ) -> Result<Parsed, AllocError>
        ensures { IfOk result (λ p. p ≡ without_tokens self.now.app.now first values (decls_of (drop first arguments.now))) }
    {
        for place in first..arguments.len() {
            let Some(value) = default_value(self.alloc, self.app, argument_at(arguments, place))?
            else {
                return Ok(Parsed::Need(place));
            };
            if values.push(value).is_err() {
                return Err(AllocError);
            }
        }
        Ok(Parsed::Arguments(values))
    }

    // What a token gives for a type, if anything.
    pub(crate) fn token_value(
        &self,
        line: &Line,
        token: Token,
        spec: &TypeSpec,
    ) -> Result<Option<Value>, AllocError>
        ensures { IfOk result (λ o. option_map data_of o ≡ token_value (scene_of T.holds T.reads self.now) spec.now line.now token) }
    {
        if let Some(text) = line.text_of(token) {
            return self.types.read(text.as_slice(), spec, self.slots);
        }
        match line.object_of(token) {
            Some(object) => self.object_value(spec, object),
            None => Ok(None),
        }
    }

    // What an object gives: itself, where it is a member.
    fn object_value(&self, spec: &TypeSpec, object: &Value) -> Result<Option<Value>, AllocError>
        ensures { IfOk result (λ o. option_map data_of o ≡ object_value (scene_of T.holds T.reads self.now) spec.now (data_of object.now)) }
    {
        match self.types.member(object, spec) {
            Held::Yes => Ok(Some(object.copy()?)),
            Held::No => Ok(None),
            Held::Memory => Err(AllocError),
        }
    }
}

// The argument in a place.
#[tactic(auto, using(crate::proofs::ArgumentLemmas::argument_here, crate::proofs::ArgumentLemmas::argument_there))]
fn argument_at(arguments: &ArgumentDecls, place: usize) -> &ArgumentDecl
    requires { place < length arguments.now }
    ensures { decls_of (drop place arguments.now) ≡ result.now ∷ decls_of (drop (place + 1) arguments.now) }
{
    let Some(argument) = arguments.at(place) else {
        unreachable!()
    };
    argument
}
