//! A command line.
ghost use Rattle.std.specs.Prelude.{◌≡◌, ◌≤◌, ◌+◌, ◌++◌, [], IfOk, IfSome, length, option_map, vec_capacity, vec_len};
ghost use Rattle.cl_line.specs.Elements.{typed};
ghost use Rattle.cl_line.specs.Lines.{Becomes, front, front_start, pointed, without_last};
ghost use Rattle.cl_line.specs.Places.{line_slot};
ghost use Rattle.cl_line.specs.Texts.{object_of, text_of};
ghost use Rattle.cl_line.specs.Tokens.{LiesBehind, tokens_behind, with_rest};

use crate::elements::{Element, count_spaces};
use crate::places::{LineSlot, Named, half_start, line_slot};
use crate::texts::{Characters, characters, object_of, text_of};
use crate::tokens::{Token, next_token};
use cl_value::Value;
use std::alloc::{AllocError, Global};
use std::marker::Model;

/// How many elements a line has at most.
pub const MAX_ELEMENTS: usize = 256;

/// Whether elements were pushed on a line.
#[derive(Clone, Copy, PartialEq, Eq, Debug)]
pub enum Pushed {
    Done,
    /// The line would have more than 256 elements; it is as it was.
    Full,
}

/// A command line, seen as the list of its elements, at most 256.
#[derive(Drop)]
pub struct Line {
    elements: Vec<Element>,
}

impl Model for Line {
    ghost use Rattle.std.specs.Prelude.{List, ◌≤◌, vec_capacity, vec_len};
    ghost use Rattle.std.specs.Coded.{codes};
    ghost use Rattle.cl_value.specs.Data.{data_code};
    ghost use Rattle.cl_line.specs.declared.elements.Element.{Element as Part};

    ghost Value = { List Part };

    ghost coded = { Prim.hlevel (codes, data_code) };

    ghost view = { λ l. l.elements.items };

    ghost invariant = { λ l. (256 ≤ vec_capacity l.elements) × (vec_len l.elements ≤ 256) };
}

impl Line {
    /// An empty line. It takes the room of 256 elements at once, and no other call takes memory.
    pub fn new(alloc: Global) -> Result<Line, AllocError>
        ensures { IfOk result (λ l. l ≡ []) }
    {
        Ok(Line {
            elements: Vec::with_capacity(alloc, MAX_ELEMENTS)?,
        })
    }

    /// The elements in their order.
    pub fn elements(&self) -> &[Element]
        ensures elements { result.now ≡ self.now }
        ensures within { length result.now ≤ 256 }
    {
        self.elements.as_slice()
    }

    /// Pushes characters.
    pub fn push_text(&mut self, text: &[u8]) -> Pushed
        ensures { Becomes (self.old ++ typed text.now) self.old self.new result }
    {
        if text.len() > MAX_ELEMENTS - self.elements.len() {
            return Pushed::Full;
        }
        push_characters(text, &mut self.elements);
        Pushed::Done
    }

    /// Pushes an object in place of the token that is being typed, where tokens begin at the element `from`.
    pub fn push_object(&mut self, from: usize, value: Value) -> Pushed
        ensures { Becomes (pointed from value self.old) self.old self.new result }
    {
        let start = half_start(self.elements.as_slice(), from);
        if start == MAX_ELEMENTS {
            return Pushed::Full;
        }
        self.elements.truncate(start);
        self.elements.push_reserved(Element::Object(value));
        Pushed::Done
    }

    /// Takes the last element away, if there is one.
    pub fn rubout(&mut self)
        ensures { self.new ≡ without_last self.old }
    {
        let _ = self.elements.pop();
    }

    /// Takes all elements away.
    pub fn clear(&mut self)
        ensures { self.new ≡ [] }
    {
        self.elements.clear();
    }

    /// Where the name of the line begins: behind its leading spaces.
    pub fn front_start(&self) -> usize
        ensures start { result ≡ front_start self.now }
        ensures within { result ≤ length self.now }
    {
        count_spaces(self.elements())
    }

    /// The characters in which a command's name is looked for: behind the leading spaces, and before the first object.
    pub fn front(&self) -> Characters
        ensures { result.items ≡ front self.now }
    {
        characters(&self.elements()[self.front_start()..])
    }

    /// The first token of the line from the element `from` on. It never ends before that.
    pub fn next_token(&self, from: usize) -> Option<Token>
        ensures tokens { tokens_behind from self.now ≡ with_rest self.now result }
        ensures lies { IfSome result (LiesBehind from (length self.now)) }
    {
        next_token(self.elements(), from)
    }

    /// The place in the line that is being typed, where it has this name.
    pub fn slot(&self, name: Option<Named>) -> LineSlot
        ensures { result ≡ line_slot name self.now }
    {
        line_slot(name, self.elements())
    }

    /// The text of a token: its characters, or what stands in its quotes. `None` of an open token and of an object.
    pub fn text_of(&self, token: Token) -> Option<Characters>
        ensures { option_map (λ t. t.items) result ≡ text_of self.now token }
    {
        text_of(self.elements(), token)
    }

    /// The object of a token that is one.
    pub fn object_of(&self, token: Token) -> Option<&Value>
        ensures { option_map (λ v. v.now) result ≡ object_of self.now token }
    {
        object_of(self.elements(), token)
    }
}

// Pushes characters, for which there is room.
fn push_characters(text: &[u8], elements: &mut Vec<Element>)
    requires { vec_len elements.old + length text.now ≤ vec_capacity elements.old }
    ensures items { elements.new.items ≡ elements.old.items ++ typed text.now }
    ensures len { vec_len elements.new ≡ vec_len elements.old + length text.now }
    ensures room { vec_capacity elements.new ≡ vec_capacity elements.old }
{
    for byte in text {
        elements.push_reserved(Element::Char(*byte));
    }
}
