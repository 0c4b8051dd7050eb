//! What a text declares of one kind, in a row.
ghost use Rattle.std.specs.Prelude.{◌≡◌, ◌∷◌, ◌++◌, [], None, OnOk, OnErr, option_to_list};

use crate::frames::FrameForm;
use std::alloc::{AllocError, Global};
use std::marker::Model;

/// Things in the order of the text, seen as their list.
#[derive(Drop)]
pub struct InOrder<T> {
    items: Vec<T>,
}

/// The frames of a text in their order.
pub type FrameForms = InOrder<FrameForm>;

impl<T> Model for InOrder<T> {
    ghost use Rattle.std.specs.Prelude.{List};

    ghost Value = { List T };

    ghost view = { λ f. f.items.items };
}

impl<T: Drop> InOrder<T> {
    /// Nothing, which takes no memory.
    pub fn new(alloc: Global) -> InOrder<T>
        ensures { result ≡ [] }
    {
        InOrder {
            items: Vec::new(alloc),
        }
    }

    /// Puts one behind the others.
    pub fn push(&mut self, one: T) -> Result<(), AllocError>
        ensures ok { OnOk result (self.new ≡ self.old ++ one ∷ []) }
        ensures err { OnErr result (self.new ≡ self.old) }
    {
        self.items.push(one).map_err(|_| AllocError)
    }

    /// All of them in their order.
    pub fn as_slice(&self) -> &[T]
        ensures { result.now ≡ self.now }
    {
        self.items.as_slice()
    }

    /// Takes the last.
    pub fn pop(&mut self) -> Option<T>
        ensures taken { self.old ≡ self.new ++ option_to_list result }
        ensures none { result ≡ None → self.old ≡ [] }
    {
        self.items.pop()
    }
}
