//! The panes of a frame as its text gives them.
ghost use Rattle.std.specs.Prelude.{◌≡◌, ◌<◌, ◌∷◌, ◌++◌, [], IfOk, OnOk, OnErr, length};

use cl_value::Text;
use std::alloc::{AllocError, Global};
use std::marker::Model;

/// A pane as its text gives it, in cells of the frame.
#[derive(Drop)]
pub struct PaneForm {
    pub name: Text,
    pub x: i64,
    pub y: i64,
    pub width: i64,
    pub height: i64,
    pub display: Text,
    pub at: u32,
}

/// One pane or more in the order of the text, seen as their list.
#[derive(Drop)]
pub struct PaneForms {
    items: Vec<PaneForm>,
}

impl Model for PaneForms {
    ghost use Rattle.std.specs.Prelude.{◌<◌, List, length};
    ghost use Rattle.cl_declare.specs.declared.pane_forms.PaneForm.{PaneForm};

    ghost Value = { List PaneForm };

    ghost view = { λ p. p.items.items };

    ghost invariant = { λ p. 0 < length p.items.items };
}

impl PaneForms {
    /// One pane.
    pub fn of(alloc: Global, first: PaneForm) -> Result<PaneForms, AllocError>
        ensures { IfOk result (λ p. p ≡ first ∷ []) }
    {
        let mut items = Vec::new(alloc);
        items.push(first).map_err(|_| AllocError)?;
        Ok(PaneForms { items })
    }

    /// Puts a pane behind the others.
    pub fn push(&mut self, pane: PaneForm) -> Result<(), AllocError>
        ensures ok { OnOk result (self.new ≡ self.old ++ pane ∷ []) }
        ensures err { OnErr result (self.new ≡ self.old) }
    {
        self.items.push(pane).map_err(|_| AllocError)
    }

    /// What is true of the panes of each frame: there is one.
    pub fn has_pane(&self)
        ensures { 0 < length self.now }
    {
        let _ = &self.items;
    }

    /// All panes in their order.
    pub fn as_slice(&self) -> &[PaneForm]
        ensures { result.now ≡ self.now }
    {
        self.items.as_slice()
    }
}
