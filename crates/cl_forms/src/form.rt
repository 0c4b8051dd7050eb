//! The tree of forms of a text.
ghost use Rattle.std.specs.Prelude.{◌≡◌, ◌++◌, ◌∷◌, [], OnOk, OnErr, IfErr, map};
ghost use Rattle.cl_forms.specs.Form.{tree_of};

use cl_value::Text;
use std::alloc::{AllocFailed, Global};
use std::marker::Model;

/// An atom or a form, with its offset in bytes.
#[cycle(form)]
#[derive(Drop)]
pub enum Form {
    Number(i64, u32),
    /// A text, without its quotes and each `\`.
    Literal(Text, u32),
    /// A symbol in small letters, or `'`.
    Name(Text, u32),
    Parts(Forms, u32),
}

/// Forms in a row, seen as the list of their trees.
#[cycle(form)]
#[derive(Drop)]
pub struct Forms {
    items: Vec<Form>,
}

impl Model for Forms {
    ghost use Rattle.std.specs.Prelude.{List, map};
    ghost use Rattle.std.specs.Coded.{coded_list};
    ghost use Rattle.cl_forms.specs.Tree.{Tree, tree_code, trees_of, weights};

    ghost Value = { List Tree };

    ghost coded = { coded_list tree_code };

    ghost use Rattle.cl_forms.specs.Form.{tree_of};

    ghost view = { λ a. map tree_of a.items.items };

    ghost size = { λ ts. weights (trees_of ts) };

    ghost use Rattle.cl_forms.specs.Falls.{forms-weight};

    ghost size_decreases = { λ a h. forms-weight a };
}

impl Forms {
    /// No forms, which takes no memory.
    pub fn new(alloc: Global) -> Forms
        ensures { result ≡ [] }
    {
        Forms {
            items: Vec::new(alloc),
        }
    }

    pub fn as_slice(&self) -> &[Form]
        ensures { map tree_of result.now ≡ self.now }
    {
        self.items.as_slice()
    }

    /// Puts a form behind the others. Where memory is wanting, it hands it back.
    pub fn push(&mut self, form: Form) -> Result<(), AllocFailed<Form>>
        ensures ok { OnOk result (self.new ≡ self.old ++ tree_of form ∷ []) }
        ensures err { OnErr result (self.new ≡ self.old) }
        ensures handed_back { IfErr result (λ e. tree_of e.value ≡ tree_of form) }
    {
        self.items.push(form)
    }
}
