//! Statements of the application language, which is our own profile's.
ghost use Rattle.std.specs.Prelude.{◌≡◌, [], ◌∷◌, ◌++◌, IfOk, OnOk, OnErr};
ghost use Rattle.cl_syntax.specs.Expr.{bindings_of};
ghost use Rattle.cl_syntax.specs.ActTree as act;

use crate::expressions::{Binding, Expr};
use cl_value::Text;
use std::alloc::{AllocError, Global};
use std::marker::Model;

/// A statement, which contracts see as its tree, a `ActTree`.
#[cycle(act)]
#[derive(Drop)]
pub struct Act {
    pub kind: ActKind,
}

/// The rows of the table of statements, each with its parts.
#[cycle(act)]
#[derive(Drop)]
pub enum ActKind {
    /// `(setf (slot NAME) E)`
    Setf(Text, Expr),
    /// `(reply E)`
    Reply(Expr),
    /// `(enable COMMAND)`, or `(disable COMMAND)` where it is false.
    Switch(Text, bool),
    /// `(open-dialog DIALOG)`
    OpenDialog(Text),
    /// `(if TEST THEN ELSE)`
    If(Box<ActChoice>),
    /// `(when TEST STATEMENT ...)`
    When(Expr, Acts),
    /// `(let ((NAME E) ...) STATEMENT ...)`
    Let(Vec<Binding>, Acts),
    /// `(dolist (NAME LIST) STATEMENT ...)`
    Dolist(Text, Expr, Acts),
    /// `(progn STATEMENT ...)`
    Progn(Acts),
}

/// Statements in order, which contracts see as the list of their trees.
#[cycle(act)]
#[derive(Drop)]
pub struct Acts {
    items: Vec<Act>,
}

/// A test, and the statement that runs where it is true and where it is false.
#[cycle(act)]
#[derive(Drop)]
pub struct ActChoice {
    pub test: Expr,
    pub then: Act,
    pub other: Act,
}

impl Model for Act {
    ghost use Rattle.cl_syntax.specs.ActTree.{ActTree};
    ghost use Rattle.cl_syntax.specs.ActTreeCode.{coded_act_tree};

    ghost Value = { ActTree };

    ghost coded = { coded_act_tree };

    ghost use Rattle.cl_syntax.specs.ActTree.{nodes};
    ghost use Rattle.cl_syntax.specs.Act.{act_tree_of};

    ghost view = { λ a. act_tree_of a.kind };

    ghost size = { nodes };

    ghost use Rattle.std.proofs.Common.{arith};
    ghost use Rattle.cl_syntax.specs.ActFalls.{kind-nodes};

    ghost size_decreases = { λ a h. Prim.omega (arith, kind-nodes a.kind) };
}

impl Model for Acts {
    ghost use Rattle.std.specs.Prelude.{List};
    ghost use Rattle.std.specs.Coded.{coded_list};
    ghost use Rattle.cl_syntax.specs.ActTree.{ActTree, act_trees_of, nodes_all};
    ghost use Rattle.cl_syntax.specs.ActTreeCode.{coded_act_tree};

    ghost Value = { List ActTree };

    ghost coded = { coded_list coded_act_tree };

    ghost view = { λ a. a.items.items };

    ghost size = { λ ss. nodes_all (act_trees_of ss) };

    ghost use Rattle.std.proofs.Common.{arith};
    ghost use Rattle.cl_syntax.specs.ActFalls.{most-nodes};

    ghost size_decreases = { λ a h. Prim.omega (arith, most-nodes a.items.items) };
}

impl Act {
    /// `(setf (slot NAME) E)`
    pub fn setf(name: Text, part: Expr) -> Act
        ensures { result ≡ act.Setf name part }
    {
        Act {
            kind: ActKind::Setf(name, part),
        }
    }

    /// `(reply E)`
    pub fn reply(part: Expr) -> Act
        ensures { result ≡ act.Reply part }
    {
        Act {
            kind: ActKind::Reply(part),
        }
    }

    /// `(enable COMMAND)`, or `(disable COMMAND)` where `on` is false.
    pub fn switch(command: Text, on: bool) -> Act
        ensures { result ≡ act.Switch command on }
    {
        Act {
            kind: ActKind::Switch(command, on),
        }
    }

    /// `(open-dialog DIALOG)`
    pub fn open_dialog(dialog: Text) -> Act
        ensures { result ≡ act.OpenDialog dialog }
    {
        Act {
            kind: ActKind::OpenDialog(dialog),
        }
    }

    /// `(if TEST THEN ELSE)`
    pub fn choice(alloc: Global, test: Expr, then: Act, other: Act) -> Result<Act, AllocError>
        ensures { IfOk result (λ a. a ≡ act.If test then other) }
    {
        let choice = ActChoice { test, then, other };
        Ok(Act {
            kind: ActKind::If(Box::new(alloc, choice)?),
        })
    }

    /// `(when TEST STATEMENT ...)`
    pub fn when(test: Expr, body: Acts) -> Act
        ensures { result ≡ act.When test (act.act_trees_of body) }
    {
        Act {
            kind: ActKind::When(test, body),
        }
    }

    /// `(let ((NAME E) ...) STATEMENT ...)`: each binding sees the earlier ones.
    pub fn bind(bindings: Vec<Binding>, body: Acts) -> Act
        ensures { result
            ≡ act.Let (bindings_of bindings.items) (act.act_trees_of body) }
    {
        Act {
            kind: ActKind::Let(bindings, body),
        }
    }

    /// `(dolist (NAME LIST) STATEMENT ...)`
    pub fn each(name: Text, list: Expr, body: Acts) -> Act
        ensures { result ≡ act.Dolist name list (act.act_trees_of body) }
    {
        Act {
            kind: ActKind::Dolist(name, list, body),
        }
    }

    /// `(progn STATEMENT ...)`
    pub fn sequence(body: Acts) -> Act
        ensures { result ≡ act.Progn (act.act_trees_of body) }
    {
        Act {
            kind: ActKind::Progn(body),
        }
    }
}

impl Acts {
    /// No statements, which takes no memory.
    pub fn new(alloc: Global) -> Acts
        ensures { result ≡ [] }
    {
        Acts {
            items: Vec::new(alloc),
        }
    }

    /// Puts a statement behind the others.
    pub fn push(&mut self, act: Act) -> Result<(), AllocError>
        ensures ok { OnOk result (self.new ≡ self.old ++ act ∷ []) }
        ensures err { OnErr result (self.new ≡ self.old) }
    {
        self.items.push(act)?;
        Ok(())
    }

    /// The statements in their order.
    pub fn as_slice(&self) -> &[Act]
        ensures { result.now ≡ self.now }
    {
        self.items.as_slice()
    }
}
