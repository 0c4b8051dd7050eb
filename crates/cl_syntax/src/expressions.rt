//! Expressions of the application language, which is our own profile's.
ghost use Rattle.std.specs.Prelude.{◌≡◌, IfOk};
ghost use Rattle.cl_value.specs.Value.{data_of};
ghost use Rattle.cl_syntax.specs.ExprTree as expr;
ghost use Rattle.cl_syntax.specs.Expr.{bindings_of};

use crate::operators::Operator;
use cl_value::{Text, Value};
use std::alloc::{AllocError, Global};
use std::marker::Model;

/// An expression, which contracts see as its tree, a `ExprTree`.
#[cycle(expr)]
#[derive(Drop)]
pub struct Expr {
    pub kind: ExprKind,
}

/// The rows of the table of expressions, each with its parts.
#[cycle(expr)]
#[derive(Drop)]
pub enum ExprKind {
    /// A number, a text, `true`, `false`, `null` or a quoted name.
    Constant(Value),
    Variable(Text),
    /// `(slot NAME)`
    Slot(Text),
    /// `(if TEST THEN ELSE)`
    If(Box<ExprChoice>),
    /// `(let ((NAME E) ...) BODY)`
    Let(Vec<Binding>, Box<Expr>),
    /// `(and E ...)`
    And(Vec<Expr>),
    /// `(or E ...)`
    Or(Vec<Expr>),
    /// `(map NAME LIST BODY)`
    Map(Box<Iteration>),
    /// `(filter NAME LIST BODY)`
    Filter(Box<Iteration>),
    /// `(fold NAME LIST ACCUMULATOR OPENING BODY)`
    Fold(Box<Folding>),
    /// An operator over the values of its parts.
    Operation(Operator, Vec<Expr>),
    /// `(FUNCTION E ...)`
    Call(Text, Vec<Expr>),
}

/// A name, and the expression that it is bound to.
#[cycle(expr)]
#[derive(Drop)]
pub struct Binding {
    pub name: Text,
    pub value: Expr,
}

/// A test, and what is evaluated where it is true and where it is false.
#[cycle(expr)]
#[derive(Drop)]
pub struct ExprChoice {
    pub test: Expr,
    pub then: Expr,
    pub other: Expr,
}

/// A name for each element of a list, and what is evaluated for each.
#[cycle(expr)]
#[derive(Drop)]
pub struct Iteration {
    pub name: Text,
    pub list: Expr,
    pub body: Expr,
}

/// A name for each element of a list, a name for what is there so far with its opening, and what is
/// evaluated for each.
#[cycle(expr)]
#[derive(Drop)]
pub struct Folding {
    pub name: Text,
    pub list: Expr,
    pub accumulator: Text,
    pub opening: Expr,
    pub body: Expr,
}

impl Model for Expr {
    ghost use Rattle.cl_syntax.specs.ExprTree.{ExprTree};
    ghost use Rattle.cl_syntax.specs.ExprTreeCode.{coded_expr_tree};

    ghost Value = { ExprTree };

    ghost coded = { coded_expr_tree };

    ghost use Rattle.cl_syntax.specs.ExprTree.{nodes};
    ghost use Rattle.cl_syntax.specs.Expr.{expr_tree_of};

    ghost view = { λ e. expr_tree_of e.kind };

    ghost size = { nodes };

    ghost use Rattle.std.proofs.Common.{arith};
    ghost use Rattle.cl_syntax.specs.ExprFalls.{kind-nodes};

    ghost size_decreases = { λ e h. Prim.omega (arith, kind-nodes e.kind) };
}

impl Expr {
    /// A number, a text, `true`, `false`, `null` or a quoted name.
    pub fn constant(value: Value) -> Expr
        ensures { result ≡ expr.Constant (data_of value) }
    {
        Expr {
            kind: ExprKind::Constant(value),
        }
    }

    /// A variable.
    pub fn variable(name: Text) -> Expr
        ensures { result ≡ expr.Variable name }
    {
        Expr {
            kind: ExprKind::Variable(name),
        }
    }

    /// `(slot NAME)`
    pub fn slot(name: Text) -> Expr
        ensures { result ≡ expr.Slot name }
    {
        Expr {
            kind: ExprKind::Slot(name),
        }
    }

    /// `(if TEST THEN ELSE)`
    pub fn choice(alloc: Global, test: Expr, then: Expr, other: Expr) -> Result<Expr, AllocError>
        ensures { IfOk result (λ e. e ≡ expr.If test then other) }
    {
        let choice = ExprChoice { test, then, other };
        Ok(Expr {
            kind: ExprKind::If(Box::new(alloc, choice)?),
        })
    }

    /// `(let ((NAME E) ...) BODY)`: each binding sees the earlier ones.
    pub fn bind(alloc: Global, bindings: Vec<Binding>, body: Expr) -> Result<Expr, AllocError>
        ensures { IfOk result (λ e. e ≡ expr.Let (bindings_of bindings.items) body) }
    {
        Ok(Expr {
            kind: ExprKind::Let(bindings, Box::new(alloc, body)?),
        })
    }

    /// `(and E ...)`
    pub fn every(parts: Vec<Expr>) -> Expr
        ensures { result ≡ expr.And (expr.expr_trees_of parts.items) }
    {
        Expr {
            kind: ExprKind::And(parts),
        }
    }

    /// `(or E ...)`
    pub fn some(parts: Vec<Expr>) -> Expr
        ensures { result ≡ expr.Or (expr.expr_trees_of parts.items) }
    {
        Expr {
            kind: ExprKind::Or(parts),
        }
    }

    /// `(map NAME LIST BODY)`
    pub fn map(alloc: Global, name: Text, list: Expr, body: Expr) -> Result<Expr, AllocError>
        ensures { IfOk result (λ e. e ≡ expr.Map name list body) }
    {
        let each = Iteration { name, list, body };
        Ok(Expr {
            kind: ExprKind::Map(Box::new(alloc, each)?),
        })
    }

    /// `(filter NAME LIST BODY)`
    pub fn filter(alloc: Global, name: Text, list: Expr, body: Expr) -> Result<Expr, AllocError>
        ensures { IfOk result (λ e. e ≡ expr.Filter name list body) }
    {
        let each = Iteration { name, list, body };
        Ok(Expr {
            kind: ExprKind::Filter(Box::new(alloc, each)?),
        })
    }

    /// `(fold NAME LIST ACCUMULATOR OPENING BODY)`
    pub fn fold(
        alloc: Global,
        name: Text,
        list: Expr,
        accumulator: Text,
        opening: Expr,
        body: Expr,
    ) -> Result<Expr, AllocError>
        ensures { IfOk result (λ e. e ≡ expr.Fold name list accumulator opening body) }
    {
        let fold = Folding {
            name,
            list,
            accumulator,
            opening,
            body,
        };
        Ok(Expr {
            kind: ExprKind::Fold(Box::new(alloc, fold)?),
        })
    }

    /// An operator over the values of its parts.
    pub fn operation(operator: Operator, parts: Vec<Expr>) -> Expr
        ensures { result ≡ expr.Operation operator (expr.expr_trees_of parts.items) }
    {
        Expr {
            kind: ExprKind::Operation(operator, parts),
        }
    }

    /// `(FUNCTION E ...)`
    pub fn call(name: Text, parts: Vec<Expr>) -> Expr
        ensures { result ≡ expr.Call name (expr.expr_trees_of parts.items) }
    {
        Expr {
            kind: ExprKind::Call(name, parts),
        }
    }
}
