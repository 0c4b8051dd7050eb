//! Display forms of the application language, which is our own profile's.
ghost use Rattle.std.specs.Prelude.{◌≡◌, [], ◌∷◌, ◌++◌, IfOk, OnOk, OnErr};
ghost use Rattle.cl_syntax.specs.Expr.{bindings_of};
ghost use Rattle.cl_syntax.specs.ShapeTree as shape;
ghost use Rattle.cl_syntax.specs.ExprTree.{expr_trees_of};

use crate::expressions::{Binding, Expr};
use crate::figures::Figure;
use crate::presentations::Presentation;
use crate::type_specs::TypeSpec;
use crate::updates::Update;
use cl_value::Text;
use std::alloc::{AllocError, Global};
use std::marker::Model;
use std::rc::Rc;

/// A display form, which contracts see as its tree, a `ShapeTree`.
#[cycle(shape)]
#[derive(Drop)]
pub struct Shape {
    pub kind: ShapeKind,
}

/// The rows of the table of display forms, each with its parts.
#[cycle(shape)]
#[derive(Drop)]
pub enum ShapeKind {
    /// `(write-text E)`
    WriteText(Expr),
    /// `(newline)`
    Newline,
    /// A drawing form, with the expressions of its places, sizes and byte.
    Draw(Figure, Vec<Expr>),
    /// `(indenting-output E FORM ...)`
    Indent(Expr, Shapes),
    /// `(with-ink E FORM ...)`
    Ink(Expr, Shapes),
    /// `(with-room-for-graphics FORM ...)`
    Room(Shapes),
    /// `(present E SPEC)`
    Present(Expr, Rc<TypeSpec>),
    /// `(with-output-as-presentation (E SPEC :single-box BOOL) FORM ...)`
    AsPresentation(Presentation, Shapes),
    /// `(updating-output (:unique-id E :cache-value (list PATH ...)) FORM ...)`
    Update(Update, Shapes),
    /// `(if TEST THEN ELSE)`
    If(Box<ShapeChoice>),
    /// `(when TEST FORM ...)`
    When(Expr, Shapes),
    /// `(let ((NAME E) ...) FORM ...)`
    Let(Vec<Binding>, Shapes),
    /// `(dolist (NAME LIST) FORM ...)`
    Dolist(Text, Expr, Shapes),
    /// `(progn FORM ...)`
    Progn(Shapes),
    /// `(DISPLAY E ...)`
    Call(Text, Vec<Expr>),
}

/// Display forms in order, which contracts see as the list of their trees.
#[cycle(shape)]
#[derive(Drop)]
pub struct Shapes {
    items: Vec<Shape>,
}

/// A test, and the form that draws where it is true and where it is false.
#[cycle(shape)]
#[derive(Drop)]
pub struct ShapeChoice {
    pub test: Expr,
    pub then: Shape,
    pub other: Shape,
}

impl Model for Shape {
    ghost use Rattle.cl_syntax.specs.ShapeTree.{ShapeTree};
    ghost use Rattle.cl_syntax.specs.ShapeTreeCode.{coded_shape_tree};

    ghost Value = { ShapeTree };

    ghost coded = { coded_shape_tree };

    ghost use Rattle.cl_syntax.specs.ShapeTree.{nodes};
    ghost use Rattle.cl_syntax.specs.Shape.{shape_tree_of};

    ghost view = { λ s. shape_tree_of s.kind };

    ghost size = { nodes };

    ghost use Rattle.std.proofs.Common.{arith};
    ghost use Rattle.cl_syntax.specs.ShapeFalls.{kind-nodes};

    ghost size_decreases = { λ s h. Prim.omega (arith, kind-nodes s.kind) };
}

impl Model for Shapes {
    ghost use Rattle.std.specs.Prelude.{List};
    ghost use Rattle.std.specs.Coded.{coded_list};
    ghost use Rattle.cl_syntax.specs.ShapeTree.{ShapeTree, shape_trees_of, nodes_all};
    ghost use Rattle.cl_syntax.specs.ShapeTreeCode.{coded_shape_tree};

    ghost Value = { List ShapeTree };

    ghost coded = { coded_list coded_shape_tree };

    ghost view = { λ s. s.items.items };

    ghost size = { λ fs. nodes_all (shape_trees_of fs) };

    ghost use Rattle.std.proofs.Common.{arith};
    ghost use Rattle.cl_syntax.specs.ShapeFalls.{most-nodes};

    ghost size_decreases = { λ s h. Prim.omega (arith, most-nodes s.items.items) };
}

impl Shape {
    /// `(write-text E)`
    pub fn write_text(part: Expr) -> Shape
        ensures { result ≡ shape.WriteText part }
    {
        Shape {
            kind: ShapeKind::WriteText(part),
        }
    }

    /// `(newline)`
    pub fn newline() -> Shape
        ensures { result ≡ shape.Newline }
    {
        Shape {
            kind: ShapeKind::Newline,
        }
    }

    /// A drawing form, with the expressions of its places, sizes and byte.
    pub fn draw(figure: Figure, parts: Vec<Expr>) -> Shape
        ensures { result ≡ shape.Draw figure (expr_trees_of parts.items) }
    {
        Shape {
            kind: ShapeKind::Draw(figure, parts),
        }
    }

    /// `(indenting-output E FORM ...)`
    pub fn indent(number: Expr, body: Shapes) -> Shape
        ensures { result ≡ shape.Indent number (shape.shape_trees_of body) }
    {
        Shape {
            kind: ShapeKind::Indent(number, body),
        }
    }

    /// `(with-ink E FORM ...)`
    pub fn ink(number: Expr, body: Shapes) -> Shape
        ensures { result ≡ shape.Ink number (shape.shape_trees_of body) }
    {
        Shape {
            kind: ShapeKind::Ink(number, body),
        }
    }

    /// `(with-room-for-graphics FORM ...)`
    pub fn room(body: Shapes) -> Shape
        ensures { result ≡ shape.Room (shape.shape_trees_of body) }
    {
        Shape {
            kind: ShapeKind::Room(body),
        }
    }

    /// `(present E SPEC)`
    pub fn present(alloc: Global, object: Expr, spec: TypeSpec) -> Result<Shape, AllocError>
        ensures { IfOk result (λ s. s ≡ shape.Present object spec) }
    {
        let spec = Rc::new(alloc, spec)?;
        Ok(Shape {
            kind: ShapeKind::Present(object, spec),
        })
    }

    /// `(with-output-as-presentation (E SPEC :single-box BOOL) FORM ...)`
    pub fn as_presentation(presentation: Presentation, body: Shapes) -> Shape
        ensures { result ≡ shape.AsPresentation presentation (shape.shape_trees_of body) }
    {
        Shape {
            kind: ShapeKind::AsPresentation(presentation, body),
        }
    }

    /// `(updating-output (:unique-id E :cache-value (list PATH ...)) FORM ...)`
    pub fn update(update: Update, body: Shapes) -> Shape
        ensures { result ≡ shape.Update update (shape.shape_trees_of body) }
    {
        Shape {
            kind: ShapeKind::Update(update, body),
        }
    }

    /// `(if TEST THEN ELSE)`
    pub fn choice(alloc: Global, test: Expr, then: Shape, other: Shape) -> Result<Shape, AllocError>
        ensures { IfOk result (λ s. s ≡ shape.If test then other) }
    {
        let choice = ShapeChoice { test, then, other };
        Ok(Shape {
            kind: ShapeKind::If(Box::new(alloc, choice)?),
        })
    }

    /// `(when TEST FORM ...)`
    pub fn when(test: Expr, body: Shapes) -> Shape
        ensures { result ≡ shape.When test (shape.shape_trees_of body) }
    {
        Shape {
            kind: ShapeKind::When(test, body),
        }
    }

    /// `(let ((NAME E) ...) FORM ...)`: each binding sees the earlier ones.
    pub fn bind(bindings: Vec<Binding>, body: Shapes) -> Shape
        ensures { result ≡ shape.Let (bindings_of bindings.items) (shape.shape_trees_of body) }
    {
        Shape {
            kind: ShapeKind::Let(bindings, body),
        }
    }

    /// `(dolist (NAME LIST) FORM ...)`
    pub fn each(name: Text, list: Expr, body: Shapes) -> Shape
        ensures { result ≡ shape.Dolist name list (shape.shape_trees_of body) }
    {
        Shape {
            kind: ShapeKind::Dolist(name, list, body),
        }
    }

    /// `(progn FORM ...)`
    pub fn sequence(body: Shapes) -> Shape
        ensures { result ≡ shape.Progn (shape.shape_trees_of body) }
    {
        Shape {
            kind: ShapeKind::Progn(body),
        }
    }

    /// `(DISPLAY E ...)`
    pub fn call(name: Text, parts: Vec<Expr>) -> Shape
        ensures { result ≡ shape.Call name (expr_trees_of parts.items) }
    {
        Shape {
            kind: ShapeKind::Call(name, parts),
        }
    }
}

impl Shapes {
    /// No forms, which takes no memory.
    pub fn new(alloc: Global) -> Shapes
        ensures { result ≡ [] }
    {
        Shapes {
            items: Vec::new(alloc),
        }
    }

    /// Puts a form behind the others.
    pub fn push(&mut self, shape: Shape) -> Result<(), AllocError>
        ensures ok { OnOk result (self.new ≡ self.old ++ shape ∷ []) }
        ensures err { OnErr result (self.new ≡ self.old) }
    {
        self.items.push(shape)?;
        Ok(())
    }

    /// The forms in their order.
    pub fn as_slice(&self) -> &[Shape]
        ensures { result.now ≡ self.now }
    {
        self.items.as_slice()
    }
}
