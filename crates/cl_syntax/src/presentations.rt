//! What a display form presents.
ghost use Rattle.std.specs.Prelude.{◌≡◌, IfOk};

use crate::expressions::Expr;
use crate::type_specs::TypeSpec;
use std::alloc::{AllocError, Global};
use std::marker::Model;
use std::rc::Rc;

/// `E SPEC :single-box BOOL` in `with-output-as-presentation`: an object, the specifier of its type, which the presentations
/// that are made of it share, and whether they are sensitive all over their box and not only where their items are.
#[derive(Drop)]
pub struct Presentation {
    object: Expr,
    spec: Rc<TypeSpec>,
    single_box: bool,
}

impl Model for Presentation {
    ghost use Rattle.cl_syntax.specs.PresentationTree.{PresentationTree, coded_presentation};

    ghost Value = { PresentationTree };

    ghost coded = { coded_presentation };

    ghost view = { λ p. record { object = p.object; spec = p.spec.value; single_box = p.single_box } };
}

impl Presentation {
    /// Of these parts. Where memory is wanting, all are given up.
    pub fn new(
        alloc: Global,
        object: Expr,
        spec: TypeSpec,
        single_box: bool,
    ) -> Result<Presentation, AllocError>
        ensures { IfOk result (λ p. p ≡ record { object = object; spec = spec; single_box = single_box }) }
    {
        Ok(Presentation {
            object,
            spec: Rc::new(alloc, spec)?,
            single_box,
        })
    }

    /// The expression of what is presented.
    pub fn object(&self) -> &Expr
        ensures { result.now ≡ self.now.object }
    {
        &self.object
    }

    /// The specifier of its type.
    pub fn spec(&self) -> &Rc<TypeSpec>
        ensures { result.now.value ≡ self.now.spec }
    {
        &self.spec
    }

    /// Whether the presentation is sensitive all over its box.
    pub fn is_single_box(&self) -> bool
        ensures { result ≡ self.now.single_box }
    {
        self.single_box
    }
}
