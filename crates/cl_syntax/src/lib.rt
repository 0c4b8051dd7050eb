//! The trees of the application language.
#![tactic(auto)]

mod callees;
mod display_forms;
mod expressions;
mod figures;
mod operators;
mod paths;
mod presentations;
mod sites;
mod statements;
mod type_decls;
mod type_names;
mod type_specs;
mod updates;

pub use callees::Callee;
pub use display_forms::{Shape, ShapeChoice, ShapeKind, Shapes};
pub use expressions::{Binding, Expr, ExprChoice, ExprKind, Folding, Iteration};
pub use figures::Figure;
pub use operators::{Arithmetic, Comparison, ListOperator, Operator, RecordOperator, TextOperator};
pub use paths::{Path, Root, copy_names};
pub use presentations::Presentation;
pub use sites::Site;
pub use statements::{Act, ActChoice, ActKind, Acts};
pub use type_decls::{
    CommandType, CommandTypes, HostBound, HostBounds, PlacedSpec, RecordDecl, Records, TypeDecl,
    TypeDecls, UserTypes,
};
pub use type_names::{StandardType, TypeName, standard_named};
pub use type_specs::{TypeArg, TypeArgs, TypeOptions, TypeSpec, TypeSpecs};
pub use updates::Update;
