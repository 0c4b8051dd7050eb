//! What the names of types stand for that are no standard ones.
use cl_syntax::TypeSpec;
use cl_table::{Declared, Names, Table};
use cl_value::Text;

/// A type of `define-presentation-type`.
#[derive(Drop)]
pub struct UserType {
    pub parameters: Names,
    pub inherit_from: TypeSpec,
    /// The function that is true of its members, given the value and then each argument.
    pub satisfies: Option<Text>,
}

/// What kind of type a name stands for.
#[derive(Drop)]
pub enum TypeKind {
    /// The records of this name.
    Record,
    /// A host type, with its least and its greatest number.
    Host(i64, i64),
    User(UserType),
}

/// A type by its name.
#[derive(Drop)]
pub struct DeclaredType {
    pub name: Text,
    pub kind: TypeKind,
}

/// Types by name.
pub type DeclaredTypes = Table<DeclaredType>;

impl Declared for DeclaredType {
    ghost own_name = { λ t. t.name };

    fn name(&self) -> &Text {
        &self.name
    }
}
