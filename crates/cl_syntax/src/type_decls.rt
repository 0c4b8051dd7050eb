//! What an application text declares of types. In each declaration `at` is its offset in the text in bytes.
use crate::type_specs::{TypeSpec, TypeSpecs};
use cl_table::{Declared, Names, Table};
use cl_value::Text;

/// `(define-record NAME FIELD ...)`
#[derive(Drop)]
pub struct RecordDecl {
    pub name: Text,
    pub fields: Names,
    pub at: u32,
}

/// `(define-presentation-type NAME (PARAMETER ...) :inherit-from SPECIFIER :satisfies FUNCTION :description TEXT)`
#[derive(Drop)]
pub struct TypeDecl {
    pub name: Text,
    pub parameters: Names,
    pub inherit_from: TypeSpec,
    /// The function that is true of its members, given the value and then each argument.
    pub satisfies: Option<Text>,
    pub description: Text,
    pub at: u32,
}

/// `(define-host-type NAME)`, with the bounds of the numbers of the host type of that name.
#[derive(Drop)]
pub struct HostBound {
    pub name: Text,
    pub low: i64,
    pub high: i64,
    pub at: u32,
}

/// A command with the types of its arguments.
#[derive(Drop)]
pub struct CommandType {
    pub name: Text,
    pub args: TypeSpecs,
    pub at: u32,
}

/// A specifier as it stands in the text, with the parameters of the declaration around it.
#[derive(Drop)]
pub struct PlacedSpec {
    pub spec: TypeSpec,
    pub parameters: Names,
    pub at: u32,
}

/// The records of an application by name.
pub type Records = Table<RecordDecl>;

/// The user types of an application by name.
pub type UserTypes = Table<TypeDecl>;

/// The host types of an application by name.
pub type HostBounds = Table<HostBound>;

/// The commands of an application by name.
pub type CommandTypes = Table<CommandType>;

/// What an application declares of types, and all specifiers in the order of its text.
#[derive(Clone, Copy)]
pub struct TypeDecls<'a> {
    pub records: &'a Records,
    pub types: &'a UserTypes,
    pub hosts: &'a HostBounds,
    pub commands: &'a CommandTypes,
    pub specs: &'a [PlacedSpec],
}

impl Declared for RecordDecl {
    ghost own_name = { λ d. d.name };

    fn name(&self) -> &Text {
        &self.name
    }
}

impl Declared for TypeDecl {
    ghost own_name = { λ d. d.name };

    fn name(&self) -> &Text {
        &self.name
    }
}

impl Declared for HostBound {
    ghost own_name = { λ d. d.name };

    fn name(&self) -> &Text {
        &self.name
    }
}

impl Declared for CommandType {
    ghost own_name = { λ d. d.name };

    fn name(&self) -> &Text {
        &self.name
    }
}
