//! Presentation types: members, subtypes and precedence, after the CLIM II specification's chapter on presentation types.
#![tactic(auto)]

mod all_parts;
mod arguments;
mod atoms;
mod building;
mod commands;
mod comparing;
mod declared_members;
mod declared_types;
mod filling;
mod heads;
mod inheritance;
mod known_types;
mod lattices;
mod laws;
mod meeting;
mod members;
mod membership;
mod plain_types;
mod precedences;
mod predicates;
mod rings;
mod rows;
mod sizes;
mod subtypes;

pub use arguments::{Bound, next_spec, tokens_in, value_of};
pub use atoms::{is_null, is_one_of};
pub use building::BuildRefusal;
pub use declared_types::{DeclaredType, DeclaredTypes, TypeKind, UserType};
pub use inheritance::user_types_inherit;
pub use lattices::Lattice;
pub use laws::{
    precedence_lists_supertypes, subtypes_are_reflexive, subtypes_are_transitive,
    subtypes_have_fewer_members,
};
pub use predicates::Predicates;
