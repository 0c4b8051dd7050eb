//! The forms of an application text as data: the tree of forms, and in it names, keys and quotes.
#![tactic(auto)]

mod atom;
mod datum;
mod form;
mod grouping;
mod keys;
mod laws;
mod line_names;
mod naming;
mod outer;
mod parse;
mod refusals;
mod words;

pub use datum::{Datum, Datums};
pub use form::{Form, Forms};
pub use grouping::data_in;
pub use keys::{Key, Keyed, key_named, keyed_pairs, keyed_sections, section_values, values_of};
pub use laws::{data_are_written, one_tree};
pub use line_names::line_name_of;
pub use naming::{
    are_names, fits, list_counted, name_in, named_part, names_counted, symbol_of, symbol_text,
};
pub use outer::{
    DeclarationKind, Outer, OuterKind, behind_first, first_of, first_or_itself, outer_in, outers_of,
};
pub use parse::all_forms;
pub use refusals::FormRefusal;
pub use words::{is_constant, is_key, is_name};
