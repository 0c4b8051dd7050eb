//! What the reader of expressions does, said by a grammar: which text each expression writes, which fault of a form is told, and
//! which name is noted. The laws stand in `laws`.
#![tactic(auto)]

mod laws;

pub use laws::{
    blamed_is_refused, data_lie_in_order, declared_functions_have_names, first_blame_is_told,
    first_unnamed_is_noted, parsed_alone_is_written, parsed_is_written,
};
