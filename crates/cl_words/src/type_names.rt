//! The names of types that no declaration may have.
ghost use Rattle.std.specs.Prelude.{◌≡◌};
ghost use Rattle.cl_words.specs.TypeNames.{is_standard_type};

use cl_syntax::standard_named;

/// Whether no declaration may have a name, since a standard type has it.
pub fn is_standard_type(name: &[u8]) -> bool
    ensures { result ≡ is_standard_type name.now }
{
    standard_named(name).is_some()
}
