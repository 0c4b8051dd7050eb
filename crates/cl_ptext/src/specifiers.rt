//! What texts ask of specifiers.
ghost use Rattle.std.specs.Prelude.{◌≡◌};
ghost use Rattle.cl_lattice.specs.Arguments.{trees_of};
ghost use Rattle.cl_ptext.specs.Book.{args_of, separator_of};

use cl_syntax::{TypeArg, TypeSpec};

/// The arguments of a specifier.
pub(crate) fn args_of(spec: &TypeSpec) -> &[TypeArg]
    ensures { trees_of result.now ≡ args_of spec.now }
{
    spec.args.as_slice()
}

/// The byte between the parts of a text.
pub(crate) fn separator_of(spec: &TypeSpec) -> u8
    ensures { result ≡ separator_of spec.now }
{
    match spec.options.separator {
        Some(byte) => byte,
        None => b',',
    }
}
