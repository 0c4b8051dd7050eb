//! How wide texts are.
ghost use Rattle.std.specs.Prelude.{◌≡◌};
ghost use Rattle.cl_medium.specs.Items.{columns_of};

/// How many columns the bytes of a text take: one each.
pub fn columns_of(bytes: &[u8]) -> usize
    ensures { result ≡ columns_of bytes.now }
{
    bytes.len()
}
