//! The bytes of a name that a table is asked for.
use cl_value::Text;
use indexmap::Equivalent;

/// A name, which a table finds without a text of its own.
#[derive(Clone, Copy, PartialEq, Eq, Hash)]
pub struct Asked<'a> {
    pub name: &'a [u8],
}

impl Equivalent<Text> for Asked<'_> {
    ghost use Rattle.std.specs.Prelude.{◌==◌};
    ghost use Rattle.std.specs.Cmp.Lexicographic.{pointwise, bytes_decides, nat_list_eq_equiv};
    ghost use Rattle.std.specs.Hash as fed;
    ghost use Rattle.std.proofs.Common.{ap};

    ghost equivalent = { λ q k. pointwise ◌==◌ q.name.now k };

    ghost respects_hash = { λ q k h. ap (fed.slice fed.u8) ((bytes_decides q.name.now k).0 h) };

    ghost respects_eq = { λ q x y. nat_list_eq_equiv.congr q.name.now x y };

    fn equivalent(&self, key: &Text) -> bool {
        self.name == key.as_slice()
    }
}
