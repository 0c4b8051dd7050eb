//! Size and depth of values.
ghost use Rattle.std.specs.Prelude.{◌≡◌, ◌-◌, ◌^◌, min};
ghost use Rattle.cl_value.specs.Data.{size_of, size_of_items, depth_of, depth_of_items};
ghost use Rattle.cl_value.specs.Value.{data_of, parts_of};

use crate::Value;

impl Value {
    /// 1, and the bytes of a text, and the sizes of the parts of a list or a record. A symbol counts 1.
    /// It stands still at 2^64 - 1. One step, however large the value is.
    pub fn size(&self) -> u64
        ensures { result ≡ min (size_of (data_of self.now)) (2 ^ 64 - 1) }
    {
        match self {
            Value::Text(text) => (text.as_slice().len() as u64).saturating_add(1),
            Value::List(parts) => parts.size().saturating_add(1),
            Value::Record(_, parts) => parts.size().saturating_add(1),
            _ => 1,
        }
    }

    /// 1 more than the deepest part; 1 where there is none. It stands still at 2^64 - 1.
    /// One step, however large the value is.
    pub fn depth(&self) -> u64
        ensures { result ≡ min (depth_of (data_of self.now)) (2 ^ 64 - 1) }
    {
        match self {
            Value::List(parts) => parts.depth().saturating_add(1),
            Value::Record(_, parts) => parts.depth().saturating_add(1),
            _ => 1,
        }
    }
}

/// The sizes together.
#[tactic(auto, using(crate::proofs::Parts::part_size, crate::proofs::Parts::parts_next, crate::proofs::Parts::parts_end))]
pub(crate) fn size_all(values: &[Value]) -> u64
    ensures { result ≡ min (size_of_items (parts_of values.now)) (2 ^ 64 - 1) }
{
    let mut total: u64 = 0;
    for value in values {
        total = total.saturating_add(value.size());
    }
    total
}

/// The greatest depth, 0 where there are no values.
#[tactic(auto, using(crate::proofs::Parts::part_size, crate::proofs::Parts::parts_next, crate::proofs::Parts::parts_end))]
pub(crate) fn depth_all(values: &[Value]) -> u64
    ensures { result ≡ min (depth_of_items (parts_of values.now)) (2 ^ 64 - 1) }
{
    let mut deepest: u64 = 0;
    for value in values {
        deepest = deepest.max(value.depth());
    }
    deepest
}
