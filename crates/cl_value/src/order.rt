//! Equality and order of values.
ghost use Rattle.std.specs.Prelude.{◌≡◌, ◌↔◌, IsTrue, Some, refl};
ghost use Rattle.std.specs.Ordering.{eq_by_cmp, nat_cmp};
ghost use Rattle.std.specs.Cmp.{on_equiv, on_per, on_po, on_total, partial_equiv_from_equiv, po};
ghost use Rattle.std.specs.Cmp.Lexicographic.{nat_list_cmp_total, pointwise, slice_cmp, texts_ties};
ghost use Rattle.std.proofs.Common.{rules};
ghost use Rattle.std.specs.Cmp.Rules.{comparing};
ghost use Rattle.std.proofs.lemmas.Cmp.{eq_by_cmp_equiv};
ghost use Rattle.cl_value.specs.Data.{kind_of, order_of, order_of_items};
ghost use Rattle.cl_value.specs.OrderLaws.{order_total};
ghost use Rattle.cl_value.specs.Value.{data_of, parts_of};

use crate::{Text, Value};
use std::cmp::Ordering;

impl Text {
    /// By the first byte that differs; a text that ends first comes first.
    pub fn order(&self, other: &Text) -> Ordering
        ensures { result ≡ slice_cmp nat_cmp self.now other.now }
    {
        self.as_slice().cmp(other.as_slice())
    }
}

impl PartialOrd for Text {
    ghost partial_cmp = { λ s t. Some (slice_cmp nat_cmp s t) };

    ghost laws = { po nat_list_cmp_total texts_ties };

    fn partial_cmp(&self, other: &Text) -> Option<Ordering> {
        Some(self.cmp(other))
    }
}

impl Ord for Text {
    ghost cmp = { slice_cmp nat_cmp };

    ghost total = { nat_list_cmp_total };

    ghost matches_partial_cmp = { λ s t. refl };

    ghost matches_eq = { texts_ties };

    fn cmp(&self, other: &Text) -> Ordering {
        self.order(other)
    }
}

impl PartialEq for Value {
    ghost eq = { λ v w. eq_by_cmp order_of (data_of v) (data_of w) };

    ghost laws = { on_per data_of (partial_equiv_from_equiv (eq_by_cmp_equiv order_total)) };

    fn eq(&self, other: &Value) -> bool {
        self.order(other).is_eq()
    }
}

impl Eq for Value {
    ghost laws = { on_equiv data_of (eq_by_cmp_equiv order_total) };
}

impl PartialOrd for Value {
    ghost partial_cmp = { λ v w. Some (order_of (data_of v) (data_of w)) };

    ghost laws = { on_po data_of (po order_total (λ v w. refl)) };

    fn partial_cmp(&self, other: &Value) -> Option<Ordering> {
        Some(self.cmp(other))
    }
}

impl Ord for Value {
    ghost cmp = { λ v w. order_of (data_of v) (data_of w) };

    ghost total = { on_total data_of order_total };

    ghost matches_partial_cmp = { λ v w. refl };

    ghost matches_eq = { λ v w. refl };

    fn cmp(&self, other: &Value) -> Ordering {
        self.order(other)
    }
}

impl Value {
    /// Whether kind and content are the same, part by part.
    pub fn equal(&self, other: &Value) -> bool
        ensures { IsTrue result ↔ (self.now ≡ other.now) }
    {
        self.order(other).is_eq()
    }

    /// Numbers, Bools (false first), texts, symbols, null, lists and records in this order, and within a kind by content:
    /// texts and lists by their first difference, records by name and then by their parts.
    #[cycle(order)]
    pub fn order(&self, other: &Value) -> Ordering
        ensures { result ≡ order_of (data_of self.now) (data_of other.now) }
    {
        // Most ids are numbers, and these want no room on the stack for what others need.
        match (self, other) {
            (Value::Int(a), Value::Int(b)) => a.cmp(b),
            _ => self.order_by_parts(other),
        }
    }

    /// The same for all values.
    #[cycle(order)]
    #[inline(never)]
    fn order_by_parts(&self, other: &Value) -> Ordering
        ensures { result ≡ order_of (data_of self.now) (data_of other.now) }
    {
        match (self, other) {
            (Value::Int(a), Value::Int(b)) => a.cmp(b),
            (Value::Bool(a), Value::Bool(b)) => a.cmp(b),
            (Value::Text(a), Value::Text(b)) => a.order(b),
            (Value::Symbol(a), Value::Symbol(b)) => a.order(b),
            (Value::Null, Value::Null) => Ordering::Equal,
            (Value::List(a), Value::List(b)) => order_all(a.as_slice(), b.as_slice()),
            (Value::Record(a, parts), Value::Record(b, others)) => match a.order(b) {
                Ordering::Equal => order_all(parts.as_slice(), others.as_slice()),
                unequal => unequal,
            },
            _ => self.kind().cmp(&other.kind()),
        }
    }

    /// The place of the kind in the order of kinds.
    fn kind(&self) -> u8
        ensures { result ≡ kind_of (data_of self.now) }
    {
        match self {
            Value::Int(_) => 0,
            Value::Bool(_) => 1,
            Value::Text(_) => 2,
            Value::Symbol(_) => 3,
            Value::Null => 4,
            Value::List(_) => 5,
            Value::Record(_, _) => 6,
        }
    }
}

/// By the first value that differs; the values that end first come first.
#[cycle(order)]
#[tactic(auto, using(crate::proofs::Parts::part_size, crate::proofs::Parts::parts_next, crate::proofs::Parts::parts_end))]
fn order_all(values: &[Value], others: &[Value]) -> Ordering
    ensures { result ≡ order_of_items (parts_of values.now) (parts_of others.now) }
{
    for place in 0..values.len().min(others.len()) {
        match values[place].order(&others[place]) {
            Ordering::Equal => {}
            unequal => return unequal,
        }
    }
    values.len().cmp(&others.len())
}
