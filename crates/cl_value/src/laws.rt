//! What the definitions of this crate say. The contracts are the laws.
ghost use Rattle.std.specs.Prelude.{◌≡◌, ◌↔◌, ◌<◌, ◌≤◌};
ghost use Rattle.std.specs.Cmp.{IsTotalOrder};
ghost use Rattle.std.specs.declared.cmp.Ordering.TheVariants.{Equal};
ghost use Rattle.cl_value.specs.Data.{Data, size_of, depth_of, order_of};
ghost use Rattle.cl_value.specs.Value.{data_of};
ghost use Rattle.cl_value.specs.declared.Value.{Value};

/// Values with the same data are the same.
#[tactic(auto, using(crate::proofs::Same::data_whole))]
pub fn data_tells_values()
    ensures { (v w : Value) → data_of v ≡ data_of w → v ≡ w }
{}

/// Values are the same where the order calls them equal, and only there.
#[tactic(auto, using(crate::proofs::Same::order_tells))]
pub fn order_tells_values()
    ensures { (v w : Value) → (order_of (data_of v) (data_of w) ≡ Equal) ↔ (v ≡ w) }
{}

/// The order turns round where its arguments are swapped, and holds along a chain.
#[tactic(auto, using(crate::specs::OrderLaws::order_total))]
pub fn order_is_total()
    ensures { IsTotalOrder order_of }
{}

/// A depth is at least 1 and at most the size.
#[tactic(auto, using(crate::proofs::Measures::depth_sized))]
pub fn depth_within_size()
    ensures { (d : Data) → (0 < depth_of d) × (depth_of d ≤ size_of d) }
{}
