//! Items that are known again wherever their records stand.
ghost use Rattle.std.specs.Prelude.{◌≡◌};
ghost use Rattle.cl_region.specs.Places.{IsInRange, move_rect};
ghost use Rattle.cl_damage.specs.SameItems.{same_area, same_corner, same_item, same_shape, same_size, same_way};
ghost use Rattle.cl_damage.specs.SameLaws.{item_same_itself, item_same_means};

use cl_medium::{AnyLeaf, Area, Direction, Leaf, LeafShape};
use cl_region::Shift;

/// A leaf that is known again where the records around it stand elsewhere: of two of them, each moved by the places around
/// it, it can be told whether they come to the same thing at the same place.
pub trait Recognizable: Leaf {
    ghost use Rattle.std.specs.Prelude.{◌≡◌, Bool, true};

    // whether both are the same thing at the same place
    ghost same: { Self → Self → Bool };

    /// Whether this one, moved by `at`, is the other, moved by `other_at`. It takes no memory.
    fn same_at(&self, at: Shift, other: &Self, other_at: Shift) -> bool
        requires own { IsInRange (move_rect at (Self.bounds self.now)) }
        requires other { IsInRange (move_rect other_at (Self.bounds other.now)) }
        ensures { result ≡ same (Self.moved_by at self.now) (Self.moved_by other_at other.now) };

    ghost same_means: { (a b : Self) → same a b ≡ true → a ≡ b };

    ghost same_itself: { (a : Self) → same a a ≡ true };
}

impl Recognizable for AnyLeaf {
    ghost same = { same_item };

    ghost same_means = { item_same_means };

    ghost same_itself = { item_same_itself };

    fn same_at(&self, at: Shift, other: &AnyLeaf, other_at: Shift) -> bool {
        same_area(self.area().shifted(at), other.area().shifted(other_at))
            && same_shape(self.shape(), other.shape())
    }
}

// Whether two areas have the same corner.
fn same_corner(a: Area, b: Area) -> bool
    ensures { result ≡ same_corner a b }
{
    a.x == b.x && a.y == b.y
}

// Whether two areas have the same sizes.
fn same_size(a: Area, b: Area) -> bool
    ensures { result ≡ same_size a b }
{
    a.width == b.width && a.height == b.height
}

// Whether two areas have the same corner, the same sizes and the same ink.
fn same_area(a: Area, b: Area) -> bool
    ensures { result ≡ same_area a b }
{
    same_corner(a, b) && same_size(a, b) && a.ink == b.ink
}

// Whether two lines have the same way.
fn same_way(a: Direction, b: Direction) -> bool
    ensures { result ≡ same_way a b }
{
    match (a, b) {
        (Direction::Horizontal, Direction::Horizontal) => true,
        (Direction::Vertical, Direction::Vertical) => true,
        _ => false,
    }
}

// Whether two shapes are of the same kind, and have the same bytes or the same way.
fn same_shape(a: &LeafShape, b: &LeafShape) -> bool
    ensures { result ≡ same_shape a.now b.now }
{
    match (a, b) {
        (LeafShape::Text(a), LeafShape::Text(b)) => a == b,
        (LeafShape::Point(a), LeafShape::Point(b)) => a == b,
        (LeafShape::Line(a), LeafShape::Line(b)) => same_way(*a, *b),
        (LeafShape::Outline, LeafShape::Outline) => true,
        (LeafShape::Fill(a), LeafShape::Fill(b)) => a == b,
        _ => false,
    }
}
