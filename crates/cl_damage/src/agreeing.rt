//! How many children of a level are equal at its start and at its end.
ghost use Rattle.std.specs.Prelude.{◌≡◌, map};
ghost use Rattle.cl_damage.specs.Children.{is_same_name};
ghost use Rattle.cl_damage.specs.Lents.{AllStand, Stands, child_lent};
ghost use Rattle.cl_damage.specs.Touched.{agreeing, ending, is_equal, is_still, stays};

use crate::items::Recognizable;
use crate::lents::Lent;
use cl_record::Head;
use cl_region::Shift;

// Whether it was not moved.
pub(crate) fn is_still(moved: Shift) -> bool
    ensures { result ≡ is_still moved }
{
    moved.dx == 0 && moved.dy == 0
}

// Whether it was kept where it stood.
fn stays(moved: Option<Shift>) -> bool
    ensures { result ≡ stays moved }
{
    match moved {
        Some(moved) => is_still(moved),
        None => false,
    }
}

// Whether two updates have the same site and id.
fn same_name(a: &Head, b: &Head) -> bool
    ensures { result ≡ is_same_name (a.now.site, a.now.id) (b.now.site, b.now.id) }
{
    let (one, other) = (a.site(), b.site());
    one.form == other.form && one.query == other.query && a.id() == b.id()
}

// Whether an old child and a new one are the same item, or the same update, kept where it stood.
fn is_equal<L: Recognizable>(old: &Lent<'_, L>, new: &Lent<'_, L>) -> bool
    requires old { Stands L.bounds L.moved_by old.now }
    requires new { Stands L.bounds L.moved_by new.now }
    ensures { result ≡ is_equal L.same (child_lent L.moved_by old.now) (child_lent L.moved_by new.now) }
{
    match (old, new) {
        (Lent::Item(old_at, old), Lent::Item(at, new)) => old.same_at(*old_at, *new, *at),
        (Lent::Update(old), Lent::Update(new)) => {
            same_name(new.piece.head(), old.piece.head()) && stays(new.moved)
        }
        _ => false,
    }
}

// How many are equal from the start on.
pub(crate) fn agreeing<L: Recognizable>(old: &[Lent<'_, L>], new: &[Lent<'_, L>]) -> usize
    requires old { AllStand L.bounds L.moved_by old.now }
    requires new { AllStand L.bounds L.moved_by new.now }
    ensures { result ≡ agreeing L.same (map (child_lent L.moved_by) old.now) (map (child_lent L.moved_by) new.now) }
{
    let mut count: usize = 0;
    while count < old.len() && count < new.len() {
        if !is_equal(&old[count], &new[count]) {
            return count;
        }
        count += 1;
    }
    count
}

// How many are equal from the end on.
pub(crate) fn ending<L: Recognizable>(old: &[Lent<'_, L>], new: &[Lent<'_, L>]) -> usize
    requires old { AllStand L.bounds L.moved_by old.now }
    requires new { AllStand L.bounds L.moved_by new.now }
    ensures { result ≡ ending L.same (map (child_lent L.moved_by) old.now) (map (child_lent L.moved_by) new.now) }
{
    let mut count: usize = 0;
    while count < old.len() && count < new.len() {
        if !is_equal(&old[old.len() - 1 - count], &new[new.len() - 1 - count]) {
            return count;
        }
        count += 1;
    }
    count
}
