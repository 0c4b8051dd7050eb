//! A level of old children and new ones, compared: equal ends first, and then each new child with its partner.
ghost use Rattle.std.specs.Prelude.{◌≡◌, ◌++◌, ◌≤◌, [], IfOk, OnOk, if◌then◌else◌, length, map};
ghost use Rattle.cl_damage.specs.Lents.{AllStand, Stands, child_lent};
ghost use Rattle.cl_damage.specs.Places.{KnowsPlaces};
ghost use Rattle.cl_damage.specs.Steps.{Steps, compared_each};
ghost use Rattle.cl_damage.specs.Touched.{between, compared, gives, is_still, level, pair_gives, without_end};

use crate::agreeing::{agreeing, ending, is_still};
use crate::giving::{give, give_all};
use crate::items::Recognizable;
use crate::lents::Lent;
use crate::parts::{before_last, behind, first, inside_of};
use crate::places::{Places, partner_of, places_of};
use cl_medium::Leaf;
use cl_region::{Rect, Shift};
use std::alloc::{AllocError, Global};

// Puts the bounds of an old update and of the new one that was kept of it behind the others, unless it was not moved.
fn give_moved<L: Leaf>(
    moved: Shift,
    old: &Lent<'_, L>,
    new: &Lent<'_, L>,
    rects: &mut Vec<Rect>,
) -> Result<(), AllocError>
    requires old { Stands L.bounds L.moved_by old.now }
    requires new { Stands L.bounds L.moved_by new.now }
    ensures { OnOk result (rects.new.items ≡ rects.old.items ++ (if is_still moved then []
        else gives L.bounds (child_lent L.moved_by old.now) ++ gives L.bounds (child_lent L.moved_by new.now))) }
{
    if is_still(moved) {
        return Ok(());
    }
    give(old, rects)?;
    give(new, rects)
}

// Puts what a new update and its partner give behind the others.
#[cycle(level)]
fn pair<L: Recognizable>(
    alloc: Global,
    old: &Lent<'_, L>,
    new: &Lent<'_, L>,
    rects: &mut Vec<Rect>,
) -> Result<(), AllocError>
    requires old { Stands L.bounds L.moved_by old.now }
    requires new { Stands L.bounds L.moved_by new.now }
    ensures { OnOk result (rects.new.items ≡ rects.old.items ++ pair_gives L.bounds (child_lent L.moved_by old.now)
        (compared L.bounds L.same (child_lent L.moved_by new.now)) (child_lent L.moved_by new.now)) }
{
    let Lent::Update(branch) = new else {
        return Ok(());
    };
    if let Some(moved) = branch.moved {
        return give_moved(moved, old, new, rects);
    }
    let olds = inside_of(alloc, old)?;
    let news = inside_of(alloc, new)?;
    level(alloc, &olds, &news, rects)
}

// Puts what a new child gives behind the others, and what the old ones before its partner do, from the next one on. Answers
// which of the old ones is the next one then.
#[cycle(level)]
fn one<L: Recognizable>(
    alloc: Global,
    places: &Places,
    old: &[Lent<'_, L>],
    next: usize,
    new: &Lent<'_, L>,
    rects: &mut Vec<Rect>,
) -> Result<usize, AllocError>
    requires within { next ≤ length old.now }
    requires places { KnowsPlaces places.now.entries (map (child_lent L.moved_by) old.now) }
    requires old { AllStand L.bounds L.moved_by old.now }
    requires new { Stands L.bounds L.moved_by new.now }
    ensures { IfOk result (λ after. Steps L.bounds L.same (child_lent L.moved_by new.now)
        (map (child_lent L.moved_by) old.now) next after rects.old.items rects.new.items) }
{
    match partner_of(places, next, new) {
        None => {
            give(new, rects)?;
            Ok(next)
        }
        Some(at) => {
            give_all(behind(first(old, at), next), rects)?;
            pair(alloc, &old[at], new, rects)?;
            Ok(at + 1)
        }
    }
}

// Puts what the new children in order give behind the others, each compared with what is left of the old ones.
#[cycle(level)]
fn pairs<L: Recognizable>(
    alloc: Global,
    old: &[Lent<'_, L>],
    new: &[Lent<'_, L>],
    rects: &mut Vec<Rect>,
) -> Result<(), AllocError>
    requires old { AllStand L.bounds L.moved_by old.now }
    requires new { AllStand L.bounds L.moved_by new.now }
    ensures { OnOk result (rects.new.items ≡ rects.old.items ++ between L.bounds
        (compared_each L.bounds L.same (map (child_lent L.moved_by) new.now)) (map (child_lent L.moved_by) old.now)) }
{
    let places = places_of(alloc, old)?;
    let mut next: usize = 0;
    for child in new {
        next = one(alloc, &places, old, next, child, rects)?;
    }
    give_all(behind(old, next), rects)
}

// The same, without those that are equal at the end.
#[cycle(level)]
fn rest<L: Recognizable>(
    alloc: Global,
    old: &[Lent<'_, L>],
    new: &[Lent<'_, L>],
    rects: &mut Vec<Rect>,
) -> Result<(), AllocError>
    requires old { AllStand L.bounds L.moved_by old.now }
    requires new { AllStand L.bounds L.moved_by new.now }
    ensures { OnOk result (rects.new.items ≡ rects.old.items ++ without_end L.bounds L.same
        (map (child_lent L.moved_by) old.now) (compared_each L.bounds L.same (map (child_lent L.moved_by) new.now))) }
{
    let count = ending(old, new);
    pairs(
        alloc,
        before_last(old, count),
        before_last(new, count),
        rects,
    )
}

// Puts what a level gives behind the others.
#[cycle(level)]
pub(crate) fn level<L: Recognizable>(
    alloc: Global,
    old: &[Lent<'_, L>],
    new: &[Lent<'_, L>],
    rects: &mut Vec<Rect>,
) -> Result<(), AllocError>
    requires old { AllStand L.bounds L.moved_by old.now }
    requires new { AllStand L.bounds L.moved_by new.now }
    ensures { OnOk result (rects.new.items ≡ rects.old.items ++ level L.bounds L.same
        (map (child_lent L.moved_by) old.now) (compared_each L.bounds L.same (map (child_lent L.moved_by) new.now))) }
{
    let count = agreeing(old, new);
    rest(alloc, behind(old, count), behind(new, count), rects)
}
