//! Where the updates of a level stand in it, found by their sites and ids.
ghost use Rattle.std.specs.Prelude.{◌≡◌, ◌≤◌, IfOk, List, OnOk, Some, drop, false, if◌then◌else◌, length, map};
ghost use Rattle.std.specs.Map.{lookup};
ghost use Rattle.cl_value.specs.Value.{data_of};
ghost use Rattle.cl_value.specs.declared.Value.{Value};
ghost use Rattle.cl_syntax.specs.declared.sites.Site.{Site};
ghost use Rattle.cl_damage.specs.Children.{Child, has_name, is_same_name, name_of};
ghost use Rattle.cl_damage.specs.Lents.{child_lent};
ghost use Rattle.cl_damage.specs.Places.{IsNext, KnowsPlaces, last_place, not_before, placed_at, same_site, with_id};
ghost use Rattle.cl_damage.specs.Touched.{partner};

use crate::lents::Lent;
use cl_medium::Leaf;
use cl_record::Head;
use cl_syntax::Site;
use cl_value::Value;
use indexmap::IndexMap;
use std::alloc::{AllocError, Global};
use std::collections::BTreeMap;

// The places of updates by their sites and ids.
pub(crate) type Places = IndexMap<Site, BTreeMap<Value, usize>>;

// The places of the updates of a level. Of those with one site and one id it is the last one's.
pub(crate) fn places_of<L: Leaf>(
    alloc: Global,
    children: &[Lent<'_, L>],
) -> Result<Places, AllocError>
    ensures { IfOk result (λ places. KnowsPlaces places.entries (map (child_lent L.moved_by) children.now)) }
{
    let mut places = IndexMap::new(alloc);
    for (place, child) in children.iter().enumerate() {
        put_child(alloc, &mut places, child, place)?;
    }
    Ok(places)
}

// Puts the place of a child, if it is an update, in place of that of the one with its site and id, if there is one.
fn put_child<L: Leaf>(
    alloc: Global,
    places: &mut Places,
    child: &Lent<'_, L>,
    place: usize,
) -> Result<(), AllocError>
    ensures { OnOk result ((site : Site) (id : Value) → placed_at site id places.new.entries
        ≡ if has_name (site, data_of id) (child_lent L.moved_by child.now) then Some place else placed_at site id places.old.entries) }
{
    match child {
        Lent::Item(_, _) => Ok(()),
        Lent::Update(branch) => put(alloc, places, branch.piece.head(), place),
    }
}

// Puts a place at this site and id.
fn put(alloc: Global, places: &mut Places, head: &Head, place: usize) -> Result<(), AllocError>
    ensures { OnOk result ((site : Site) (id : Value) → placed_at site id places.new.entries
        ≡ if is_same_name (site, data_of id) (head.now.site, head.now.id) then Some place else placed_at site id places.old.entries) }
{
    let site = head.site();
    let mut ids = take_ids(alloc, places, site)?;
    ids.insert(head.id().copy()?, place)?;
    places.insert(site, ids)?;
    Ok(())
}

// The places of the updates of a site, which has none from now on.
fn take_ids(
    alloc: Global,
    places: &mut Places,
    site: Site,
) -> Result<BTreeMap<Value, usize>, AllocError>
    ensures ids { IfOk result (λ ids. (id : Value) → with_id id ids ≡ placed_at site id places.old.entries) }
    ensures others { OnOk result ((other : Site) → same_site site other ≡ false
        → lookup (same_site other) places.new.entries ≡ lookup (same_site other) places.old.entries) }
{
    let ids = places.insert(site, BTreeMap::new(alloc))?;
    Ok(ids.unwrap_or(BTreeMap::new(alloc)))
}

// The place at this site and id.
fn find(places: &Places, site: Site, id: &Value) -> Option<usize>
    ensures { result ≡ placed_at site id.now places.now.entries }
{
    match places.get(&site) {
        Some(ids) => ids.get(id).copied(),
        None => None,
    }
}

// A place, unless it is before the next one.
fn not_before(next: usize, place: Option<usize>) -> Option<usize>
    ensures { result ≡ not_before next place }
{
    match place {
        Some(place) => { if next <= place { Some(place) } else { None } }
        None => None,
    }
}

// The place of the old child with which a new one is paired, among those from the next one on.
pub(crate) fn partner_of<L: Leaf>(
    places: &Places,
    next: usize,
    child: &Lent<'_, L>,
) -> Option<usize>
    ensures { (os : List (Child L)) → KnowsPlaces places.now.entries os
        → IsNext next os (partner (name_of (child_lent L.moved_by child.now)) (drop next os)) result }
{
    match child {
        Lent::Item(_, _) => None,
        Lent::Update(branch) => {
            let head = branch.piece.head();
            not_before(next, find(places, head.site(), head.id()))
        }
    }
}
