//! The updates of old records, each found by its site and its id.
ghost use Rattle.std.specs.Prelude.{◌≡◌, ◌++◌, ◌↔◌, [], IfOk, IfSome, IsTrue, OnOk, false, if◌then◌else◌, map, option_map};
ghost use Rattle.std.specs.Map.{lookup};
ghost use Rattle.cl_value.specs.Value.{data_of};
ghost use Rattle.cl_value.specs.declared.Value.{Value};
ghost use Rattle.cl_region.specs.Places.{IsInRange, move_rect};
ghost use Rattle.cl_syntax.specs.declared.sites.Site.{Site};
ghost use Rattle.cl_medium.specs.Items.{item_bounds, move_item};
ghost use Rattle.cl_record.specs.Ranges.{ArePlaced, IsPlaced, StayInRange};
ghost use Rattle.cl_record.specs.Seen.{tree_of};
ghost use Rattle.cl_record.specs.Shifts.{still};
ghost use Rattle.cl_record.specs.Trees.{trees_of};
ghost use Rattle.cl_display.specs.Siblings.{same_site};
ghost use Rattle.cl_reuse.specs.Kept.{found, is_that};
ghost use Rattle.cl_updating.specs.Gathers.{first_of, update_of, updates_in, updates_of};
ghost use Rattle.cl_updating.specs.Levels.{level_at, old_of};
ghost use Rattle.cl_updating.specs.Places.{AreOf, placed_at, with_id};

use cl_display::History;
use cl_medium::{AnyLeaf, Leaf};
use cl_record::{Node, Nodes, Piece, STILL, join_shifts};
use cl_region::Shift;
use cl_syntax::Site;
use cl_value::Value;
use indexmap::IndexMap;
use std::alloc::{AllocError, Global};
use std::collections::BTreeMap;
use std::marker::Model;

/// An old update, and where it stands: the sum of the places around it and its own.
#[derive(Clone, Copy)]
pub struct Old<'h> {
    pub place: Shift,
    pub piece: &'h Piece<AnyLeaf>,
}

// Old updates by their sites and ids.
type BySite<'h> = IndexMap<Site, BTreeMap<Value, Old<'h>>>;

/// The updates of a level of old records, each found by its site and its id.
#[derive(Drop)]
pub struct Level<'h> {
    at: Shift,
    /// The records, of which contracts speak; `None` for none.
    nodes: Option<&'h Nodes<AnyLeaf>>,
    /// Of the updates with one site and one id the first.
    sites: BySite<'h>,
}

impl<'h> Model for Level<'h> {
    ghost use Rattle.std.specs.Prelude.{[], option_copied, unwrap_or};
    ghost use Rattle.std.specs.Coded.{codes};
    ghost use Rattle.cl_record.specs.Trees.{tree_code, trees_of};
    ghost use Rattle.cl_updating.specs.Levels.{LevelAt, level_at};
    ghost use Rattle.cl_updating.specs.Places.{AreOf};

    ghost Value = { LevelAt };

    ghost coded = { Prim.hlevel (codes, tree_code) };

    ghost view = { λ l. level_at l.at (unwrap_or (option_copied l.nodes) []) };

    ghost invariant = { λ l. AreOf l.at (trees_of (unwrap_or (option_copied l.nodes) [])) l.sites.entries };
}

impl<'h> Level<'h> {
    /// A level without records, which takes no memory.
    pub fn none(alloc: Global) -> Level<'h>
        ensures { result ≡ level_at still [] }
    {
        Level {
            at: STILL,
            nodes: None,
            sites: IndexMap::new(alloc),
        }
    }

    /// The level of these records, which stand so far from the start. Where memory is wanting it fails.
    pub fn of(alloc: Global, nodes: &'h Nodes<AnyLeaf>, at: Shift) -> Result<Level<'h>, AllocError>
        requires { StayInRange item_bounds move_item at (trees_of nodes.now) }
        ensures { IfOk result (λ l. l ≡ level_at at nodes.now) }
    {
        let sites = sites_of(alloc, nodes, at)?;
        Ok(Level {
            at,
            nodes: Some(nodes),
            sites,
        })
    }

    /// The level of a whole history. Where memory is wanting it fails.
    pub fn of_history(alloc: Global, history: &'h History) -> Result<Level<'h>, AllocError>
        ensures { IfOk result (λ l. l ≡ level_at still history.now) }
    {
        // What the rows keep is known from here on.
        let _ = history.nodes().summary();
        Level::of(alloc, history.nodes(), STILL)
    }

    /// The first old update of this site and id.
    pub fn find(&self, site: Site, id: &Value) -> Option<Old<'h>>
        ensures update { option_map old_of result ≡ found site (data_of id.now) self.now.at (trees_of self.now.old) }
        ensures range { IfSome result (λ o. IsInRange (move_rect o.place o.piece.now.head.measures.extent)) }
    {
        match self.sites.get(&site) {
            Some(ids) => ids.get(id).copied(),
            None => None,
        }
    }
}

impl<'h> Old<'h> {
    /// The level of what it holds. Where memory is wanting it fails.
    pub fn level(&self, alloc: Global) -> Result<Level<'h>, AllocError>
        requires { IsInRange (move_rect self.now.place self.now.piece.now.head.measures.extent) }
        ensures { IfOk result (λ l. l ≡ level_at self.now.place self.now.piece.now.inside) }
    {
        let inside = self.piece.inside();
        // What it holds lies in its extent, so this does not fail.
        if !fits(inside, self.place) {
            return Err(AllocError);
        }
        Level::of(alloc, inside, self.place)
    }
}

// Whether these records, moved by `at`, stay in the range.
fn fits(nodes: &Nodes<AnyLeaf>, at: Shift) -> bool
    ensures { IsTrue result ↔ StayInRange item_bounds move_item at (trees_of nodes.now) }
{
    match nodes.summary().extents {
        Some(extents) => extents.fits(at),
        None => true,
    }
}

// The updates of these records by their sites and ids.
fn sites_of<'h>(
    alloc: Global,
    nodes: &'h Nodes<AnyLeaf>,
    at: Shift,
) -> Result<BySite<'h>, AllocError>
    requires { StayInRange item_bounds move_item at (trees_of nodes.now) }
    ensures { IfOk result (λ sites. AreOf at (trees_of nodes.now) sites.entries) }
{
    // Where there is no box there is no update.
    if nodes.summary().extents.is_none() {
        return Ok(IndexMap::new(alloc));
    }
    let mut met = Vec::new(alloc);
    gather_row(nodes, at, &mut met)?;
    by_site(alloc, met)
}

// These updates by their sites and ids, of those with one site and one id the first.
fn by_site<'h>(alloc: Global, mut met: Vec<Met<'h, AnyLeaf>>) -> Result<BySite<'h>, AllocError>
    ensures { IfOk result (λ sites. (site : Site) (id : Value)
        → option_map old_of (placed_at site id sites.entries) ≡ first_of site (data_of id) (map update_of met.entry.items)) }
{
    let mut sites = IndexMap::new(alloc);
    while let Some(Met { place, piece }) = met.pop() {
        put(alloc, &mut sites, Old { place, piece })?;
    }
    Ok(sites)
}

// Puts an update in the place of the one with its site and its id, if there is one.
fn put<'h>(alloc: Global, sites: &mut BySite<'h>, update: Old<'h>) -> Result<(), AllocError>
    ensures { OnOk result ((site : Site) (id : Value) → placed_at site id sites.new.entries
        ≡ if is_that site (data_of id) update.entry.piece.now.head then Some update.entry else placed_at site id sites.old.entries) }
{
    let head = update.piece.head();
    let site = head.site();
    let mut ids = take_ids(alloc, sites, site)?;
    ids.insert(head.id().copy()?, update)?;
    sites.insert(site, ids)?;
    Ok(())
}

// The updates of a site, which has none from now on.
fn take_ids<'h>(
    alloc: Global,
    sites: &mut BySite<'h>,
    site: Site,
) -> Result<BTreeMap<Value, Old<'h>>, AllocError>
    ensures ids { IfOk result (λ ids. (id : Value) → with_id id ids ≡ placed_at site id sites.old.entries) }
    ensures others { OnOk result ((other : Site) → same_site site other ≡ false
        → lookup (same_site other) sites.new.entries ≡ lookup (same_site other) sites.old.entries) }
{
    let ids = sites.insert(site, BTreeMap::new(alloc))?;
    Ok(ids.unwrap_or(BTreeMap::new(alloc)))
}

// An update of some records, and where it stands.
#[derive(Drop)]
struct Met<'h, L: Leaf> {
    place: Shift,
    piece: &'h Piece<L>,
}

// Puts the updates at the level of a record, moved by `at`, behind the others.
#[cycle(gather)]
fn gather_node<'h, L: Leaf>(
    node: &'h Node<L>,
    at: Shift,
    met: &mut Vec<Met<'h, L>>,
) -> Result<(), AllocError>
    requires { IsPlaced L.bounds L.moved_by at (tree_of node.now) }
    ensures { OnOk result (map update_of met.new.items ≡ map update_of met.old.items ++ updates_in at (tree_of node.now)) }
{
    match node {
        Node::Leaf(_) => Ok(()),
        Node::Presentation(presented) => {
            let at = join_shifts(presented.place(), at);
            gather_row(presented.inside(), at, met)
        }
        Node::Update(piece) => {
            let place = join_shifts(piece.place(), at);
            met.push(Met { place, piece })?;
            Ok(())
        }
    }
}

// The same of records in a row.
#[cycle(gather)]
fn gather_row<'h, L: Leaf>(
    inside: &'h Nodes<L>,
    at: Shift,
    met: &mut Vec<Met<'h, L>>,
) -> Result<(), AllocError>
    requires { ArePlaced L.bounds L.moved_by at (trees_of inside.now) }
    ensures { OnOk result (map update_of met.new.items ≡ map update_of met.old.items ++ updates_of at (trees_of inside.now)) }
{
    for node in inside.as_slice() {
        gather_node(node, at, met)?;
    }
    Ok(())
}
