//! Items: an area, and what is drawn in it.
ghost use Rattle.std.specs.Prelude.{◌≡◌};
ghost use Rattle.cl_medium.specs.Items.{IsArea, IsItem, item_bounds, item_cell, move_item};
ghost use Rattle.cl_medium.specs.ItemLaws.{item_moves_bounds, item_moves_cells, item_moves_twice, item_stays, item_within};

use crate::areas::Area;
use crate::cells::{cell_in, put_shape};
use crate::leaves::Leaf;
use crate::shapes::LeafShape;
use cl_outside::Cell;
use cl_region::{Rect, Shift};
use std::marker::Model;

/// An item of any shape. Its area has cells, in the range, and is as large as a text, a point or a line
/// asks for.
#[derive(PartialEq, Eq, Drop)]
pub struct AnyLeaf {
    area: Area,
    shape: LeafShape,
}

impl Model for AnyLeaf {
    ghost use Rattle.cl_medium.specs.Items.{IsItem, Item};

    ghost Value = { Item };

    ghost view = { λ i. record { area = i.area; shape = i.shape } };

    ghost invariant = { λ i. IsItem (record { area = i.area; shape = i.shape }) };

    ghost inverse = { λ i. record { area = i.area; shape = i.shape } };
}

impl AnyLeaf {
    // This shape in this area.
    pub(crate) fn new(area: Area, shape: LeafShape) -> AnyLeaf
        requires { IsItem (record { area = area; shape = shape }) }
        ensures { result ≡ record { area = area; shape = shape } }
    {
        AnyLeaf { area, shape }
    }

    /// Where it stands, its sizes and its ink.
    pub fn area(&self) -> Area
        ensures value { result ≡ self.now.area }
        ensures range { IsArea result }
    {
        self.area
    }

    /// What is drawn in the area.
    pub fn shape(&self) -> &LeafShape
        ensures { result.now ≡ self.now.shape }
    {
        &self.shape
    }
}

impl Leaf for AnyLeaf {
    ghost bounds = { item_bounds };

    ghost cell = { item_cell };

    ghost moved_by = { move_item };

    ghost within = { item_within };

    ghost moves_bounds = { item_moves_bounds };

    ghost moves_cells = { item_moves_cells };

    ghost moves_twice = { item_moves_twice };

    ghost stays = { item_stays };

    fn bounds(&self) -> Rect {
        self.area.bounds()
    }

    fn cell_at(&self, at: Shift, x: i64, y: i64) -> Option<Cell> {
        cell_in(&self.shape, &self.area.shifted(at), x, y)
    }

    fn put_row(&self, at: Shift, x: i64, y: i64, cells: &mut [Option<Cell>]) {
        put_shape(&self.shape, &self.area.shifted(at), x, y, cells)
    }

    fn shift(&mut self, by: Shift) {
        self.area = self.area.shifted(by);
    }

    fn same(&self, other: &AnyLeaf) -> bool {
        if !self.area.same(&other.area) {
            return false;
        }
        self.shape.same(&other.shape)
    }
}
