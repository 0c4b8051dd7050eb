//! Areas of a screen as canvases.
ghost use Rattle.std.specs.Prelude.{◌≡◌};
ghost use Rattle.cl_redisplay.specs.Paint.{LiesIn};

use crate::areas::Area;
use crate::items::{WIDEST, paint_item};
use cl_medium::Leaf;
use cl_outside::Cell;
use cl_raster::Raster;
use cl_record::Canvas;
use cl_region::Shift;

/// An area of a screen that is lent to it. It shows the cells of the area, counted from its left column
/// and its top row on. Of an item it looks at those places alone that its bounds have in the area.
#[derive(Drop)]
pub struct Window<'a> {
    pub raster: &'a mut Raster,
    pub area: Area,
    /// What an item paints in a row.
    cells: [Option<Cell>; 512],
    pub ghost lies: { LiesIn area raster.now },
}

impl<'a> Window<'a> {
    pub fn new(raster: &'a mut Raster, area: Area) -> Window<'a>
        requires { LiesIn area raster.old }
        ensures same_reference { result.raster.ghost_name ≡ raster.entry.ghost_name }
        ensures raster { result.raster.now ≡ raster.old }
        ensures area { result.area ≡ area }
    {
        Window {
            raster,
            area,
            cells: [None; WIDEST],
        }
    }
}

impl<'a, L: Leaf> Canvas<L> for Window<'a> {
    ghost use Rattle.cl_region.specs.Places.{holds};
    ghost use Rattle.cl_redisplay.specs.Paint.{own_rect};
    ghost use Rattle.cl_redisplay.specs.Parts.{window_cell};
    ghost use Rattle.cl_redisplay.specs.Windows.{Keeps, keeps_itself, keeps_through};

    ghost shows = { λ w x y. holds (own_rect w.area) x y };

    ghost cell = { λ w x y. window_cell w.raster.now w.area x y };

    ghost keeps = { Keeps };

    ghost keeps_itself = { keeps_itself };

    ghost keeps_through = { keeps_through };

    fn paint(&mut self, leaf: &L, at: Shift) {
        paint_item(self.raster, self.area, leaf, at, &mut self.cells);
    }
}
