//! What playback makes of the bytes of operations. The contracts are the laws.
ghost use Rattle.cl_raster.specs.Laws.{ArePlayed, ClearsMend};

/// Behind whole lines, the bytes of an operation act as that operation.
pub fn whole_operations_are_played()
    ensures { ArePlayed }
{}

/// A `clear` behind a line feed shows a blank picture, whatever broke off before it. So a wire is right again from the
/// redraw that follows a fault on, although the line that broke off may be an operation once the line feed
/// stands behind it.
pub fn a_clear_mends_what_broke_off()
    ensures { ClearsMend }
{}
