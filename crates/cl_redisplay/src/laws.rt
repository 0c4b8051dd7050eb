//! What the definitions of this crate say. The contracts are the laws.
ghost use Rattle.std.specs.Prelude.{◌≡◌, List};
ghost use Rattle.cl_medium.specs.Items.{Item};
ghost use Rattle.cl_record.specs.Marks.{Mark};
ghost use Rattle.cl_redisplay.specs.Operations.{pane_ops};
ghost use Rattle.cl_redisplay.specs.Touching.{everywhere, touched_pane_ops};
ghost use Rattle.cl_redisplay.specs.declared.areas.Area.{Area};

/// Of a pane whose places are all touched, what is sent is what is sent of the whole pane.
pub fn all_touched_is_the_whole_area()
    ensures { (area : Area) → (marks : List (Mark Item)) → touched_pane_ops area marks everywhere ≡ pane_ops area marks }
{}
