//! Laws of what is drawn.
ghost use Rattle.std.specs.Prelude.{◌≡◌, ℕ, ℤ, pos, List};
ghost use Rattle.cl_region.specs.declared.rects.Shift.{Shift};
ghost use Rattle.cl_medium.specs.Ambients.{AmbientAt, CursorMoved, OriginMoved};
ghost use Rattle.cl_medium.specs.Drawing.{box_leaf, fill_leaf, hline_leaf, point_leaf, shape_area, text_leaf, vline_leaf};
ghost use Rattle.cl_medium.specs.Items.{move_item};

/// A text that is drawn from a cursor moved by v, in the same ink, is the same text moved by v.
pub fn text_moves_with_cursor()
    ensures { (v : Shift) (a b : AmbientAt) → CursorMoved v a b → (text : List ℕ)
        → text_leaf b text ≡ move_item v (text_leaf a text) }
{}

/// What is drawn from an origin moved by v, in the same ink, is the same item moved by v, for each kind.
pub fn shapes_move_with_origin()
    ensures points { (v : Shift) (a b : AmbientAt) → OriginMoved v a b → (x y : ℤ) (byte : ℕ)
        → point_leaf (shape_area b x y (pos 1) (pos 1)) byte
        ≡ move_item v (point_leaf (shape_area a x y (pos 1) (pos 1)) byte) }
    ensures hlines { (v : Shift) (a b : AmbientAt) → OriginMoved v a b → (x y length : ℤ)
        → hline_leaf (shape_area b x y length (pos 1))
        ≡ move_item v (hline_leaf (shape_area a x y length (pos 1))) }
    ensures vlines { (v : Shift) (a b : AmbientAt) → OriginMoved v a b → (x y length : ℤ)
        → vline_leaf (shape_area b x y (pos 1) length)
        ≡ move_item v (vline_leaf (shape_area a x y (pos 1) length)) }
    ensures boxes { (v : Shift) (a b : AmbientAt) → OriginMoved v a b → (x y width height : ℤ)
        → box_leaf (shape_area b x y width height)
        ≡ move_item v (box_leaf (shape_area a x y width height)) }
    ensures fills { (v : Shift) (a b : AmbientAt) → OriginMoved v a b
        → (x y width height : ℤ) (byte : ℕ)
        → fill_leaf (shape_area b x y width height) byte
        ≡ move_item v (fill_leaf (shape_area a x y width height) byte) }
{}
