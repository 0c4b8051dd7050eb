//! What a caller may rest on of a device that shows spans of cells.
ghost use Rattle.std.specs.Prelude.{◌≡◌, ℕ, ◌≤◌, Option, Bool, false, List, None};
ghost use Rattle.cl_outside.specs.Device.{Picture, IsSpan, ClearSent, SpanSent, SentRose};
ghost use Rattle.cl_outside.specs.Lent.{Lent, nothing_lent};
ghost use Rattle.cl_outside.specs.Operations.{clears, mended, op_bytes, shows};
ghost use Rattle.cl_outside.specs.Sending.{IsTied, Sends};

use crate::answers::Sent;

/// What shows cells, with a count of its faults. One that was just made is not broken and not yet
/// cleared, and its picture is a blank one of 1 by 1.
pub trait Device {
    // the cells that it shows; None: not told
    ghost picture: { Self → Option Picture };

    // whether an operation failed since it was last cleared
    ghost broken: { Self → Bool };

    // whether it was ever cleared; until then it shows no span
    ghost cleared: { Self → Bool };

    // how often an operation failed; never falls, and stands still at 2^64 - 1
    ghost faults: { Self → ℕ };

    // what a device over a sink keeps of it; no call changes it
    ghost lent: { Self → Lent } = { λ _. nothing_lent };

    // the bytes that were sent so far, where it sends its operations on a wire; None: not told
    ghost wire: { Self → Option (List ℕ) } = { λ _. None };

    // while it is whole, it shows what its wire shows, where that is told at all times
    ghost tied: { (device : Self)
        → IsTied (lent device).told (wire device) (broken device) (picture device) };

    /// Makes the picture a blank one of `width` columns and `height` rows, and mends the device: what
    /// a broken one sends begins with a line feed.
    fn clear(&mut self, width: u16, height: u16) -> Sent
        requires columns { (1 ≤ width) × (width ≤ 512) }
        requires rows { (1 ≤ height) × (height ≤ 256) }
        ensures lent { lent self.new ≡ lent self.old }
        ensures shows { ClearSent width height (picture self.new) (broken self.new)
            (cleared self.new) result }
        ensures sends { Sends result (wire self.old) (wire self.new)
            (mended (broken self.old) (op_bytes (clears width height))) (faults self.old)
            (faults self.new) }
        ensures cause { SentRose (faults self.old) (faults self.new) result };

    /// Shows the glyphs from column `x` of row `y` on, with this ink; those that lie outside the
    /// picture are dropped.
    fn span(&mut self, x: u16, y: u16, ink: u8, glyphs: &[u8]) -> Sent
        requires whole { broken self.old ≡ false }
        requires span { IsSpan ink glyphs.now }
        ensures lent { lent self.new ≡ lent self.old }
        ensures cleared { cleared self.new ≡ cleared self.old }
        ensures shows { SpanSent (cleared self.old) (picture self.old) (picture self.new) x y ink
            glyphs.now (broken self.new) result }
        ensures sends { Sends result (wire self.old) (wire self.new)
            (op_bytes (shows x y ink glyphs.now)) (faults self.old) (faults self.new) }
        ensures cause { SentRose (faults self.old) (faults self.new) result };
}
