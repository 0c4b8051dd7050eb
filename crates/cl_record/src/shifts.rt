//! Sums of moves.
ghost use Rattle.std.specs.Prelude.{◌≡◌};
ghost use Rattle.cl_record.specs.Shifts.{IsShift, join_shifts, still};

use cl_region::Shift;

/// No move.
pub const STILL: Shift = Shift { dx: 0, dy: 0 };

/// One move after the other, which is no further than two near numbers are from each other.
#[inline(always)]
pub fn join_shifts(first: Shift, second: Shift) -> Shift
    requires { IsShift (join_shifts first second) }
    ensures { result ≡ join_shifts first second }
{
    Shift {
        dx: first.dx + second.dx,
        dy: first.dy + second.dy,
    }
}
