//! Rectangles of cells.
ghost use Rattle.std.specs.Prelude.{◌≡◌, ℤ, ◌+ℤ◌, ◌↔◌, ◌&&◌, int_le, not, true, IsTrue};
ghost use Rattle.cl_region.specs.Places.{FitsMoved, IsEmpty, IsInRange, IsNear, Covers, box, intersection, holds, is_between, is_thin, move_rect};

/// The cells with `x1 <= x < x2` and `y1 <= y < y2`, in columns and rows; none where a side is not
/// positive.
#[derive(Clone, Copy, PartialEq, Eq, Debug)]
pub struct Rect {
    pub x1: i64,
    pub y1: i64,
    pub x2: i64,
    pub y2: i64,
}

/// A move by so many columns to the right and rows down.
#[derive(Clone, Copy, PartialEq, Eq, Debug)]
pub struct Shift {
    pub dx: i64,
    pub dy: i64,
}

/// No coordinate of a drawn thing lies further out than this.
pub const MAX_COORDINATE: i64 = 1_000_000;

impl Rect {
    /// Whether this cell is one of the rectangle's.
    pub fn contains(&self, x: i64, y: i64) -> bool
        ensures { result ≡ holds self.now x y }
    {
        is_between(self.x1, x, self.x2) && is_between(self.y1, y, self.y2)
    }

    /// Whether there is no cell in it, that is whether a side is not positive.
    pub fn is_empty(&self) -> bool
        ensures sides { result ≡ is_thin self.now }
        ensures cells { IsTrue result ↔ IsEmpty self.now }
    {
        self.is_thin()
    }

    // Whether a side is not positive.
    fn is_thin(&self) -> bool
        ensures { result ≡ is_thin self.now }
    {
        is_at_most(self.x2, self.x1) || is_at_most(self.y2, self.y1)
    }

    /// The cells that are in both.
    pub fn meet(&self, other: &Rect) -> Rect
        ensures rect { result ≡ intersection self.now other.now }
        ensures cells { (x y : ℤ) → holds result x y ≡ holds self.now x y && holds other.now x y }
    {
        Rect {
            x1: self.x1.max(other.x1),
            y1: self.y1.max(other.y1),
            x2: self.x2.min(other.x2),
            y2: self.y2.min(other.y2),
        }
    }

    /// Whether some cell is in both.
    pub fn overlaps(&self, other: &Rect) -> bool
        ensures sides { result ≡ not (is_thin (intersection self.now other.now)) }
        ensures cells { IsTrue result ↔ ((x : ℤ) × ((y : ℤ) × (holds self.now x y && holds other.now x y ≡ true))) }
    {
        !self.meet(other).is_empty()
    }

    /// The least rectangle that holds the cells of both. Where one of them is empty it is the other.
    pub fn join_box(&self, other: &Rect) -> Rect
        ensures left_empty { IsEmpty self.now → result ≡ other.now }
        ensures right_empty { (IsEmpty self.now → ⊥) → IsEmpty other.now → result ≡ self.now }
        ensures left { Covers result self.now }
        ensures right { Covers result other.now }
        ensures least { (r : Rect) → Covers r self.now → Covers r other.now → Covers r result }
    {
        if self.is_empty() {
            return *other;
        }
        if other.is_empty() {
            return *self;
        }
        self.corners_box(other)
    }

    /// The least box of the corners of both, those of a rectangle without cells too.
    pub fn corners_box(&self, other: &Rect) -> Rect
        ensures corners { result ≡ box self.now other.now }
        ensures range { IsInRange self.now → IsInRange other.now → IsInRange result }
    {
        Rect {
            x1: self.x1.min(other.x1),
            y1: self.y1.min(other.y1),
            x2: self.x2.max(other.x2),
            y2: self.y2.max(other.y2),
        }
    }

    /// Whether all four numbers, moved, lie in -1,000,000 to 1,000,000.
    pub fn fits(&self, by: Shift) -> bool
        ensures { IsTrue result ↔ FitsMoved self.now by }
    {
        if !fits_moved(self.x1, by.dx) {
            return false;
        }
        if !fits_moved(self.y1, by.dy) {
            return false;
        }
        if !fits_moved(self.x2, by.dx) {
            return false;
        }
        fits_moved(self.y2, by.dy)
    }

    /// The same rectangle elsewhere.
    pub fn shifted(&self, by: Shift) -> Rect
        requires { FitsMoved self.now by }
        ensures { result ≡ move_rect by self.now }
    {
        Rect {
            x1: self.x1 + by.dx,
            y1: self.y1 + by.dy,
            x2: self.x2 + by.dx,
            y2: self.y2 + by.dy,
        }
    }
}

// Whether a number is at least the first and below the last.
fn is_between(first: i64, z: i64, last: i64) -> bool
    ensures { result ≡ is_between first z last }
{
    first <= z && z < last
}

fn is_at_most(z: i64, last: i64) -> bool
    ensures { result ≡ int_le z last }
{
    z <= last
}

// Whether a number, moved, lies in the range.
fn fits_moved(z: i64, by: i64) -> bool
    ensures { IsTrue result ↔ IsNear (z +ℤ by) }
{
    match z.checked_add(by) {
        Some(sum) => -MAX_COORDINATE <= sum && sum <= MAX_COORDINATE,
        None => false,
    }
}
