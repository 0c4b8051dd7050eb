//! What became of a pane.
ghost use Rattle.std.specs.Prelude.{◌≡◌};
ghost use Rattle.cl_frame.specs.Settling.{met_memory};

/// What was done to show a pane anew: how many updates of the old history were kept where they stood,
/// and how many were moved; and how many items were drawn, and erased, outside of these.
#[derive(Clone, Copy, PartialEq, Eq, Debug)]
pub struct Report {
    pub kept: u64,
    pub moved: u64,
    pub drawn: u64,
    pub erased: u64,
}

/// How the settling of a pane went.
#[derive(Clone, Copy, PartialEq, Eq, Debug)]
pub enum PaneReport {
    /// It shows its display.
    Shown(Report),
    /// Its display trapped, and it shows the kind of the trap.
    Trapped(u8),
    /// It met want of memory and is blank.
    Memory,
    /// It was not settled.
    Quiet,
}

impl PaneReport {
    /// Whether the pane met want of memory.
    pub fn met_memory(&self) -> bool
        ensures { result ≡ met_memory self.now }
    {
        match self {
            PaneReport::Memory => true,
            PaneReport::Shown(_) => false,
            PaneReport::Trapped(_) => false,
            PaneReport::Quiet => false,
        }
    }
}
