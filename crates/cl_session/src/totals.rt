//! The sums over what was told of panes.
ghost use Rattle.std.specs.Prelude.{◌≡◌, map};
ghost use Rattle.cl_frame.specs.Frames.{reports_of_frame};
ghost use Rattle.cl_frame.specs.Panes.{report_of_pane};
ghost use Rattle.cl_session.specs.Totals.{no_totals, with_gesture, with_handling, with_memory, with_report, with_reports, with_shown};

use cl_frame::{Frame, Pane, PaneReport, Report};

/// The sums over the reports of panes that showed their displays: updates that were kept and moved, items that were drawn and
/// erased; and how often want of memory was told, of a gesture or of a pane. A sum that would pass 2^64 - 1 stays there.
#[derive(Clone, Copy)]
pub struct Totals {
    pub kept: u64,
    pub moved: u64,
    pub drawn: u64,
    pub erased: u64,
    pub memory: u64,
}

impl Totals {
    /// Nothing was told.
    pub fn new() -> Totals
        ensures { result ≡ no_totals }
    {
        Totals {
            kept: 0,
            moved: 0,
            drawn: 0,
            erased: 0,
            memory: 0,
        }
    }

    /// Want of memory was told once more.
    pub(crate) fn with_memory(self) -> Totals
        ensures { result ≡ with_memory self }
    {
        Totals {
            memory: self.memory.saturating_add(1),
            ..self
        }
    }

    /// A gesture was answered: whether its handling met want of memory, and the reports that stand in the frame.
    pub(crate) fn with_gesture(self, memory: bool, frame: &Frame) -> Totals
        ensures { result ≡ with_gesture self memory (reports_of_frame frame.now) }
    {
        self.with_handling(memory)
            .with_panes(frame.panes.as_slice())
    }

    fn with_handling(self, memory: bool) -> Totals
        ensures { result ≡ with_handling self memory }
    {
        if memory {
            return self.with_memory();
        }
        self
    }

    // The reports of panes, one after another.
    fn with_panes(self, panes: &[Pane]) -> Totals
        ensures { result ≡ with_reports self (map report_of_pane panes.now) }
    {
        let mut totals = self;
        for pane in panes {
            totals = totals.with_report(pane.report);
        }
        totals
    }

    fn with_report(self, report: PaneReport) -> Totals
        ensures { result ≡ with_report self report }
    {
        match report {
            PaneReport::Shown(report) => self.with_shown(report),
            PaneReport::Trapped(_) => self,
            PaneReport::Memory => self.with_memory(),
            PaneReport::Quiet => self,
        }
    }

    fn with_shown(self, report: Report) -> Totals
        ensures { result ≡ with_shown self report }
    {
        Totals {
            kept: self.kept.saturating_add(report.kept),
            moved: self.moved.saturating_add(report.moved),
            drawn: self.drawn.saturating_add(report.drawn),
            erased: self.erased.saturating_add(report.erased),
            memory: self.memory,
        }
    }
}
