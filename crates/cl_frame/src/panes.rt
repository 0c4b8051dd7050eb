//! One pane: where it lies, and its history.
ghost use Rattle.std.specs.Prelude.{◌≡◌, ◌≤◌, ◌-◌, [], Some, None, IfOk, false};
ghost use Rattle.cl_application.specs.declared.applications.App.{App};
ghost use Rattle.cl_eval.specs.TypeMeanings.{TypeMeanings};
ghost use Rattle.cl_frame.specs.Damages.{IsDamage, blank_for_memory, touched_with};
ghost use Rattle.cl_frame.specs.Frames.{Evaluates, IsPaneFaithful};
ghost use Rattle.cl_frame.specs.Ground.{meanings_of};
ghost use Rattle.cl_frame.specs.Panes.{IsCounted, area_of, marks_of_pane};
ghost use Rattle.cl_frame.specs.States.{state_of};
ghost use Rattle.cl_frame.specs.Settling.{met_memory, pane_draw, reused};
ghost use Rattle.cl_medium.specs.Items.{move_item};
ghost use Rattle.cl_record.specs.Counts.{count_of};
ghost use Rattle.cl_record.specs.Marks.{history_marks};
ghost use Rattle.cl_reuse.specs.Recorded.{IsFaithfulHistory};
ghost use Rattle.cl_untouched.specs.Among.{keeps_among};
ghost use Rattle.cl_updating.specs.Redisplays.{CanReuse};

use crate::reports::{PaneReport, Report};
use crate::settling::Which;
use crate::states::State;
use cl_application::PaneDecl;
use cl_damage::{Keeps, touched};
use cl_display::History;
use cl_eval::{Env, Program, Types};
use cl_outside::{Ledger, Steps};
use cl_redisplay::Area;
use cl_spans::Spans;
use cl_updating::{Redisplayed, Reuse, redisplay};
use std::alloc::{AllocError, Global};

/// A pane: its area of the screen, its history, None where it is blank for want of memory, how many
/// items that draws, and what became of it when its frame was settled last.
#[derive(Drop)]
pub struct Pane {
    pub area: Area,
    pub history: Option<History>,
    pub items: u64,
    pub report: PaneReport,
}

// A pane whose display was evaluated, and what that kept of the updates of its old history.
#[derive(Drop)]
pub(crate) struct Evaluated {
    pub(crate) pane: Pane,
    pub(crate) keeps: Keeps,
}

/// The area of the screen that a pane is declared to have.
pub fn area_of(pane: &PaneDecl) -> Area
    ensures { result ≡ area_of pane.now }
{
    Area {
        x: pane.x,
        y: pane.y,
        width: pane.width,
        height: pane.height,
    }
}

impl Pane {
    /// A blank pane that was never settled.
    pub fn blank(area: Area) -> Pane
        ensures { result ≡ record { area = area; history = None; items = 0; report = PaneReport.Quiet } }
    {
        Pane {
            area,
            history: None,
            items: 0,
            report: PaneReport::Quiet,
        }
    }

    // A pane that is blank for want of memory.
    pub(crate) fn blank_for_memory(area: Area) -> Pane
        ensures { result ≡ blank_for_memory area }
    {
        Pane {
            area,
            history: None,
            items: 0,
            report: PaneReport::Memory,
        }
    }

    // The pane once its display was evaluated, once, over its old history, which is taken as empty where
    // all histories are discarded. The steps are those of what is drawn anew.
    pub(crate) fn evaluated<T: Types, L: Ledger>(
        &self,
        program: &Program<'_, T>,
        which: Which,
        declared: &PaneDecl,
        state: &State<'_>,
        steps: &mut Steps<L>,
    ) -> Evaluated
        requires depth { program.now.limits.depth ≤ 512 }
        requires counted { IsCounted self.now }
        requires reuse { CanReuse program.now.app.now (meanings_of T.holds T.presents program.now.types.now) }
        requires faithful { IsPaneFaithful program.now.app.now (meanings_of T.holds T.presents program.now.types.now) self.now }
        ensures evaluates { Evaluates
            (pane_draw program.now.limits program.now.app.now (meanings_of T.holds T.presents program.now.types.now)
            declared.now (state_of state.now)) (reused which (marks_of_pane self.now)) self.now result.pane steps.old steps.new }
        ensures keeps { met_memory result.pane.report ≡ false → result.keeps ≡ keeps_among (reused which (marks_of_pane self.now))
            (pane_draw program.now.limits program.now.app.now (meanings_of T.holds T.presents program.now.types.now) declared.now (state_of state.now)) }
        ensures faithful { IsPaneFaithful program.now.app.now (meanings_of T.holds T.presents program.now.types.now) result.pane }
        ensures later { steps.old ≤ steps.new }
    {
        let none = Env::new(program.alloc);
        let env = state.env(declared, &none);
        let forms = state.forms(program.app, declared);
        let blank = History::empty(program.alloc);
        let old = self.reused(which, &blank);
        match redisplay(program, forms, env, state.slots, old, steps) {
            Redisplayed::Built(history, reuse, keeps) => {
                let report = self.report_of(&history, reuse);
                Evaluated {
                    pane: self.with_history(history, PaneReport::Shown(report)),
                    keeps,
                }
            }
            Redisplayed::Trapped(history, kind) => Evaluated {
                pane: self.with_history(history, PaneReport::Trapped(kind)),
                keeps: Keeps::new(program.alloc),
            },
            Redisplayed::Memory => Evaluated {
                pane: Pane::blank_for_memory(self.area),
                keeps: Keeps::new(program.alloc),
            },
        }
    }

    // What has to be shown of a pane that takes the place of this one, of whose updates this was kept: the
    // touched places of its area, or None, which is all of it, where one of both is blank.
    pub(crate) fn damage(
        &self,
        alloc: Global,
        new: &Pane,
        keeps: &Keeps,
    ) -> Result<Option<Spans>, AllocError>
        ensures damage { IfOk result (IsDamage new.now.area (touched_with (marks_of_pane self.now) (marks_of_pane new.now) keeps.now)) }
        ensures whole { IfOk result (λ d. new.now.history ≡ None → d ≡ None) }
    {
        let Some(before) = &self.history else {
            return Ok(None);
        };
        let Some(after) = &new.history else {
            return Ok(None);
        };
        let rects = touched(alloc, before, after, keeps)?;
        Ok(Some(Spans::of(alloc, &rects, &new.area.own_rect())?))
    }

    // The old history of which something may be kept; where there is none to keep, this blank one.
    fn reused<'a>(&'a self, which: Which, blank: &'a History) -> &'a History
        requires { blank.now ≡ [] }
        ensures marks { history_marks move_item result.now ≡ reused which (marks_of_pane self.now) }
        ensures faithful { (app : App) (types : TypeMeanings) → IsPaneFaithful app types self.now → IsFaithfulHistory app types result.now }
    {
        let Some(history) = &self.history else {
            return blank;
        };
        match which {
            Which::All => history,
            Which::Blank => history,
            Which::Force => blank,
        }
    }

    // What was done to show a new history in the place of that of the pane.
    fn report_of(&self, history: &History, reuse: Reuse) -> Report
        ensures { result ≡ record {
          kept = reuse.kept;
          moved = reuse.moved;
          drawn = count_of (history_marks move_item history.now) - reuse.items;
          erased = self.now.items - reuse.items;
        } }
    {
        Report {
            kept: reuse.kept,
            moved: reuse.moved,
            drawn: history.count().saturating_sub(reuse.items),
            erased: self.items.saturating_sub(reuse.items),
        }
    }

    // A pane in its place with this history.
    fn with_history(&self, history: History, report: PaneReport) -> Pane
        ensures { result ≡ record {
          area = self.now.area;
          history = Some history;
          items = count_of (history_marks move_item history);
          report = report;
        } }
    {
        let items = history.count();
        Pane {
            area: self.area,
            history: Some(history),
            items,
            report,
        }
    }
}
