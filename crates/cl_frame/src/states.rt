//! What panes are settled by: the slots, and what fills a pane in the place of its display.
ghost use Rattle.std.specs.Prelude.{◌≡◌, [], option_map};
ghost use Rattle.cl_frame.specs.States.{filling_in, filling_of, shown_env, shown_forms, state_of};

use cl_application::{App, PaneDecl};
use cl_eval::{Env, Slots};
use cl_syntax::Shape;
use cl_value::Text;

/// What fills the pane of a name in the place of its own display: a display of the application, with these variables.
#[derive(Clone, Copy)]
pub struct Filling<'a> {
    pub pane: &'a Text,
    pub display: &'a Text,
    pub env: &'a Env,
}

/// What panes are settled by: the slots, and what fills one of them, if anything does.
#[derive(Clone, Copy)]
pub struct State<'a> {
    pub slots: &'a Slots,
    pub filling: Option<Filling<'a>>,
}

impl<'a> State<'a> {
    // What fills this pane, if anything does.
    fn filling_in(&self, pane: &PaneDecl) -> Option<Filling<'a>>
        ensures { option_map filling_of result ≡ filling_in pane.now (state_of self.now).filling }
    {
        match self.filling {
            Some(filling) if filling.pane.as_slice() == pane.name.as_slice() => Some(filling),
            _ => None,
        }
    }

    // The display forms that a pane shows.
    pub(crate) fn forms<'b>(&self, app: &'b App, pane: &PaneDecl) -> &'b [Shape]
        ensures { result.now ≡ shown_forms app.now pane.now (state_of self.now) }
    {
        let Some(filling) = self.filling_in(pane) else {
            return app.forms_of(pane);
        };
        match app.shape_of(filling.display.as_slice()) {
            Some(display) => display.body.as_slice(),
            None => &[],
        }
    }

    // Their variables; these, which are none, where the pane shows its own display.
    pub(crate) fn env<'b>(&'b self, pane: &PaneDecl, none: &'b Env) -> &'b Env
        requires { none.now ≡ [] }
        ensures { result.now ≡ shown_env pane.now (state_of self.now) }
    {
        match self.filling_in(pane) {
            Some(filling) => filling.env,
            None => none,
        }
    }
}
