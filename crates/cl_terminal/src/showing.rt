//! The rows below the screen, as a session has them.
ghost use Rattle.std.specs.Prelude.{◌≡◌, ◌≤◌, IfOk};
ghost use Rattle.cl_application.specs.Panes.{IsPlaced};
ghost use Rattle.cl_session.specs.Accessible.{IsAccessible};
ghost use Rattle.cl_session.specs.Session.{world_of};
ghost use Rattle.cl_terminal.specs.Showing.{Shows, rows_in, said_bytes};

use crate::seats::Seat;
use cl_ansi::AnsiDevice;
use cl_application::App;
use cl_interactor::{expected, interactor, put_typed};
use cl_outside::{MemSink, Sent, Sink};
use std::alloc::{AllocError, Global};

impl Seat {
    /// Shows the rows below the screen. Out of memory nothing is sent.
    pub fn show<S: Sink>(&self, alloc: Global, app: &App, device: &mut AnsiDevice<S>) -> Sent
        requires placed { IsPlaced app.now.frame }
        requires accessible { IsAccessible app.now self.now.session.accessible }
        ensures { Shows app.now (world_of self.now.session self.now.slots) self.now.said device.old device.new result }
    {
        match self.rows(alloc, app) {
            Ok(rows) => device.write(rows.as_slice()),
            Err(_) => device.write(b""),
        }
    }

    // The bytes that show the rows.
    fn rows(&self, alloc: Global, app: &App) -> Result<Vec<u8>, AllocError>
        requires placed { IsPlaced app.now.frame }
        requires accessible { IsAccessible app.now self.now.session.accessible }
        ensures { IfOk result (λ rows. rows.items ≡ rows_in app.now (world_of self.now.session self.now.slots) self.now.said) }
    {
        let desk = &self.session.desk;
        let mut typed = Vec::new(alloc);
        put_typed(&mut typed, &desk.line)?;
        let tables = &self.session.accessible.tables;
        let words = expected(app, tables, &desk.line, desk.dialog.as_ref());
        let said = said_bytes(&self.said);
        interactor(alloc, app.frame.height, typed.as_slice(), words, said)
    }
}

// What is shown of what was said.
fn said_bytes(said: &Option<MemSink>) -> &[u8]
    ensures { result.now ≡ said_bytes said.now }
{
    match said {
        Some(said) => said.taken(),
        None => b"! memory",
    }
}
