//! What statements did so far.
ghost use Rattle.std.specs.Prelude.{◌≡◌, Ok, IfOk, [], ◌∷◌, ◌++◌, OnOk, OnErr};
ghost use Rattle.cl_value.specs.Value.{data_of};
ghost use Rattle.cl_eval.specs.Agrees.{Comes, always};
ghost use Rattle.cl_eval.specs.Executed.{no_effects};
ghost use Rattle.cl_eval.specs.Statements.{add_switch, reply_with, with_dialog};

use crate::metering::Stop;
use crate::slot_table::Slots;
use cl_value::{Text, Value};
use std::alloc::{AllocError, Global};
use std::marker::Model;

/// The most bytes that the replies of one command have together.
const MAX_REPLY_BYTES: usize = 65_536;

/// Texts in a row, which contracts see as their list.
#[derive(Drop)]
pub struct Lines {
    items: Vec<Text>,
}

impl Model for Lines {
    ghost use Rattle.std.specs.Prelude.{ℕ, List};

    ghost Value = { List (List ℕ) };

    ghost view = { λ l. l.items.items };
}

impl Lines {
    /// No text.
    pub fn new(alloc: Global) -> Lines
        ensures { result ≡ [] }
    {
        Lines {
            items: Vec::new(alloc),
        }
    }

    /// One text more, behind the others.
    pub fn push(&mut self, text: Text) -> Result<(), AllocError>
        ensures ok { OnOk result (self.new ≡ self.old ++ text ∷ []) }
        ensures err { OnErr result (self.new ≡ self.old) }
    {
        self.items.push(text)?;
        Ok(())
    }

    /// The texts in their order.
    pub fn as_slice(&self) -> &[Text]
        ensures { result.now ≡ self.now }
    {
        self.items.as_slice()
    }
}

/// Commands switched on or off in a row, which contracts see as their list.
#[derive(Drop)]
pub struct Switches {
    items: Vec<(Text, bool)>,
}

impl Model for Switches {
    ghost use Rattle.std.specs.Prelude.{ℕ, Bool, List};

    ghost Value = { List (List ℕ × Bool) };

    ghost view = { λ s. s.items.items };
}

impl Switches {
    /// No switch.
    pub fn new(alloc: Global) -> Switches
        ensures { result ≡ [] }
    {
        Switches {
            items: Vec::new(alloc),
        }
    }

    // One command more that is switched on or off, behind the others.
    fn push(&mut self, command: Text, on: bool) -> Result<(), AllocError>
        ensures ok { OnOk result (self.new ≡ self.old ++ (command, on) ∷ []) }
        ensures err { OnErr result (self.new ≡ self.old) }
    {
        self.items.push((command, on))?;
        Ok(())
    }

    /// The switches in their order.
    pub fn as_slice(&self) -> &[(Text, bool)]
        ensures { result.now ≡ self.now }
    {
        self.items.as_slice()
    }
}

/// What statements did so far: the slots as they are now, the texts of the replies, how many bytes these have together,
/// the commands switched on or off, and the dialog that was opened last, if one was.
#[derive(Drop)]
pub struct Effects {
    pub slots: Slots,
    pub replies: Lines,
    pub reply_bytes: usize,
    pub switches: Switches,
    pub dialog: Option<Text>,
}

impl Effects {
    /// None yet, on a copy of these slots.
    pub fn new(alloc: Global, slots: &Slots) -> Result<Effects, AllocError>
        ensures { IfOk result (λ e. e ≡ no_effects slots.now) }
    {
        Ok(Effects {
            slots: slots.copy(alloc)?,
            replies: Lines::new(alloc),
            reply_bytes: 0,
            switches: Switches::new(alloc),
            dialog: None,
        })
    }
}

/// One reply more, where it is a text and the replies do not grow too long.
pub fn reply(effects: &mut Effects, value: Value) -> Result<(), Stop>
    ensures { Comes (always effects.new) result (reply_with effects.old (data_of value)) }
{
    let Value::Text(text) = value else {
        return Err(Stop::Trap(1));
    };
    let length = text.as_slice().len();
    if length > MAX_REPLY_BYTES.saturating_sub(effects.reply_bytes)
        || effects.reply_bytes > MAX_REPLY_BYTES
    {
        return Err(Stop::Trap(7));
    }
    effects.replies.push(text)?;
    effects.reply_bytes += length;
    Ok(())
}

/// One command more that is switched on or off.
pub fn switch(effects: &mut Effects, command: &Text, on: bool) -> Result<(), Stop>
    ensures { Comes (always effects.new) result (Ok (add_switch command.now on effects.old)) }
{
    effects.switches.push(command.copy()?, on)?;
    Ok(())
}

/// The dialog of that name was opened last.
pub fn open_dialog(effects: &mut Effects, dialog: &Text) -> Result<(), Stop>
    ensures { Comes (always effects.new) result (Ok (with_dialog dialog.now effects.old)) }
{
    effects.dialog = Some(dialog.copy()?);
    Ok(())
}
