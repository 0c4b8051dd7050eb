//! What the forms of a text may name.
ghost use Rattle.std.specs.Prelude.{◌≡◌, option_map};
ghost use Rattle.cl_words.specs.Signatures.{function_in, display_in, function_count, display_count, type_in, record_in, record_count, slot_in, pane_in, is_global_table, table_in, command_in, arguments_of, dialog_in};

use cl_table::{Declared, Names, Table};
use cl_value::Text;

/// What the forms of a text may name.
#[derive(Drop)]
pub struct Signatures {
    pub callees: Table<Callee>,
    pub types: Table<TypeHead>,
    pub slots: Table<SlotHead>,
    pub panes: Table<PaneHead>,
    pub tables: Table<TableHead>,
    pub commands: Table<CommandHead>,
    pub dialogs: Table<DialogHead>,
}

#[derive(Clone, Copy)]
pub enum CalleeKind {
    Function,
    Display,
}

/// A function or a display, with the count of its parameters where that can be told.
#[derive(Drop)]
pub struct Callee {
    pub name: Text,
    pub kind: CalleeKind,
    pub count: Option<usize>,
}

/// What declares a type that is no standard one.
#[derive(Clone, Copy)]
pub enum TypeKind {
    Record,
    Host,
    User,
}

/// A type that is no standard one, with the count of a record's fields or of a user type's parameters where
/// that can be told.
#[derive(Drop)]
pub struct TypeHead {
    pub name: Text,
    pub kind: TypeKind,
    pub count: Option<usize>,
}

#[derive(Drop)]
pub struct SlotHead {
    pub name: Text,
}

#[derive(Drop)]
pub struct PaneHead {
    pub name: Text,
}

/// A command table.
#[derive(Drop)]
pub struct TableHead {
    pub name: Text,
}

/// A command, with the names of its arguments where they can be told.
#[derive(Drop)]
pub struct CommandHead {
    pub name: Text,
    pub arguments: Option<Names>,
}

#[derive(Drop)]
pub struct DialogHead {
    pub name: Text,
}

impl Declared for Callee {
    ghost own_name = { λ c. c.name };

    fn name(&self) -> &Text {
        &self.name
    }
}

impl Declared for TypeHead {
    ghost own_name = { λ t. t.name };

    fn name(&self) -> &Text {
        &self.name
    }
}

impl Declared for SlotHead {
    ghost own_name = { λ s. s.name };

    fn name(&self) -> &Text {
        &self.name
    }
}

impl Declared for PaneHead {
    ghost own_name = { λ p. p.name };

    fn name(&self) -> &Text {
        &self.name
    }
}

impl Declared for TableHead {
    ghost own_name = { λ t. t.name };

    fn name(&self) -> &Text {
        &self.name
    }
}

impl Declared for CommandHead {
    ghost own_name = { λ c. c.name };

    fn name(&self) -> &Text {
        &self.name
    }
}

impl Declared for DialogHead {
    ghost own_name = { λ d. d.name };

    fn name(&self) -> &Text {
        &self.name
    }
}

/// Whether a name is that of the command table that each text has, `global-command-table`.
pub fn is_global_table(name: &[u8]) -> bool
    ensures { result ≡ is_global_table name.now }
{
    name == b"global-command-table".as_slice()
}

impl Signatures {
    /// The count of a function's parameters; None where there is no such function, and in it None
    /// where the count cannot be told.
    pub fn function(&self, name: &[u8]) -> Option<Option<usize>>
        ensures { result ≡ function_in self.now name.now }
    {
        match self.callees.get(name) {
            Some(callee) => match callee.kind {
                CalleeKind::Function => Some(callee.count),
                CalleeKind::Display => None,
            },
            None => None,
        }
    }

    /// The same of a display.
    pub fn display(&self, name: &[u8]) -> Option<Option<usize>>
        ensures { result ≡ display_in self.now name.now }
    {
        match self.callees.get(name) {
            Some(callee) => match callee.kind {
                CalleeKind::Display => Some(callee.count),
                CalleeKind::Function => None,
            },
            None => None,
        }
    }

    /// The type of this name that is no standard one.
    pub fn type_head(&self, name: &[u8]) -> Option<&TypeHead>
        ensures { option_map (λ t. t.now) result ≡ type_in self.now name.now }
    {
        self.types.get(name)
    }

    /// The same as of a function of a record and its fields.
    pub fn record_fields(&self, name: &[u8]) -> Option<Option<usize>>
        ensures { result ≡ record_in self.now name.now }
    {
        match self.types.get(name) {
            Some(head) => match head.kind {
                TypeKind::Record => Some(head.count),
                TypeKind::Host => None,
                TypeKind::User => None,
            },
            None => None,
        }
    }

    /// Whether there is a slot of this name.
    pub fn has_slot(&self, name: &[u8]) -> bool
        ensures { result ≡ slot_in self.now name.now }
    {
        self.slots.get(name).is_some()
    }

    /// Whether a frame has a pane of this name.
    pub fn has_pane(&self, name: &[u8]) -> bool
        ensures { result ≡ pane_in self.now name.now }
    {
        self.panes.get(name).is_some()
    }

    /// Whether there is a command table of this name.
    pub fn has_table(&self, name: &[u8]) -> bool
        ensures { result ≡ table_in self.now name.now }
    {
        is_global_table(name) || self.tables.get(name).is_some()
    }

    /// Whether there is a command of this name.
    pub fn has_command(&self, name: &[u8]) -> bool
        ensures { result ≡ command_in self.now name.now }
    {
        self.commands.get(name).is_some()
    }

    /// The names of a command's arguments, in their order; None where there is no such command, or they
    /// cannot be told.
    pub fn command_arguments(&self, name: &[u8]) -> Option<&Names>
        ensures { option_map (λ names. names.now) result ≡ arguments_of self.now name.now }
    {
        match self.commands.get(name) {
            Some(command) => command.arguments.as_ref(),
            None => None,
        }
    }

    /// Whether there is a dialog of this name.
    pub fn has_dialog(&self, name: &[u8]) -> bool
        ensures { result ≡ dialog_in self.now name.now }
    {
        self.dialogs.get(name).is_some()
    }
}
