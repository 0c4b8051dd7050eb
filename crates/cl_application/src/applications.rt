//! Applications.
ghost use Rattle.std.specs.Prelude.{◌≡◌, option_map};
ghost use Rattle.cl_application.specs.App.{record_named, function_named, display_named, command_named, dialog_named, slot_type, pane_named, forms_of, present_method, accept_method};

use crate::declarations::{
    CommandDecl, Commands, DialogDecl, DialogDecls, DisplayDecl, Displays, FrameDecl, FunctionDecl,
    Functions, HostDecls, MethodDecl, Methods, PaneDecl, TableDecls, TranslatorDecls,
};
use cl_syntax::{RecordDecl, Records, Shape, TypeSpec, UserTypes};

/// An application: what its text declares.
#[derive(Drop)]
pub struct App {
    pub records: Records,
    pub types: UserTypes,
    pub hosts: HostDecls,
    pub present_methods: Methods,
    pub accept_methods: Methods,
    pub functions: Functions,
    pub displays: Displays,
    pub tables: TableDecls,
    pub commands: Commands,
    pub translators: TranslatorDecls,
    pub dialogs: DialogDecls,
    pub frame: FrameDecl,
}

impl App {
    /// The record of that name.
    pub fn record(&self, name: &[u8]) -> Option<&RecordDecl>
        ensures { option_map (λ d. d.now) result ≡ record_named name.now self.now }
    {
        self.records.get(name)
    }

    /// How the type of that name presents its values, where the text says so.
    pub fn present_method(&self, name: &[u8]) -> Option<&MethodDecl>
        ensures { option_map (λ d. d.now) result ≡ present_method name.now self.now }
    {
        self.present_methods.get(name)
    }

    /// How the type of that name reads texts, where the text says so.
    pub fn accept_method(&self, name: &[u8]) -> Option<&MethodDecl>
        ensures { option_map (λ d. d.now) result ≡ accept_method name.now self.now }
    {
        self.accept_methods.get(name)
    }

    /// The function of that name.
    pub fn function(&self, name: &[u8]) -> Option<&FunctionDecl>
        ensures { option_map (λ d. d.now) result ≡ function_named name.now self.now }
    {
        self.functions.get(name)
    }

    /// The display of that name.
    pub fn shape_of(&self, name: &[u8]) -> Option<&DisplayDecl>
        ensures { option_map (λ d. d.now) result ≡ display_named name.now self.now }
    {
        self.displays.get(name)
    }

    /// The command of that name.
    pub fn command(&self, name: &[u8]) -> Option<&CommandDecl>
        ensures { option_map (λ d. d.now) result ≡ command_named name.now self.now }
    {
        self.commands.get(name)
    }

    /// The dialog of that name.
    pub fn dialog(&self, name: &[u8]) -> Option<&DialogDecl>
        ensures { option_map (λ d. d.now) result ≡ dialog_named name.now self.now }
    {
        self.dialogs.get(name)
    }

    /// The type of the frame's slot of that name.
    pub fn slot_spec(&self, name: &[u8]) -> Option<&TypeSpec>
        ensures { option_map (λ t. t.now) result ≡ slot_type name.now self.now }
    {
        match self.frame.slots.get(name) {
            Some(slot) => Some(&slot.spec),
            None => None,
        }
    }

    /// The pane of the frame that has that name.
    pub fn pane(&self, name: &[u8]) -> Option<&PaneDecl>
        ensures { option_map (λ p. p.now) result ≡ pane_named name.now self.now }
    {
        self.frame.panes.get(name)
    }

    /// The body of the display that a pane names; no forms where there is no such display.
    pub fn forms_of(&self, pane: &PaneDecl) -> &[Shape]
        ensures { result.now ≡ forms_of pane.now self.now }
    {
        match self.shape_of(pane.display.as_slice()) {
            Some(display) => display.body.as_slice(),
            None => &[],
        }
    }
}
