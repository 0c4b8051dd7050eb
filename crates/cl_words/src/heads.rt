//! The fixed words that head forms, in one table.
ghost use Rattle.std.specs.Prelude.{◌≡◌};
ghost use Rattle.cl_words.specs.Heads.{operator_named, access_named, walk_named, special_named, control_named, figure_named, figure_count, setting_named, writing_named, change_named, planned_display, planned_other, planned_named, shared_named, form_head, head_named, is_operator};

use crate::operators::operator_named;
use cl_syntax::{Figure, Operator};

/// The heads that stand before expressions alone, and are no operators over the values of their parts.
#[derive(Clone, Copy)]
pub enum Special {
    Slot,
    Make,
    Get,
    With,
    And,
    Or,
    Map,
    Filter,
    Fold,
}

/// The heads that display forms and statements share.
#[derive(Clone, Copy)]
pub enum Control {
    When,
    Dolist,
    Progn,
}

/// The heads of display forms that set something for their bodies.
#[derive(Clone, Copy)]
pub enum Setting {
    /// `(indenting-output E FORM ...)`
    Indent,
    /// `(with-ink E FORM ...)`
    Ink,
    /// `(with-room-for-graphics FORM ...)`
    Room,
    /// `(with-output-as-presentation (E SPEC :single-box BOOL) FORM ...)`
    Presentation,
    /// `(updating-output (:unique-id E :cache-value (list PATH ...)) FORM ...)`
    Update,
}

/// The heads of the display forms that write.
#[derive(Clone, Copy)]
pub enum Writing {
    /// `(write-text E)`
    WriteText,
    /// `(newline)`
    Newline,
    /// `(present E SPEC)`
    Present,
}

/// The heads of the statements that change or answer something.
#[derive(Clone, Copy)]
pub enum Change {
    /// `(setf PLACE E)`
    Setf,
    /// `(reply E)`
    Reply,
    /// `(enable COMMAND)`
    Enable,
    /// `(disable COMMAND)`
    Disable,
    /// `(open-dialog DIALOG)`
    OpenDialog,
}

/// What a head that is not built yet heads.
#[derive(Clone, Copy)]
pub enum Planned {
    Display,
    /// A part of a table, which stands in a display form.
    Part,
}

/// What a fixed word heads. `if` and `let` head expressions, display forms and statements alike.
#[derive(Drop)]
pub enum Head {
    If,
    Let,
    Special(Special),
    Operator(Operator),
    Control(Control),
    Figure(Figure),
    Setting(Setting),
    Writing(Writing),
    Change(Change),
    Planned(Planned),
}

fn access_named(word: &[u8]) -> Option<Special>
    ensures { result ≡ access_named word.now }
{
    if word == b"slot".as_slice() {
        Some(Special::Slot)
    } else if word == b"make".as_slice() {
        Some(Special::Make)
    } else if word == b"get".as_slice() {
        Some(Special::Get)
    } else if word == b"with".as_slice() {
        Some(Special::With)
    } else {
        None
    }
}

fn walk_named(word: &[u8]) -> Option<Special>
    ensures { result ≡ walk_named word.now }
{
    if word == b"and".as_slice() {
        Some(Special::And)
    } else if word == b"or".as_slice() {
        Some(Special::Or)
    } else if word == b"map".as_slice() {
        Some(Special::Map)
    } else if word == b"filter".as_slice() {
        Some(Special::Filter)
    } else if word == b"fold".as_slice() {
        Some(Special::Fold)
    } else {
        None
    }
}

fn special_named(word: &[u8]) -> Option<Special>
    ensures { result ≡ special_named word.now }
{
    if let Some(special) = access_named(word) {
        return Some(special);
    }
    walk_named(word)
}

fn control_named(word: &[u8]) -> Option<Control>
    ensures { result ≡ control_named word.now }
{
    if word == b"when".as_slice() {
        Some(Control::When)
    } else if word == b"dolist".as_slice() {
        Some(Control::Dolist)
    } else if word == b"progn".as_slice() {
        Some(Control::Progn)
    } else {
        None
    }
}

fn figure_named(word: &[u8]) -> Option<Figure>
    ensures { result ≡ figure_named word.now }
{
    if word == b"draw-point".as_slice() {
        Some(Figure::Point)
    } else if word == b"draw-hline".as_slice() {
        Some(Figure::HorizontalLine)
    } else if word == b"draw-vline".as_slice() {
        Some(Figure::VerticalLine)
    } else if word == b"draw-box".as_slice() {
        Some(Figure::Outline)
    } else if word == b"fill-box".as_slice() {
        Some(Figure::Filled)
    } else {
        None
    }
}

/// How many parts a drawing form has.
pub fn figure_count(figure: Figure) -> usize
    ensures { result ≡ figure_count figure }
{
    match figure {
        Figure::Point => 3,
        Figure::HorizontalLine => 3,
        Figure::VerticalLine => 3,
        Figure::Outline => 4,
        Figure::Filled => 5,
    }
}

fn setting_named(word: &[u8]) -> Option<Setting>
    ensures { result ≡ setting_named word.now }
{
    if word == b"indenting-output".as_slice() {
        Some(Setting::Indent)
    } else if word == b"with-ink".as_slice() {
        Some(Setting::Ink)
    } else if word == b"with-room-for-graphics".as_slice() {
        Some(Setting::Room)
    } else if word == b"with-output-as-presentation".as_slice() {
        Some(Setting::Presentation)
    } else if word == b"updating-output".as_slice() {
        Some(Setting::Update)
    } else {
        None
    }
}

fn writing_named(word: &[u8]) -> Option<Writing>
    ensures { result ≡ writing_named word.now }
{
    if word == b"write-text".as_slice() {
        Some(Writing::WriteText)
    } else if word == b"newline".as_slice() {
        Some(Writing::Newline)
    } else if word == b"present".as_slice() {
        Some(Writing::Present)
    } else {
        None
    }
}

fn change_named(word: &[u8]) -> Option<Change>
    ensures { result ≡ change_named word.now }
{
    if word == b"setf".as_slice() {
        Some(Change::Setf)
    } else if word == b"reply".as_slice() {
        Some(Change::Reply)
    } else if word == b"enable".as_slice() {
        Some(Change::Enable)
    } else if word == b"disable".as_slice() {
        Some(Change::Disable)
    } else if word == b"open-dialog".as_slice() {
        Some(Change::OpenDialog)
    } else {
        None
    }
}

fn planned_display(word: &[u8]) -> Option<Planned>
    ensures { result ≡ planned_display word.now }
{
    if word == b"formatting-table".as_slice() {
        Some(Planned::Display)
    } else {
        None
    }
}

fn planned_other(word: &[u8]) -> Option<Planned>
    ensures { result ≡ planned_other word.now }
{
    if word == b"formatting-row".as_slice() {
        Some(Planned::Part)
    } else if word == b"formatting-cell".as_slice() {
        Some(Planned::Part)
    } else {
        None
    }
}

fn planned_named(word: &[u8]) -> Option<Planned>
    ensures { result ≡ planned_named word.now }
{
    if let Some(planned) = planned_display(word) {
        return Some(planned);
    }
    planned_other(word)
}

fn shared_named(word: &[u8]) -> Option<Head>
    ensures { result ≡ shared_named word.now }
{
    if word == b"if".as_slice() {
        Some(Head::If)
    } else if word == b"let".as_slice() {
        Some(Head::Let)
    } else {
        None
    }
}

/// The head of a display form or a statement that a word is, if it heads no expressions.
fn form_head(word: &[u8]) -> Option<Head>
    ensures { result ≡ form_head word.now }
{
    if let Some(control) = control_named(word) {
        return Some(Head::Control(control));
    }
    if let Some(figure) = figure_named(word) {
        return Some(Head::Figure(figure));
    }
    if let Some(setting) = setting_named(word) {
        return Some(Head::Setting(setting));
    }
    if let Some(writing) = writing_named(word) {
        return Some(Head::Writing(writing));
    }
    if let Some(change) = change_named(word) {
        return Some(Head::Change(change));
    }
    planned_named(word).map(Head::Planned)
}

/// The fixed head that a word is.
pub fn head_named(word: &[u8]) -> Option<Head>
    ensures { result ≡ head_named word.now }
{
    if let Some(head) = shared_named(word) {
        return Some(head);
    }
    if let Some(operator) = operator_named(word) {
        return Some(Head::Operator(operator));
    }
    if let Some(special) = special_named(word) {
        return Some(Head::Special(special));
    }
    form_head(word)
}

/// Whether a word is a fixed head, which names no function and no display.
pub fn is_operator(word: &[u8]) -> bool
    ensures { result ≡ is_operator word.now }
{
    head_named(word).is_some()
}
