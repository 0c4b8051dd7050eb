//! What an application text declares. In each declaration `at` is its offset in the text in bytes.
use cl_syntax::{Acts, Expr, Shapes, TypeSpec};
use cl_table::{Declared, Names, Table};
use cl_tables::TableDecl;
use cl_translators::GestureName;
use cl_value::Text;

/// `(define-function NAME (PARAMETER ...) BODY)`
#[derive(Drop)]
pub struct FunctionDecl {
    pub name: Text,
    pub parameters: Names,
    pub body: Expr,
    pub at: u32,
}

/// `(define-display NAME (PARAMETER ...) FORM ...)`
#[derive(Drop)]
pub struct DisplayDecl {
    pub name: Text,
    pub parameters: Names,
    pub body: Shapes,
    pub at: u32,
}

/// `(define-present-method NAME (PARAMETER) BODY)` or `(define-accept-method NAME (PARAMETER) BODY)`: how the type of that
/// name presents its values, or reads texts.
#[derive(Drop)]
pub struct MethodDecl {
    pub name: Text,
    pub parameter: Text,
    pub body: Expr,
    pub at: u32,
}

/// `(define-host-type NAME)`: the text uses the host type of that name.
#[derive(Drop)]
pub struct HostDecl {
    pub name: Text,
    pub at: u32,
}

/// The methods of one kind by the names of their types.
pub type Methods = Table<MethodDecl>;

/// The host types that a text declares, by name.
pub type HostDecls = Table<HostDecl>;

/// The functions of an application by name.
pub type Functions = Table<FunctionDecl>;

/// The displays of an application by name.
pub type Displays = Table<DisplayDecl>;

/// The commands of an application by name.
pub type Commands = Table<CommandDecl>;

/// The arguments of a command by name, in order.
pub type ArgumentDecls = Table<ArgumentDecl>;

/// The translators of an application by name, both kinds.
pub type TranslatorDecls = Table<TranslatorDecl>;

/// The dialogs of an application by name.
pub type DialogDecls = Table<DialogDecl>;

/// The queries of a dialog by name, in order.
pub type QueryDecls = Table<QueryDecl>;

/// The command tables of an application by name.
pub type TableDecls = Table<TableDecl>;

/// The slots of a frame by name.
pub type SlotDecls = Table<SlotDecl>;

/// The panes of a frame by name.
pub type PaneDecls = Table<PaneDecl>;

impl Declared for FunctionDecl {
    ghost own_name = { λ d. d.name };

    fn name(&self) -> &Text {
        &self.name
    }
}

impl Declared for DisplayDecl {
    ghost own_name = { λ d. d.name };

    fn name(&self) -> &Text {
        &self.name
    }
}

impl Declared for MethodDecl {
    ghost own_name = { λ d. d.name };

    fn name(&self) -> &Text {
        &self.name
    }
}

impl Declared for HostDecl {
    ghost own_name = { λ d. d.name };

    fn name(&self) -> &Text {
        &self.name
    }
}

impl Declared for CommandDecl {
    ghost own_name = { λ d. d.name };

    fn name(&self) -> &Text {
        &self.name
    }
}

impl Declared for ArgumentDecl {
    ghost own_name = { λ d. d.name };

    fn name(&self) -> &Text {
        &self.name
    }
}

impl Declared for TranslatorDecl {
    ghost own_name = { λ t. t.name };

    fn name(&self) -> &Text {
        &self.name
    }
}

impl Declared for DialogDecl {
    ghost own_name = { λ d. d.name };

    fn name(&self) -> &Text {
        &self.name
    }
}

impl Declared for QueryDecl {
    ghost own_name = { λ q. q.name };

    fn name(&self) -> &Text {
        &self.name
    }
}

impl Declared for SlotDecl {
    ghost own_name = { λ d. d.name };

    fn name(&self) -> &Text {
        &self.name
    }
}

impl Declared for PaneDecl {
    ghost own_name = { λ d. d.name };

    fn name(&self) -> &Text {
        &self.name
    }
}

/// `(define-command (NAME :command-table TABLE :name LINE-NAME :keystroke NAME) (ARGUMENT ...) STATEMENT ...)`.
/// A command-line name that is not given is made from the symbol: a leading `com-` is dropped, hyphens become
/// spaces, and the first letter of each word becomes a capital.
#[derive(Drop)]
pub struct CommandDecl {
    pub name: Text,
    pub table: Text,
    pub line_name: Text,
    pub keystroke: Option<Text>,
    pub arguments: ArgumentDecls,
    pub body: Acts,
    pub at: u32,
}

/// `(NAME TYPE :default E :prompt TEXT)`. A prompt that is not given is made from the name as a command-line
/// name is.
#[derive(Drop)]
pub struct ArgumentDecl {
    pub name: Text,
    pub spec: TypeSpec,
    pub default: Option<DefaultDecl>,
    pub prompt: Text,
    pub at: u32,
}

/// What an argument without a token takes: an expression that reads no slot and no variable, evaluated each
/// time.
#[derive(Drop)]
pub struct DefaultDecl {
    pub value: Expr,
    pub at: u32,
}

/// `(define-presentation-translator NAME (FROM TO KEYS) (PARAMETER) BODY)` or
/// `(define-presentation-to-command-translator NAME (FROM COMMAND KEYS) (PARAMETER) BODY)`. It takes an object of the type
/// `from`, bound to `parameter`. One with a command gives that command with the list of arguments that its body comes to, and
/// has the type `command` as `to`; any other gives what its body comes to. Without a tester it is tried always. The
/// documentation that is not given is the name.
#[derive(Drop)]
pub struct TranslatorDecl {
    pub name: Text,
    pub from: TypeSpec,
    pub to: TypeSpec,
    pub command: Option<Text>,
    pub table: Text,
    pub gesture: GestureName,
    pub priority: u8,
    pub documentation: Text,
    pub tester: Option<Expr>,
    pub parameter: Text,
    pub body: Expr,
    pub at: u32,
}

/// `(define-dialog NAME (:command COMMAND :pane PANE) QUERY ...)`: the arguments of a command as a form in a pane. The queries
/// are the arguments of the command, in order.
#[derive(Drop)]
pub struct DialogDecl {
    pub name: Text,
    pub command: Text,
    pub pane: Text,
    pub queries: QueryDecls,
    pub at: u32,
}

/// `(NAME)` or `(NAME :when E :else E)`: one without a condition is always shown.
#[derive(Drop)]
pub struct QueryDecl {
    pub name: Text,
    pub condition: Option<ConditionDecl>,
    pub at: u32,
}

/// When a query is shown, an expression in which each query's name is a variable; and the value that stands for it where it
/// is not, an expression that reads no slot and no variable, evaluated each time. `otherwise_at` is its offset.
#[derive(Drop)]
pub struct ConditionDecl {
    pub when: Expr,
    pub otherwise: Expr,
    pub otherwise_at: u32,
}

/// `(define-application-frame NAME (:size WIDTH HEIGHT) (:slots SLOT ...) (:panes PANE ...)
/// (:command-table TABLE))`, sizes in cells.
#[derive(Drop)]
pub struct FrameDecl {
    pub name: Text,
    pub width: u16,
    pub height: u16,
    pub slots: SlotDecls,
    pub panes: PaneDecls,
    pub table: Text,
    pub at: u32,
}

/// `(NAME TYPE OPENING)`: the opening value is an expression that reads no slot and no variable;
/// `opening_at` is its offset.
#[derive(Drop)]
pub struct SlotDecl {
    pub name: Text,
    pub spec: TypeSpec,
    pub opening: Expr,
    pub opening_at: u32,
    pub at: u32,
}

/// `(NAME X Y WIDTH HEIGHT DISPLAY)`, in cells of the frame.
#[derive(Drop)]
pub struct PaneDecl {
    pub name: Text,
    pub x: u16,
    pub y: u16,
    pub width: u16,
    pub height: u16,
    pub display: Text,
    pub at: u32,
}
