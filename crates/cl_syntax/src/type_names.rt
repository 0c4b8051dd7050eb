//! Names of presentation types, with the standard types told apart once.
ghost use Rattle.std.specs.Prelude.{◌≡◌, IfOk};
ghost use Rattle.cl_syntax.specs.StandardTypes.{standard_named, plain_named, built_named};

use cl_value::Text;
use std::alloc::AllocError;
use std::marker::Model;

/// The standard types, after the CLIM II specification's chapter on presentation types.
#[derive(Clone, Copy, PartialEq, Eq, Debug)]
pub enum StandardType {
    /// `t`: every value.
    T,
    /// `nil`: no value.
    Nil,
    Boolean,
    /// `(integer LOW HIGH)`
    Integer,
    /// `(string LENGTH)`
    String,
    Symbol,
    /// `(member CONSTANT ...)`
    Member,
    /// `(subset CONSTANT ...)`
    Subset,
    /// `(sequence SPECIFIER)`
    Sequence,
    /// `(or SPECIFIER ...)`
    Or,
    /// `(and SPECIFIER ...)`
    And,
    /// `(null-or-type SPECIFIER)`
    NullOrType,
    /// `(token-or-type (NAME ...) SPECIFIER)`
    TokenOrType,
    /// `blank-area`: a place of a pane.
    BlankArea,
    /// `command`: a command with all its arguments.
    Command,
    /// `dialog-choice`: the name of a query of a dialog, `exit` or `abort`. No text may name it.
    DialogChoice,
}

/// The standard type of that name; `None` where it is none.
pub fn standard_named(name: &[u8]) -> Option<StandardType>
    ensures { result ≡ standard_named name.now }
{
    if let Some(plain) = plain_named(name) {
        return Some(plain);
    }
    built_named(name)
}

fn plain_named(name: &[u8]) -> Option<StandardType>
    ensures { result ≡ plain_named name.now }
{
    if name == b"t".as_slice() {
        Some(StandardType::T)
    } else if name == b"nil".as_slice() {
        Some(StandardType::Nil)
    } else if name == b"boolean".as_slice() {
        Some(StandardType::Boolean)
    } else if name == b"integer".as_slice() {
        Some(StandardType::Integer)
    } else if name == b"string".as_slice() {
        Some(StandardType::String)
    } else if name == b"symbol".as_slice() {
        Some(StandardType::Symbol)
    } else if name == b"blank-area".as_slice() {
        Some(StandardType::BlankArea)
    } else if name == b"command".as_slice() {
        Some(StandardType::Command)
    } else if name == b"dialog-choice".as_slice() {
        Some(StandardType::DialogChoice)
    } else {
        None
    }
}

fn built_named(name: &[u8]) -> Option<StandardType>
    ensures { result ≡ built_named name.now }
{
    if name == b"member".as_slice() {
        Some(StandardType::Member)
    } else if name == b"subset".as_slice() {
        Some(StandardType::Subset)
    } else if name == b"sequence".as_slice() {
        Some(StandardType::Sequence)
    } else if name == b"or".as_slice() {
        Some(StandardType::Or)
    } else if name == b"and".as_slice() {
        Some(StandardType::And)
    } else if name == b"null-or-type".as_slice() {
        Some(StandardType::NullOrType)
    } else if name == b"token-or-type".as_slice() {
        Some(StandardType::TokenOrType)
    } else {
        None
    }
}

/// The name of a presentation type, seen as its bytes. Which standard type it names is found once, when it is made.
#[derive(Drop)]
pub struct TypeName {
    text: Text,
    standard: Option<StandardType>,
}

impl Model for TypeName {
    ghost use Rattle.std.specs.Prelude.{◌≡◌, ℕ, List};
    ghost use Rattle.cl_syntax.specs.StandardTypes.{standard_named};

    ghost Value = { List ℕ };

    ghost view = { λ n. n.text };

    ghost invariant = { λ n. n.standard ≡ standard_named n.text };
}

impl TypeName {
    /// The name of these bytes.
    pub fn new(text: Text) -> TypeName
        ensures { result ≡ text }
    {
        let standard = standard_named(text.as_slice());
        TypeName { text, standard }
    }

    /// Its bytes.
    pub fn as_slice(&self) -> &[u8]
        ensures { result.now ≡ self.now }
    {
        self.text.as_slice()
    }

    /// Its bytes as a text, which a copy shares.
    pub fn text(&self) -> &Text
        ensures { result.now ≡ self.now }
    {
        &self.text
    }

    /// The standard type of this name; `None` where it is none. One step.
    pub fn standard(&self) -> Option<StandardType>
        ensures { result ≡ standard_named self.now }
    {
        self.standard
    }

    /// The same name, which takes no memory: it fails only where one text has as many owners as can be counted.
    pub fn copy(&self) -> Result<TypeName, AllocError>
        ensures { IfOk result (λ n. n ≡ self.now) }
    {
        Ok(TypeName {
            text: self.text.copy()?,
            standard: self.standard,
        })
    }
}
