//! Paths: where a value is read.
ghost use Rattle.std.specs.Prelude.{◌≡◌, IfOk};
ghost use Rattle.cl_syntax.specs.Paths.{begins, is_prefix, same_root};

use cl_table::Names;
use cl_value::Text;
use std::alloc::{AllocError, Global};

/// Where a path begins.
#[derive(Drop)]
pub enum Root {
    /// A variable of that name.
    Variable(Text),
    /// `(slot NAME)`
    Slot(Text),
}

/// A variable or a slot, and the fields that are taken of it, the first one first: `(get (get (slot a) f) g)` is the slot `a` with
/// `f` and `g`.
#[derive(Drop)]
pub struct Path {
    pub root: Root,
    pub fields: Names,
}

impl Root {
    /// The same root, which takes no memory: it fails only where one text has as many owners as can be counted.
    fn copy(&self) -> Result<Root, AllocError>
        ensures { IfOk result (λ r. r ≡ self.now) }
    {
        Ok(match self {
            Root::Variable(name) => Root::Variable(name.copy()?),
            Root::Slot(name) => Root::Slot(name.copy()?),
        })
    }

    fn same(&self, other: &Root) -> bool
        ensures { result ≡ same_root self.now other.now }
    {
        match (self, other) {
            (Root::Variable(name), Root::Variable(other)) => name == other,
            (Root::Slot(name), Root::Slot(other)) => name == other,
            _ => false,
        }
    }
}

impl Path {
    /// The same path.
    pub fn copy(&self, alloc: Global) -> Result<Path, AllocError>
        ensures { IfOk result (λ p. p ≡ self.now) }
    {
        Ok(Path {
            root: self.root.copy()?,
            fields: copy_names(alloc, &self.fields)?,
        })
    }

    /// Whether it is the other path, or a beginning of it.
    pub fn is_prefix(&self, other: &Path) -> bool
        ensures { result ≡ is_prefix self.now other.now }
    {
        self.root.same(&other.root) && begins(self.fields.as_slice(), other.fields.as_slice())
    }
}

/// Whether the other names begin with these.
#[tactic(auto, using(crate::proofs::PrefixLemmas::begins_next))]
fn begins(fields: &[Text], others: &[Text]) -> bool
    ensures { result ≡ begins fields.now others.now }
{
    for (place, field) in fields.iter().enumerate() {
        match others.get(place) {
            Some(other) if field == other => {}
            _ => return false,
        }
    }
    true
}

/// The same names.
pub fn copy_names(alloc: Global, names: &Names) -> Result<Names, AllocError>
    ensures { IfOk result (λ copy. copy ≡ names.now) }
{
    let mut copy = Names::new(alloc);
    for name in names.as_slice() {
        copy.push(name.copy()?)?;
    }
    Ok(copy)
}
