//! The variables that a form sees while it is read.
ghost use Rattle.std.specs.Prelude.{◌≡◌};
ghost use Rattle.cl_expressions.specs.Scopes.{among, in_sight, variables_of};

use cl_value::Text;

/// The names of the variables that a form sees, the newest first. It borrows all that it holds.
#[derive(Drop)]
pub enum Scope<'a> {
    Empty,
    /// Names in front of others, the last one the newest.
    Names(&'a [Text], &'a Scope<'a>),
    /// One name in front of others.
    One(&'a Text, &'a Scope<'a>),
}

impl Scope<'_> {
    /// Whether there is a variable of this name.
    #[tactic(auto, using(crate::proofs::ScopeLemmas::among_sight))]
    pub fn has(&self, name: &[u8]) -> bool
        ensures { result ≡ among name.now (variables_of self.now) }
    {
        match self {
            Scope::Empty => false,
            Scope::Names(names, outer) => is_one_of(names, name) || outer.has(name),
            Scope::One(one, outer) => one.as_slice() == name || outer.has(name),
        }
    }
}

/// Whether a name is one of these. It looks from the last one on.
fn is_one_of(names: &[Text], name: &[u8]) -> bool
    ensures { result ≡ among name.now names.now }
{
    let mut left = names.len();
    while left > 0 {
        left -= 1;
        if names[left].as_slice() == name {
            return true;
        }
    }
    false
}
