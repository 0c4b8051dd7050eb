//! Where a form is read.
ghost use Rattle.std.specs.Prelude.{◌≡◌};

use crate::scopes::Scope;
use cl_words::Signatures;
use std::alloc::Global;

/// Where a form is read: what it may name, and the variables that it sees.
#[derive(Clone, Copy)]
pub struct Reader<'a> {
    pub alloc: Global,
    pub signatures: &'a Signatures,
    pub scope: &'a Scope<'a>,
}

impl<'a> Reader<'a> {
    /// The same, where these variables are seen.
    pub fn seeing(&self, scope: &'a Scope<'a>) -> Reader<'a>
        ensures signatures { result.signatures.now ≡ self.now.signatures.now }
        ensures scope { result.scope.now ≡ scope.now }
    {
        Reader {
            alloc: self.alloc,
            signatures: self.signatures,
            scope,
        }
    }
}
