//! What texts are made and read by.
ghost use Rattle.std.specs.Prelude.{◌≡◌};
ghost use Rattle.cl_value.specs.Value.{data_of};
ghost use Rattle.cl_lattice.specs.Members.{Says, is_member};
ghost use Rattle.cl_ptext.specs.Methods.{predicates_of};
ghost use Rattle.cl_ptext.specs.Presenting.{expanded};

use crate::hosts::Hosts;
use crate::methods::predicate_value;
use cl_application::App;
use cl_eval::Stop;
use cl_lattice::{Bound, Lattice, Predicates};
use cl_syntax::TypeSpec;
use cl_value::{Held, Value, Values};
use std::alloc::Global;

/// An application with its types and the host types that were handed in: what says which values are members of a type, and
/// presents values and reads texts by their types.
#[derive(Drop)]
pub struct TypeBook<'a, H> {
    pub(crate) alloc: Global,
    pub(crate) app: &'a App,
    pub(crate) lattice: &'a Lattice,
    pub(crate) hosts: &'a H,
}

impl<'a, H: Hosts> TypeBook<'a, H> {
    /// Of an application, its lattice, and the host types.
    pub fn new(alloc: Global, app: &'a App, lattice: &'a Lattice, hosts: &'a H) -> TypeBook<'a, H>
        ensures app { result.app.now ≡ app.now }
        ensures lattice { result.lattice.now ≡ lattice.now }
        ensures hosts { result.hosts.now ≡ hosts.now }
    {
        TypeBook {
            alloc,
            app,
            lattice,
            hosts,
        }
    }

    /// Whether a value is a member of a type, with the parameters of the declaration around put in.
    pub(crate) fn member_under<'s>(
        &self,
        value: &Value,
        spec: &'s TypeSpec,
        bound: &Bound<'s>,
    ) -> Held
        ensures { Says result (is_member self.now.lattice.now (predicates_of self.now.app.now) (data_of value.now) (expanded self.now bound.now spec.now)) }
    {
        self.lattice
            .member_under(self.alloc, value, spec, bound, self)
    }
}

impl<H: Hosts> Predicates for TypeBook<'_, H> {
    ghost use Rattle.cl_ptext.specs.Methods.{predicates_of};

    ghost answers = { λ b f d ds. predicates_of b.app.now f d ds };

    fn holds(&self, function: &[u8], value: &Value, params: &Values) -> Held {
        match predicate_value(self.alloc, self.app, function, value, params) {
            Ok(Value::Bool(true)) => Held::Yes,
            Ok(_) => Held::No,
            Err(Stop::Trap(_)) => Held::No,
            Err(Stop::Memory) => Held::Memory,
        }
    }
}
