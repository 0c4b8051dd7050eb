//! Predicates of user types.
ghost use Rattle.std.specs.Prelude.{◌≡◌};
ghost use Rattle.cl_value.specs.Data.{Data};
ghost use Rattle.cl_value.specs.Value.{data_of};
ghost use Rattle.cl_lattice.specs.Members.{Says};

use cl_value::{Held, Value, Values};

/// What finds whether a predicate is true.
pub trait Predicates {
    ghost use Rattle.std.specs.Prelude.{ℕ, Bool, List};

    // yes and no depend on the function, the value and the arguments alone
    ghost answers: { Self → List ℕ → Data → List Data → Bool };

    /// Whether the function is true of a value and the arguments of its type, `*` as null; a function that traps, or gives
    /// no truth value, is not.
    fn holds(&self, function: &[u8], value: &Value, params: &Values) -> Held
        ensures { Says result (answers self.now function.now (data_of value.now) params.now) };
}
