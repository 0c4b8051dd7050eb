//! What the definitions of this crate say. The contracts are the laws.
ghost use Rattle.std.specs.Prelude.{◌≡◌, ◌≤◌, ◌+◌, ℕ, ℤ, pos, ◌+ℤ◌, ◌*ℤ◌, ◌<ℤ◌, ◌≤ℤ◌};
ghost use Rattle.cl_value.specs.Data.{Data};
ghost use Rattle.cl_syntax.specs.ExprTree.{ExprTree};
ghost use Rattle.cl_application.specs.declared.applications.App.{App};
ghost use Rattle.cl_eval.specs.Outcome.{Gives};
ghost use Rattle.cl_eval.specs.Slots.{Env, Slots};
ghost use Rattle.cl_eval.specs.Meaning.{means};
ghost use Rattle.cl_eval.specs.Operators.{quotient, remainder};
ghost use Rattle.cl_eval.specs.ReadPaths.{AgreeOn};

/// The quotient is rounded down: what it leaves lies between 0, which it may be, and the divisor, which it is not.
#[tactic(auto, using(crate::proofs::NumberLemmas::whole, crate::proofs::NumberLemmas::within_above, crate::proofs::NumberLemmas::within_below))]
pub fn quotient_is_rounded_down()
    ensures whole { (x y : ℤ) → x ≡ (y *ℤ quotient x y) +ℤ remainder x y }
    ensures above { (x y : ℤ) → pos 0 <ℤ y → (pos 0 ≤ℤ remainder x y) × (remainder x y <ℤ y) }
    ensures below { (x y : ℤ) → y <ℤ pos 0 → (y <ℤ remainder x y) × (remainder x y ≤ℤ pos 0) }
{}

/// What ends with a value under some limits, ends so under all limits that its cost and its reach do not pass, with the
/// same value, cost and reach.
pub fn limits_can_be_wider()
    ensures { (depth budget wider_depth wider_budget : ℕ) (app : App) (slots : Slots) (env : Env) (t : ExprTree) (d : Data) (cost reach : ℕ)
        → means depth budget app slots 0 env t 0 0 ≡ Gives d cost reach → cost ≤ wider_budget → reach ≤ wider_depth
        → means wider_depth wider_budget app slots 0 env t 0 0 ≡ Gives d cost reach }
{}

/// The outcome of an expression depends on the values at the paths that it reads alone: where each has the same value in both, or none, it
/// ends with the same value or trap, cost and reach. Where it ends with a value under some limits, it ends with the same value, cost and
/// reach under all limits that these do not pass.
pub fn read_values_alone_matter()
    ensures same_limits { (depth budget level : ℕ) (app : App) (t : ExprTree) (slots : Slots) (env : Env) (other_slots : Slots) (other_env : Env)
        → AgreeOn app t slots env other_slots other_env → (cost reach : ℕ)
        → means depth budget app slots level env t cost reach ≡ means depth budget app other_slots level other_env t cost reach }
    ensures other_limits { (depth budget other_depth other_budget level : ℕ) (app : App) (t : ExprTree) (slots : Slots) (env : Env) (other_slots : Slots) (other_env : Env)
        → AgreeOn app t slots env other_slots other_env → (c k : ℕ) (d : Data) (cost reach : ℕ)
        → means depth budget app slots level env t c k ≡ Gives d cost reach → cost ≤ other_budget → reach ≤ level + other_depth
        → means other_depth other_budget app other_slots level other_env t c k ≡ Gives d cost reach }
{}
