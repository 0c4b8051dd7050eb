//! Membership in declared types, and in `command`.
ghost use Rattle.std.specs.Prelude.{◌≡◌, ◌||◌, ◌∷◌, [], ℕ, None, Option, Some, List, is_some, map};
ghost use Rattle.cl_value.specs.Data.{Data, list};
ghost use Rattle.cl_value.specs.Value.{data_of, parts_of};
ghost use Rattle.cl_syntax.specs.StandardTypes.{standard_named};
ghost use Rattle.cl_table.specs.Names.{named};
ghost use Rattle.cl_lattice.specs.Arguments.{given, given_by, trees_of, values_of};
ghost use Rattle.cl_lattice.specs.Expanded.{user};
ghost use Rattle.cl_lattice.specs.Expansion.{declared_type, expansion, own_type};
ghost use Rattle.cl_lattice.specs.Members.{args_ask, commands_ask, fit, fit_command, inside, is_command, is_in, may_ask, memberships, Settles};
ghost use Rattle.cl_lattice.specs.MemberRows.{in_command, in_type};
ghost use Rattle.cl_lattice.specs.Rings.{IsUserType};
ghost use Rattle.cl_lattice.specs.World.{kind_named};

use crate::arguments::Bound;
use crate::atoms::{is_of_record, is_within};
use crate::declared_types::{TypeKind, UserType};
use crate::lattices::Lattice;
use crate::members::{answer, satisfies};
use crate::predicates::Predicates;
use cl_syntax::{TypeArg, TypeSpec};
use cl_value::{Held, Value};
use std::alloc::Global;

impl Lattice {
    // Records, host types and user types.
    #[cycle(member)]
    #[tactic(auto, using(crate::proofs::ExpansionLemmas::own_is))]
    pub(crate) fn declared_holds<'a, P: Predicates>(
        &self,
        alloc: Global,
        value: &Value,
        name: &[u8],
        args: &'a [TypeArg],
        bound: &Bound<'a>,
        preds: &P,
    ) -> Held
        requires { standard_named name.now ≡ None }
        ensures { Settles result
            (in_type self.now (P.answers preds.now) (data_of value.now) (declared_type (own_type self.now) (kind_named name.now self.now) name.now (values_of (given_by bound.now) (trees_of args.now))))
            (may_ask self.now (declared_type (own_type self.now) (kind_named name.now self.now) name.now (values_of (given_by bound.now) (trees_of args.now)))) }
    {
        self.all_fit();
        match self.types.get(name) {
            Some(declared) => match &declared.kind {
                TypeKind::Record => answer(is_of_record(name, value)),
                TypeKind::Host(low, high) => answer(is_within(Some(*low), Some(*high), value)),
                TypeKind::User(user) => self.user_holds(alloc, value, user, args, bound, preds),
            },
            None => Held::No,
        }
    }

    // A user type: what it inherits from, and its predicate.
    #[cycle(member)]
    #[tactic(auto, using(crate::proofs::MemberLemmas::member_in))]
    fn user_holds<'a, P: Predicates>(
        &self,
        alloc: Global,
        value: &Value,
        own: &UserType,
        args: &'a [TypeArg],
        bound: &Bound<'a>,
        preds: &P,
    ) -> Held
        ensures { (x : List ℕ) → Settles result
            (in_type self.now (P.answers preds.now) (data_of value.now) (user x (values_of (given_by bound.now) (trees_of args.now)) own.now.satisfies
            (expansion self.now (given own.now.parameters (values_of (given_by bound.now) (trees_of args.now))) own.now.inherit_from)))
            (may_ask self.now
            (user x (values_of (given_by bound.now) (trees_of args.now)) own.now.satisfies
            (expansion self.now (given own.now.parameters (values_of (given_by bound.now) (trees_of args.now))) own.now.inherit_from))) }
    {
        let inner = Bound::Given(&own.parameters, &*args, &*bound);
        match self.member_under(alloc, value, &own.inherit_from, &inner, preds) {
            Held::Yes => satisfies(alloc, value, &own.satisfies, args, bound, preds),
            Held::No => Held::No,
            Held::Memory => Held::Memory,
        }
    }

    // A command that is declared, with its arguments.
    #[cycle(member)]
    pub(crate) fn command_holds<P: Predicates>(
        &self,
        alloc: Global,
        value: &Value,
        preds: &P,
    ) -> Held
        ensures { Settles result
            (in_command self.now (P.answers preds.now) (data_of value.now))
            (commands_ask self.now) }
    {
        match value {
            Value::List(parts) => self.list_is_command(alloc, parts.as_slice(), preds),
            _ => Held::No,
        }
    }

    // The symbol of a command, and its arguments.
    #[cycle(member)]
    fn list_is_command<P: Predicates>(&self, alloc: Global, parts: &[Value], preds: &P) -> Held
        ensures { Settles result
            (is_command self.now (list (parts_of parts.now)) (memberships self.now (P.answers preds.now) (parts_of parts.now)))
            (commands_ask self.now) }
    {
        match parts.split_first() {
            Some((first, more)) => match first {
                Value::Symbol(name) => self.fit_command(alloc, name.as_slice(), more, preds),
                _ => Held::No,
            },
            None => Held::No,
        }
    }

    // The arguments of the command of that name.
    #[cycle(member)]
    #[tactic(auto, using(crate::proofs::MemberLemmas::command_asks))]
    fn fit_command<P: Predicates>(
        &self,
        alloc: Global,
        name: &[u8],
        values: &[Value],
        preds: &P,
    ) -> Held
        ensures { Settles result
            (fit_command self.now (named name.now self.now.commands) (memberships self.now (P.answers preds.now) (parts_of values.now)))
            (commands_ask self.now) }
    {
        match self.commands.get(name) {
            Some(command) => self.fit(alloc, values, command.args.as_slice(), preds),
            None => Held::No,
        }
    }

    // As many values as specifiers, each a member of its own.
    #[cycle(member)]
    #[tactic(auto, using(crate::proofs::MemberLemmas::arg_asks, crate::proofs::MemberLemmas::later_asks))]
    fn fit<P: Predicates>(
        &self,
        alloc: Global,
        values: &[Value],
        specs: &[TypeSpec],
        preds: &P,
    ) -> Held
        ensures { Settles result
            (fit self.now (memberships self.now (P.answers preds.now) (parts_of values.now)) specs.now)
            (commands_ask self.now || args_ask self.now specs.now) }
    {
        match values.split_first() {
            Some((value, values)) => match specs.split_first() {
                Some((spec, specs)) => match self.member_under(
                    alloc,
                    value,
                    spec,
                    &Bound::Nothing,
                    preds,
                ) {
                    Held::Yes => self.fit(alloc, values, specs, preds),
                    Held::No => Held::No,
                    Held::Memory => Held::Memory,
                },
                None => Held::No,
            },
            None => answer(specs.is_empty()),
        }
    }
}
