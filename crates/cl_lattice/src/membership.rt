//! Membership in types, after the CLIM II specification's `presentation-typep`.
ghost use Rattle.std.specs.Prelude.{◌≡◌, ◌||◌, [], ℕ, None, List, map};
ghost use Rattle.cl_value.specs.Value.{data_of, parts_of};
ghost use Rattle.cl_syntax.specs.StandardTypes.{standard_named};
ghost use Rattle.cl_lattice.specs.Arguments.{given_by, tokens_in, trees_of, values_of};
ghost use Rattle.cl_lattice.specs.Expansion.{declared_type, expand_parts, expansion, own_type, standard_type};
ghost use Rattle.cl_lattice.specs.Members.{any_asks, args_ask, commands_ask, every, fit, inside, is_command, is_in, is_in_each, is_in_some, is_member, may_ask, memberships, Settles};
ghost use Rattle.cl_lattice.specs.MemberRows.{first_asks, in_beside, in_command, in_each, in_sequence, in_some, in_type, parts_under};
ghost use Rattle.cl_lattice.specs.Rings.{IsUserType};
ghost use Rattle.cl_lattice.specs.World.{kind_named};

use crate::arguments::{Bound, first_number, is_among, next_spec, second_number, tokens_in};
use crate::atoms::{is_blank_area, is_boolean, is_null, is_one_of, is_symbol, is_text, is_within};
use crate::lattices::Lattice;
use crate::members::{answer, is_subset};
use crate::predicates::Predicates;
use cl_syntax::{StandardType, TypeArg, TypeSpec};
use cl_value::{Held, Value};
use std::alloc::Global;

impl Lattice {
    /// Whether a value is a member of a type. Out of memory comes only where a predicate may be asked: for its
    /// arguments, or from `preds`.
    pub fn member<P: Predicates>(
        &self,
        alloc: Global,
        value: &Value,
        spec: &TypeSpec,
        preds: &P,
    ) -> Held
        ensures { Settles result
            (is_member self.now (P.answers preds.now) (data_of value.now) (expansion self.now [] spec.now))
            (may_ask self.now (expansion self.now [] spec.now)) }
    {
        self.member_under(alloc, value, spec, &Bound::Nothing, preds)
    }

    /// The same with the parameters of the declaration around put in.
    #[cycle(member)]
    #[tactic(auto, using(crate::proofs::MemberLemmas::member_in))]
    pub fn member_under<'a, P: Predicates>(
        &self,
        alloc: Global,
        value: &Value,
        spec: &'a TypeSpec,
        bound: &Bound<'a>,
        preds: &P,
    ) -> Held
        ensures { Settles result
            (is_member self.now (P.answers preds.now) (data_of value.now) (expansion self.now (given_by bound.now) spec.now))
            (may_ask self.now (expansion self.now (given_by bound.now) spec.now)) }
    {
        let args = spec.args.as_slice();
        match spec.name.standard() {
            Some(standard) => self.standard_holds(alloc, value, standard, args, bound, preds),
            None => self.declared_holds(alloc, value, spec.name.as_slice(), args, bound, preds),
        }
    }

    // The rows of the standard types.
    #[cycle(member)]
    fn standard_holds<'a, P: Predicates>(
        &self,
        alloc: Global,
        value: &Value,
        standard: StandardType,
        args: &'a [TypeArg],
        bound: &Bound<'a>,
        preds: &P,
    ) -> Held
        ensures { (x : List ℕ) → Settles result
            (in_type self.now (P.answers preds.now) (data_of value.now) (standard_type standard x (values_of (given_by bound.now) (trees_of args.now)) (tokens_in (trees_of args.now)) (parts_under self.now bound.now args.now)))
            (may_ask self.now
            (standard_type standard x (values_of (given_by bound.now) (trees_of args.now)) (tokens_in (trees_of args.now)) (parts_under self.now bound.now args.now))) }
    {
        match standard {
            StandardType::T => Held::Yes,
            StandardType::Nil => Held::No,
            StandardType::Boolean => answer(is_boolean(value)),
            StandardType::Integer => {
                answer(is_within(first_number(args, bound), second_number(args, bound), value))
            }
            StandardType::String => answer(is_text(first_number(args, bound), value)),
            StandardType::Symbol => answer(is_symbol(value)),
            StandardType::Member => answer(is_among(value, args, bound)),
            StandardType::Subset => answer(is_subset(value, args, bound)),
            StandardType::Sequence => self.sequence_holds(alloc, value, args, bound, preds),
            StandardType::Or => self.some_holds(alloc, value, args, bound, preds),
            StandardType::And => self.each_holds(alloc, value, args, bound, preds),
            StandardType::NullOrType => {
                self.beside_holds(alloc, value, is_null(value), args, bound, preds)
            }
            StandardType::TokenOrType => {
                let token = is_one_of(tokens_in(args), value);
                self.beside_holds(alloc, value, token, args, bound, preds)
            }
            StandardType::BlankArea => answer(is_blank_area(value)),
            StandardType::Command => self.command_holds(alloc, value, preds),
            StandardType::DialogChoice => answer(is_symbol(value)),
        }
    }

    // Lists of members of the first part.
    #[cycle(member)]
    #[tactic(auto, using(crate::proofs::ExpansionLemmas::parts_next))]
    fn sequence_holds<'a, P: Predicates>(
        &self,
        alloc: Global,
        value: &Value,
        args: &'a [TypeArg],
        bound: &Bound<'a>,
        preds: &P,
    ) -> Held
        ensures { Settles result
            (in_sequence self.now (P.answers preds.now) (data_of value.now) (parts_under self.now bound.now args.now))
            (first_asks (commands_ask self.now) (parts_under self.now bound.now args.now)) }
    {
        match next_spec(args) {
            Some((spec, _)) => match value {
                Value::List(parts) => self.all_hold(alloc, parts.as_slice(), spec, bound, preds),
                _ => Held::No,
            },
            None => Held::No,
        }
    }

    // Whether each value is a member of a type.
    #[cycle(member)]
    fn all_hold<'a, P: Predicates>(
        &self,
        alloc: Global,
        values: &[Value],
        spec: &'a TypeSpec,
        bound: &Bound<'a>,
        preds: &P,
    ) -> Held
        ensures { Settles result
            (every (memberships self.now (P.answers preds.now) (parts_of values.now)) (expansion self.now (given_by bound.now) spec.now))
            (may_ask self.now (expansion self.now (given_by bound.now) spec.now)) }
    {
        for value in values {
            let held = self.member_under(alloc, value, spec, bound, preds);
            if held != Held::Yes {
                return held;
            }
        }
        Held::Yes
    }

    // Members of some part.
    #[cycle(member)]
    #[tactic(auto, using(crate::proofs::ExpansionLemmas::parts_next, crate::proofs::MemberLemmas::member_in))]
    fn some_holds<'a, P: Predicates>(
        &self,
        alloc: Global,
        value: &Value,
        args: &'a [TypeArg],
        bound: &Bound<'a>,
        preds: &P,
    ) -> Held
        ensures { Settles result
            (in_some self.now (P.answers preds.now) (data_of value.now) (parts_under self.now bound.now args.now))
            (any_asks (commands_ask self.now) (parts_under self.now bound.now args.now)) }
    {
        match next_spec(args) {
            Some((spec, more)) => match self.member_under(alloc, value, spec, bound, preds) {
                Held::Yes => Held::Yes,
                Held::No => self.some_holds(alloc, value, more, bound, preds),
                Held::Memory => Held::Memory,
            },
            None => Held::No,
        }
    }

    // Members of each part.
    #[cycle(member)]
    #[tactic(auto, using(crate::proofs::ExpansionLemmas::parts_next, crate::proofs::MemberLemmas::member_in))]
    fn each_holds<'a, P: Predicates>(
        &self,
        alloc: Global,
        value: &Value,
        args: &'a [TypeArg],
        bound: &Bound<'a>,
        preds: &P,
    ) -> Held
        ensures { Settles result
            (in_each self.now (P.answers preds.now) (data_of value.now) (parts_under self.now bound.now args.now))
            (any_asks (commands_ask self.now) (parts_under self.now bound.now args.now)) }
    {
        match next_spec(args) {
            Some((spec, more)) => match self.member_under(alloc, value, spec, bound, preds) {
                Held::Yes => self.each_holds(alloc, value, more, bound, preds),
                Held::No => Held::No,
                Held::Memory => Held::Memory,
            },
            None => Held::Yes,
        }
    }

    // What is taken beside the first part, and its members.
    #[cycle(member)]
    #[tactic(auto, using(crate::proofs::ExpansionLemmas::parts_next, crate::proofs::MemberLemmas::member_in))]
    fn beside_holds<'a, P: Predicates>(
        &self,
        alloc: Global,
        value: &Value,
        beside: bool,
        args: &'a [TypeArg],
        bound: &Bound<'a>,
        preds: &P,
    ) -> Held
        ensures { Settles result
            (in_beside self.now (P.answers preds.now) (data_of value.now) beside (parts_under self.now bound.now args.now))
            (first_asks (commands_ask self.now) (parts_under self.now bound.now args.now)) }
    {
        match next_spec(args) {
            Some((spec, _)) => {
                if beside {
                    Held::Yes
                } else {
                    self.member_under(alloc, value, spec, bound, preds)
                }
            }
            None => Held::No,
        }
    }
}
