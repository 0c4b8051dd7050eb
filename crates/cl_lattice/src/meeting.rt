//! Two types of one kind, where the answer for the types inside them is known.
ghost use Rattle.std.specs.Prelude.{◌≡◌, ◌↔◌, [], IsTrue};
ghost use Rattle.cl_lattice.specs.Arguments.{given_by, tokens_in, trees_of};
ghost use Rattle.cl_lattice.specs.Expanded.{Expanded, null_or, sequence, token_or};
ghost use Rattle.cl_lattice.specs.SubtypeHeads.{IsDeclared, head_type};
ghost use Rattle.cl_lattice.specs.SubtypeRows.{InnerAgrees};
ghost use Rattle.cl_lattice.specs.SubtypeWays.{ByHeads};
ghost use Rattle.cl_lattice.specs.World.{World};

use crate::arguments::Bound;
use crate::comparing::all_tokens;
use crate::heads::Head;
use crate::lattices::Lattice;
use crate::plain_types::{
    by_blank_areas, by_booleans, by_commands, by_dialog_choices, by_hosts, by_integers, by_members,
    by_records, by_subsets, by_symbols, by_texts, by_unknown,
};
use cl_syntax::TypeArg;

fn sequences_meet(second: &Head<'_>, inner: bool) -> bool
    ensures { (w : World) (t : Expanded) → InnerAgrees (sequence t) (head_type w [] second.now) inner
        → IsTrue result ↔ ByHeads (sequence t) (head_type w [] second.now) }
{
    match second {
        Head::Sequence(_) => inner,
        _ => false,
    }
}

fn null_ors_meet(second: &Head<'_>, inner: bool) -> bool
    ensures { (w : World) (t : Expanded) → InnerAgrees (null_or t) (head_type w [] second.now) inner
        → IsTrue result ↔ ByHeads (null_or t) (head_type w [] second.now) }
{
    match second {
        Head::NullOr(_) => inner,
        _ => false,
    }
}

fn token_ors_meet(args: &[TypeArg], second: &Head<'_>, inner: bool) -> bool
    ensures { (w : World) (t : Expanded) → InnerAgrees (token_or (tokens_in (trees_of args.now)) t) (head_type w [] second.now) inner
        → IsTrue result ↔ ByHeads (token_or (tokens_in (trees_of args.now)) t) (head_type w [] second.now) }
{
    match second {
        Head::TokenOr(others, _) => all_tokens(args, others) && inner,
        _ => false,
    }
}

impl Lattice {
    /// Two types of one kind, by their arguments; `inner` is the answer for the types inside them.
    pub(crate) fn heads_meet<'a>(
        &'a self,
        first: &Head<'a>,
        bound: &Bound<'a>,
        second: &Head<'a>,
        inner: bool,
    ) -> bool
        requires first { IsDeclared self.now first.now }
        requires second { IsDeclared self.now second.now }
        ensures { InnerAgrees (head_type self.now (given_by bound.now) first.now) (head_type self.now [] second.now) inner → IsTrue result ↔ ByHeads (head_type self.now (given_by bound.now) first.now) (head_type self.now [] second.now) }
    {
        match first {
            Head::Sequence(_) => sequences_meet(second, inner),
            Head::NullOr(_) => null_ors_meet(second, inner),
            Head::TokenOr(args, _) => token_ors_meet(args, second, inner),
            Head::Boolean => by_booleans(second),
            Head::Symbols => by_symbols(second),
            Head::BlankArea => by_blank_areas(second),
            Head::Command => by_commands(second),
            Head::DialogChoice => by_dialog_choices(second),
            Head::Integer(low, high) => by_integers(*low, *high, second),
            Head::Text(length) => by_texts(*length, second),
            Head::Member(args) => by_members(args, bound, second),
            Head::Subset(args) => by_subsets(args, bound, second),
            Head::Record(name) => by_records(name, second),
            Head::Host(name, low, high) => by_hosts(name, *low, *high, second),
            Head::User(name, args, user) => self.by_users(name, args, user, bound, second),
            Head::Unknown(name, args) => by_unknown(name, args, bound, second),
            Head::Everything => false,
            Head::Nothing => false,
            Head::SomeOf(_) => false,
            Head::EachOf(_) => false,
        }
    }
}
