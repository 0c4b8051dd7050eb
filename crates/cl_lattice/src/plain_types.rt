//! Comparison of two types of one kind that have no parts.
ghost use Rattle.std.specs.Prelude.{◌≡◌, ◌↔◌, [], IsTrue, Some};
ghost use Rattle.cl_lattice.specs.Arguments.{constants, given_by, trees_of, values_of};
ghost use Rattle.cl_lattice.specs.Expanded.{blank_area, boolean, command, dialog_choice, host, integer, member, record_type, string, subset, symbols, unknown, user};
ghost use Rattle.cl_lattice.specs.SubtypeHeads.{IsDeclared, head_type, user_type};
ghost use Rattle.cl_lattice.specs.SubtypeWays.{ByHeads};
ghost use Rattle.cl_lattice.specs.World.{World, kind_named};
ghost use Rattle.cl_lattice.specs.declared.declared_types.TypeKind.TheVariants as kind;

use crate::arguments::Bound;
use crate::comparing::{all_among, is_high_within, is_length_within, is_low_within, same_values};
use crate::declared_types::UserType;
use crate::heads::Head;
use crate::lattices::Lattice;
use cl_syntax::TypeArg;

/// Whether the second is `boolean`.
pub(crate) fn by_booleans(second: &Head<'_>) -> bool
    ensures { (w : World) → IsTrue result ↔ ByHeads boolean (head_type w [] second.now) }
{
    matches!(second, Head::Boolean)
}

/// Whether the second is `symbol`.
pub(crate) fn by_symbols(second: &Head<'_>) -> bool
    ensures { (w : World) → IsTrue result ↔ ByHeads symbols (head_type w [] second.now) }
{
    matches!(second, Head::Symbols)
}

/// Whether the second is `blank-area`.
pub(crate) fn by_blank_areas(second: &Head<'_>) -> bool
    ensures { (w : World) → IsTrue result ↔ ByHeads blank_area (head_type w [] second.now) }
{
    matches!(second, Head::BlankArea)
}

/// Whether the second is `command`.
pub(crate) fn by_commands(second: &Head<'_>) -> bool
    ensures { (w : World) → IsTrue result ↔ ByHeads command (head_type w [] second.now) }
{
    matches!(second, Head::Command)
}

/// Whether the second is `dialog-choice`.
pub(crate) fn by_dialog_choices(second: &Head<'_>) -> bool
    ensures { (w : World) → IsTrue result ↔ ByHeads dialog_choice (head_type w [] second.now) }
{
    matches!(second, Head::DialogChoice)
}

/// Two types of numbers, by their bounds.
pub(crate) fn by_integers(low: Option<i64>, high: Option<i64>, second: &Head<'_>) -> bool
    ensures { (w : World) → IsTrue result ↔ ByHeads (integer low high) (head_type w [] second.now) }
{
    match second {
        Head::Integer(other_low, other_high) => {
            is_low_within(low, *other_low) && is_high_within(high, *other_high)
        }
        _ => false,
    }
}

/// Two types of texts, by their lengths.
pub(crate) fn by_texts(length: Option<i64>, second: &Head<'_>) -> bool
    ensures { (w : World) → IsTrue result ↔ ByHeads (string length) (head_type w [] second.now) }
{
    match second {
        Head::Text(other) => is_length_within(length, *other),
        _ => false,
    }
}

/// Two types of constants.
pub(crate) fn by_members<'a>(args: &'a [TypeArg], bound: &Bound<'a>, second: &Head<'_>) -> bool
    ensures { (w : World) → IsTrue result ↔ ByHeads (member (constants (values_of (given_by bound.now) (trees_of args.now)))) (head_type w [] second.now) }
{
    match second {
        Head::Member(others) => all_among(args, bound, others),
        _ => false,
    }
}

/// Two types of lists of constants.
pub(crate) fn by_subsets<'a>(args: &'a [TypeArg], bound: &Bound<'a>, second: &Head<'_>) -> bool
    ensures { (w : World) → IsTrue result ↔ ByHeads (subset (constants (values_of (given_by bound.now) (trees_of args.now)))) (head_type w [] second.now) }
{
    match second {
        Head::Subset(others) => all_among(args, bound, others),
        _ => false,
    }
}

/// Two record types.
pub(crate) fn by_records(name: &[u8], second: &Head<'_>) -> bool
    ensures { (w : World) → IsTrue result ↔ ByHeads (record_type name.now) (head_type w [] second.now) }
{
    match second {
        Head::Record(other) => name == *other,
        _ => false,
    }
}

/// Two host types.
pub(crate) fn by_hosts(name: &[u8], low: i64, high: i64, second: &Head<'_>) -> bool
    ensures { (w : World) → IsTrue result ↔ ByHeads (host name.now low high) (head_type w [] second.now) }
{
    match second {
        Head::Host(other, other_low, other_high) => {
            name == *other && low == *other_low && high == *other_high
        }
        _ => false,
    }
}

/// Two types without members.
pub(crate) fn by_unknown<'a>(
    name: &[u8],
    args: &'a [TypeArg],
    bound: &Bound<'a>,
    second: &Head<'_>,
) -> bool
    ensures { (w : World) → IsTrue result ↔ ByHeads (unknown name.now (values_of (given_by bound.now) (trees_of args.now))) (head_type w [] second.now) }
{
    match second {
        Head::Unknown(other, others) => name == *other && same_values(args, bound, others),
        _ => false,
    }
}

impl Lattice {
    /// Two user types. Those of one name and the same arguments are the same.
    #[tactic(auto, using(crate::proofs::SubtypeHeadLemmas::same_user))]
    pub(crate) fn by_users<'a>(
        &self,
        name: &[u8],
        args: &'a [TypeArg],
        user: &UserType,
        bound: &Bound<'a>,
        second: &Head<'_>,
    ) -> bool
        requires first { kind_named name.now self.now ≡ Some (kind.User user.now) }
        requires second { IsDeclared self.now second.now }
        ensures { IsTrue result ↔ ByHeads (user_type self.now name.now (values_of (given_by bound.now) (trees_of args.now)) user.now) (head_type self.now [] second.now) }
    {
        match second {
            Head::User(other, others, _) => name == *other && same_values(args, bound, others),
            _ => false,
        }
    }
}
