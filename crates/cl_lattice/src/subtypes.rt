//! Subtypes: whether one type is a subtype of another, after the CLIM II specification's chapter on presentation types.
ghost use Rattle.std.specs.Prelude.{◌≡◌, ◌↔◌, ◌⊎◌, [], IsTrue};
ghost use Rattle.cl_lattice.specs.Arguments.{given_by, trees_of};
ghost use Rattle.cl_lattice.specs.Expansion.{expand_parts, expansion, own_type};
ghost use Rattle.cl_lattice.specs.SubtypeHeads.{IsDeclared, head_type};
ghost use Rattle.cl_lattice.specs.SubtypeRows.{InnerAgrees};
ghost use Rattle.cl_lattice.specs.SubtypeWays.{BelowEach, ByFirst, ByHeads, BySecond, BySomeSecond, EachBelow, SomeBelow};
ghost use Rattle.cl_lattice.specs.Subtypes.{IsSubtype};

use crate::arguments::Bound;
use crate::heads::Head;
use crate::lattices::Lattice;
use crate::rows::{answer_before, count};
use cl_syntax::{TypeArg, TypeSpec};

impl Lattice {
    /// Whether a type is a subtype of another, which takes no memory. Each part of the first is compared with each part of the
    /// second once, where the second has at most 256.
    pub fn subtype(&self, a: &TypeSpec, b: &TypeSpec) -> bool
        ensures { IsTrue result ↔ IsSubtype (expansion self.now [] a.now) (expansion self.now [] b.now) }
    {
        match self.row(a, &Bound::Nothing, b) {
            Some(answers) => answer_before(answers.as_slice(), count(&answers)),
            None => self.is_subtype(a, &Bound::Nothing, b),
        }
    }

    // Whether a type is a subtype of another; the first may hold parameters of the declaration around it.
    #[cycle(subtypes)]
    fn is_subtype<'a>(
        &'a self,
        first: &'a TypeSpec,
        bound: &Bound<'a>,
        second: &'a TypeSpec,
    ) -> bool
        ensures { IsTrue result ↔ IsSubtype (expansion self.now (given_by bound.now) first.now) (expansion self.now [] second.now) }
    {
        self.is_below(
            &self.head_of(first, bound),
            bound,
            &self.head_of(second, &Bound::Nothing),
        )
    }

    // The same for the first as a specifier and the second by its head.
    #[cycle(subtypes)]
    fn spec_is_below<'a>(
        &'a self,
        first: &'a TypeSpec,
        bound: &Bound<'a>,
        second: &Head<'a>,
    ) -> bool
        requires { IsDeclared self.now second.now }
        ensures { IsTrue result ↔ IsSubtype (expansion self.now (given_by bound.now) first.now) (head_type self.now [] second.now) }
    {
        self.is_below(&self.head_of(first, bound), bound, second)
    }

    // The same for the first by its head and the second as a specifier.
    #[cycle(subtypes)]
    fn is_below_spec<'a>(
        &'a self,
        first: &Head<'a>,
        bound: &Bound<'a>,
        second: &'a TypeSpec,
    ) -> bool
        requires { IsDeclared self.now first.now }
        ensures { IsTrue result ↔ IsSubtype (head_type self.now (given_by bound.now) first.now) (expansion self.now [] second.now) }
    {
        self.is_below(first, bound, &self.head_of(second, &Bound::Nothing))
    }

    // The same for both by their heads. An `or` is a subtype exactly where each of its parts is.
    #[cycle(subtypes)]
    #[tactic(auto, using(crate::proofs::SubtypeSplitLemmas::or_split))]
    fn is_below<'a>(&'a self, first: &Head<'a>, bound: &Bound<'a>, second: &Head<'a>) -> bool
        requires first { IsDeclared self.now first.now }
        requires second { IsDeclared self.now second.now }
        ensures { IsTrue result ↔ IsSubtype (head_type self.now (given_by bound.now) first.now) (head_type self.now [] second.now) }
    {
        match first {
            Head::SomeOf(parts) => self.each_is_below(parts, bound, second),
            _ => self.is_below_whole(first, bound, second),
        }
    }

    // The same, where the first is no `or`. A type is a subtype of an `and` exactly where it is one of each part.
    #[cycle(subtypes)]
    #[tactic(auto, using(crate::proofs::SubtypeSplitLemmas::and_split))]
    fn is_below_whole<'a>(&'a self, first: &Head<'a>, bound: &Bound<'a>, second: &Head<'a>) -> bool
        requires first { IsDeclared self.now first.now }
        requires second { IsDeclared self.now second.now }
        ensures { IsTrue result ↔ IsSubtype (head_type self.now (given_by bound.now) first.now) (head_type self.now [] second.now) }
    {
        match second {
            Head::EachOf(parts) => self.is_below_each(first, bound, parts),
            _ => self.is_below_either(first, bound, second),
        }
    }

    // The same, by the second type or by the first.
    #[cycle(subtypes)]
    #[tactic(auto, using(crate::proofs::SubtypeWayLemmas::either, crate::proofs::SubtypeWayLemmas::by_second_derived))]
    fn is_below_either<'a>(&'a self, first: &Head<'a>, bound: &Bound<'a>, second: &Head<'a>) -> bool
        requires first { IsDeclared self.now first.now }
        requires second { IsDeclared self.now second.now }
        ensures { IsTrue result ↔ IsSubtype (head_type self.now (given_by bound.now) first.now) (head_type self.now [] second.now) }
    {
        if self.by_second(first, bound, second) {
            return true;
        }
        self.by_first(first, bound, second)
    }

    // Whether each part of the first is a subtype.
    #[cycle(subtypes)]
    fn each_is_below<'a>(
        &'a self,
        parts: &'a [TypeArg],
        bound: &Bound<'a>,
        second: &Head<'a>,
    ) -> bool
        requires { IsDeclared self.now second.now }
        ensures { IsTrue result ↔ EachBelow (expand_parts self.now (own_type self.now) (given_by bound.now) (trees_of parts.now)) (head_type self.now [] second.now) }
    {
        match parts {
            [] => true,
            [TypeArg::Spec(part), more @ ..] => {
                self.spec_is_below(part, bound, second) && self.each_is_below(more, bound, second)
            }
            [_, more @ ..] => self.each_is_below(more, bound, second),
        }
    }

    // Whether some part of the first is a subtype.
    #[cycle(subtypes)]
    fn some_is_below<'a>(
        &'a self,
        parts: &'a [TypeArg],
        bound: &Bound<'a>,
        second: &Head<'a>,
    ) -> bool
        requires { IsDeclared self.now second.now }
        ensures { IsTrue result ↔ SomeBelow (expand_parts self.now (own_type self.now) (given_by bound.now) (trees_of parts.now)) (head_type self.now [] second.now) }
    {
        match parts {
            [] => false,
            [TypeArg::Spec(part), more @ ..] => {
                self.spec_is_below(part, bound, second) || self.some_is_below(more, bound, second)
            }
            [_, more @ ..] => self.some_is_below(more, bound, second),
        }
    }

    // Whether the first is a subtype of each part of the second.
    #[cycle(subtypes)]
    fn is_below_each<'a>(
        &'a self,
        first: &Head<'a>,
        bound: &Bound<'a>,
        parts: &'a [TypeArg],
    ) -> bool
        requires { IsDeclared self.now first.now }
        ensures { IsTrue result ↔ BelowEach (head_type self.now (given_by bound.now) first.now) (expand_parts self.now (own_type self.now) [] (trees_of parts.now)) }
    {
        match parts {
            [] => true,
            [TypeArg::Spec(part), more @ ..] => {
                self.is_below_spec(first, bound, part) && self.is_below_each(first, bound, more)
            }
            [_, more @ ..] => self.is_below_each(first, bound, more),
        }
    }

    // By the parts of the first type, or by what it inherits from.
    #[cycle(subtypes)]
    fn by_first<'a>(&'a self, first: &Head<'a>, bound: &Bound<'a>, second: &Head<'a>) -> bool
        requires first { IsDeclared self.now first.now }
        requires second { IsDeclared self.now second.now }
        ensures { IsTrue result ↔ ByFirst (head_type self.now (given_by bound.now) first.now) (head_type self.now [] second.now) }
    {
        match first {
            Head::Nothing => true,
            Head::SomeOf(parts) => self.each_is_below(parts, bound, second),
            Head::EachOf(parts) => self.some_is_below(parts, bound, second),
            Head::Host(_, low, high) => {
                self.is_below(&Head::Integer(Some(*low), Some(*high)), bound, second)
            }
            Head::User(_, args, user) => {
                let inner = Bound::Given(&user.parameters, args, &*bound);
                (&*self).spec_is_below(&user.inherit_from, &inner, &*second)
            }
            _ => false,
        }
    }

    // By the second type: down to a type of the same kind, or to an `and`. What the first type inherits from, and its parts,
    // are compared with the whole second type, and not again with each part of it.
    #[cycle(subtypes)]
    fn by_second<'a>(&'a self, first: &Head<'a>, bound: &Bound<'a>, second: &Head<'a>) -> bool
        requires first { IsDeclared self.now first.now }
        requires second { IsDeclared self.now second.now }
        ensures { IsTrue result ↔ BySecond (head_type self.now (given_by bound.now) first.now) (head_type self.now [] second.now) }
    {
        match second {
            Head::Everything => true,
            Head::SomeOf(parts) => self.by_some_second(first, bound, parts),
            Head::EachOf(parts) => self.is_below_each(first, bound, parts),
            Head::NullOr(part) => {
                self.by_heads(first, bound, second) || self.by_second_spec(first, bound, part)
            }
            Head::TokenOr(_, part) => {
                self.by_heads(first, bound, second) || self.by_second_spec(first, bound, part)
            }
            _ => self.by_heads(first, bound, second),
        }
    }

    // The same for the second as a specifier. Where that is a declared type of another name, it is not looked up.
    #[cycle(subtypes)]
    fn by_second_spec<'a>(
        &'a self,
        first: &Head<'a>,
        bound: &Bound<'a>,
        second: &'a TypeSpec,
    ) -> bool
        requires { IsDeclared self.now first.now }
        ensures { IsTrue result ↔ BySecond (head_type self.now (given_by bound.now) first.now) (expansion self.now [] second.now) }
    {
        if self.is_another(first, second) {
            return false;
        }
        self.by_second(first, bound, &self.head_of(second, &Bound::Nothing))
    }

    // By some part of an `or`.
    #[cycle(subtypes)]
    fn by_some_second<'a>(
        &'a self,
        first: &Head<'a>,
        bound: &Bound<'a>,
        parts: &'a [TypeArg],
    ) -> bool
        requires { IsDeclared self.now first.now }
        ensures { IsTrue result ↔ BySomeSecond (head_type self.now (given_by bound.now) first.now) (expand_parts self.now (own_type self.now) [] (trees_of parts.now)) }
    {
        match parts {
            [] => false,
            [TypeArg::Spec(part), more @ ..] => {
                self.by_second_spec(first, bound, part) || self.by_some_second(first, bound, more)
            }
            [_, more @ ..] => self.by_some_second(first, bound, more),
        }
    }

    // Two types of one kind, by their arguments.
    #[cycle(subtypes)]
    fn by_heads<'a>(&'a self, first: &Head<'a>, bound: &Bound<'a>, second: &Head<'a>) -> bool
        requires first { IsDeclared self.now first.now }
        requires second { IsDeclared self.now second.now }
        ensures { IsTrue result ↔ ByHeads (head_type self.now (given_by bound.now) first.now) (head_type self.now [] second.now) }
    {
        let inner = self.inner_is_below(first, bound, second);
        self.heads_meet(first, bound, second, inner)
    }

    // The types inside two of one kind; no where they are not of one kind, or have none inside.
    #[cycle(subtypes)]
    fn inner_is_below<'a>(&'a self, first: &Head<'a>, bound: &Bound<'a>, second: &Head<'a>) -> bool
        ensures { InnerAgrees (head_type self.now (given_by bound.now) first.now) (head_type self.now [] second.now) result }
    {
        match (first, second) {
            (Head::Sequence(part), Head::Sequence(other)) => self.is_subtype(part, bound, other),
            (Head::NullOr(part), Head::NullOr(other)) => self.is_subtype(part, bound, other),
            (Head::TokenOr(_, part), Head::TokenOr(_, other)) => {
                self.is_subtype(part, bound, other)
            }
            _ => false,
        }
    }
}
