//! Answers for all parts of a second type, from those for the parts of the first: each pair of parts is compared once.
ghost use Rattle.std.specs.Prelude.{◌≡◌, [], IfSome};
ghost use Rattle.cl_lattice.specs.Arguments.{given_by, trees_of};
ghost use Rattle.cl_lattice.specs.Expansion.{expand_parts, expansion, own_type};
ghost use Rattle.cl_lattice.specs.SubtypeHeads.{IsDeclared, head_type};
ghost use Rattle.cl_lattice.specs.SubtypeRows.{InnerTells, RowTells, TellsAll, parts_of, row_of};
ghost use Rattle.cl_lattice.specs.SubtypeWays.{ByFirst, EachBelow, SomeBelow};
ghost use Rattle.cl_lattice.specs.Subtypes.{IsSubtype};

use crate::arguments::{Bound, next_spec};
use crate::filling::Known;
use crate::heads::Head;
use crate::lattices::Lattice;
use crate::rows::{Answers, Row};
use cl_syntax::{TypeArg, TypeSpec};

impl Lattice {
    /// An answer for each part of the second type; `None` where it has more parts than there is room for. The first may hold
    /// parameters of the declaration around it.
    #[cycle(rows)]
    pub(crate) fn row<'a>(
        &'a self,
        first: &'a TypeSpec,
        bound: &Bound<'a>,
        second: &'a TypeSpec,
    ) -> Option<Answers>
        ensures { IfSome result (λ v. TellsAll (IsSubtype (expansion self.now (given_by bound.now) first.now)) (parts_of (expansion self.now [] second.now)) v.items) }
    {
        self.head_row(&self.head_of(first, bound), bound, second)
    }

    // The same for the first by its head. Of an `or` the answers are those where each of its parts has a yes.
    #[cycle(rows)]
    fn head_row<'a>(
        &'a self,
        first: &Head<'a>,
        bound: &Bound<'a>,
        second: &'a TypeSpec,
    ) -> Option<Answers>
        requires { IsDeclared self.now first.now }
        ensures { IfSome result (λ v. TellsAll (IsSubtype (head_type self.now (given_by bound.now) first.now)) (parts_of (expansion self.now [] second.now)) v.items) }
    {
        match (first, self.firsts(first, bound, second)?) {
            (Head::SomeOf(_), Row::Known(answers)) => Some(answers),
            (_, firsts) => self.filled_row(first, bound, second, &firsts),
        }
    }

    // The same with what is known by the parts of the first type, or by what it inherits from.
    #[cycle(rows)]
    fn filled_row<'a>(
        &'a self,
        first: &Head<'a>,
        bound: &Bound<'a>,
        second: &'a TypeSpec,
        firsts: &Row,
    ) -> Option<Answers>
        requires declared { IsDeclared self.now first.now }
        requires firsts { RowTells (ByFirst (head_type self.now (given_by bound.now) first.now)) (parts_of (expansion self.now [] second.now)) (row_of firsts.now) }
        ensures { IfSome result (λ v. TellsAll (IsSubtype (head_type self.now (given_by bound.now) first.now)) (parts_of (expansion self.now [] second.now)) v.items) }
    {
        let inner = self.inner_row(first, bound, second)?;
        let known = Known {
            firsts,
            inner: inner.as_slice(),
        };
        let mut out = Answers::new();
        self.fill(first, bound, second, &known, &mut out)?;
        Some(out)
    }

    // What is known by the parts of the first type, or by what it inherits from.
    #[cycle(rows)]
    fn firsts<'a>(
        &'a self,
        first: &Head<'a>,
        bound: &Bound<'a>,
        second: &'a TypeSpec,
    ) -> Option<Row>
        requires { IsDeclared self.now first.now }
        ensures { IfSome result (λ r. RowTells (ByFirst (head_type self.now (given_by bound.now) first.now)) (parts_of (expansion self.now [] second.now)) (row_of r)) }
    {
        match first {
            Head::Nothing => Some(Row::Always),
            Head::SomeOf(parts) => self.each_row(parts, bound, second),
            Head::EachOf(parts) => self.some_row(parts, bound, second),
            Head::Host(_, _, _) => {
                let numbers = first.host_numbers()?;
                Some(Row::Known(self.head_row(&numbers, bound, second)?))
            }
            Head::User(_, args, user) => {
                let inner = Bound::Given(&user.parameters, args, &*bound);
                Some(Row::Known((&*self).row(&user.inherit_from, &inner, &*second)?))
            }
            _ => Some(Row::Never),
        }
    }

    // The answers for the type inside the first.
    #[cycle(rows)]
    fn inner_row<'a>(
        &'a self,
        first: &Head<'a>,
        bound: &Bound<'a>,
        second: &'a TypeSpec,
    ) -> Option<Answers>
        ensures { IfSome result (λ v. InnerTells (head_type self.now (given_by bound.now) first.now) (parts_of (expansion self.now [] second.now)) v.items) }
    {
        match first {
            Head::Sequence(part) => self.row(part, bound, second),
            Head::NullOr(part) => self.row(part, bound, second),
            Head::TokenOr(_, part) => self.row(part, bound, second),
            _ => Some(Answers::new()),
        }
    }

    // Where each part is a subtype.
    #[cycle(rows)]
    fn each_row<'a>(
        &'a self,
        parts: &'a [TypeArg],
        bound: &Bound<'a>,
        second: &'a TypeSpec,
    ) -> Option<Row>
        ensures { IfSome result (λ r. RowTells (EachBelow (expand_parts self.now (own_type self.now) (given_by bound.now) (trees_of parts.now))) (parts_of (expansion self.now [] second.now)) (row_of r)) }
    {
        match next_spec(parts) {
            Some((part, more)) => {
                let row = self.row(part, bound, second)?;
                let later = self.each_row(more, bound, second)?;
                Row::Known(row).both(later)
            }
            None => Some(Row::Always),
        }
    }

    // Where some part is a subtype.
    #[cycle(rows)]
    fn some_row<'a>(
        &'a self,
        parts: &'a [TypeArg],
        bound: &Bound<'a>,
        second: &'a TypeSpec,
    ) -> Option<Row>
        ensures { IfSome result (λ r. RowTells (SomeBelow (expand_parts self.now (own_type self.now) (given_by bound.now) (trees_of parts.now))) (parts_of (expansion self.now [] second.now)) (row_of r)) }
    {
        match next_spec(parts) {
            Some((part, more)) => {
                let row = self.row(part, bound, second)?;
                let later = self.some_row(more, bound, second)?;
                Row::Known(row).either(later)
            }
            None => Some(Row::Never),
        }
    }
}
