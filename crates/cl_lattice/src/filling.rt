//! Subtypes of all parts of a second type at once, so that no pair of parts is compared twice.
ghost use Rattle.std.specs.Prelude.{◌≡◌, ◌↔◌, [], ◌∷◌, ◌++◌, IfSome, IsTrue, false, length, true};
ghost use Rattle.cl_lattice.specs.Arguments.{given_by, tokens_in, trees_of};
ghost use Rattle.cl_lattice.specs.Expanded.{each_of, null_or, sequence, some_of, token_or};
ghost use Rattle.cl_lattice.specs.Expansion.{expand_parts, expansion, own_type};
ghost use Rattle.cl_lattice.specs.SubtypeHeads.{IsDeclared, head_type};
ghost use Rattle.cl_lattice.specs.SubtypeRows.{Fills, FillsEach, FillsSome, InnerAgrees, KnownTells, is_alone, parts_of, parts_of_all, row_of};
ghost use Rattle.cl_lattice.specs.SubtypeWays.{ByHeads};

use crate::arguments::Bound;
use crate::heads::Head;
use crate::lattices::Lattice;
use crate::rows::{Answers, Row, and, answer_before, count, or, put};
use cl_syntax::{StandardType, TypeArg, TypeSpec};

/// What is known of all parts of a second type: of the parts of the first, or what it inherits from, and of the type inside it.
#[derive(Drop)]
pub(crate) struct Known<'b> {
    pub(crate) firsts: &'b Row,
    pub(crate) inner: &'b [bool],
}

impl Lattice {
    // Puts an answer for each part of the second type behind the others, and gives the one for the whole; `None` where there is no room.
    // A declared type of another name is its own only part, and nothing is looked up.
    #[cycle(filling)]
    #[inline(always)]
    pub(crate) fn fill<'a>(
        &'a self,
        first: &Head<'a>,
        bound: &Bound<'a>,
        second: &'a TypeSpec,
        known: &Known<'_>,
        out: &mut Answers,
    ) -> Option<bool>
        requires declared { IsDeclared self.now first.now }
        requires known { KnownTells (head_type self.now (given_by bound.now) first.now) (parts_of (expansion self.now [] second.now)) (length out.old.items) (row_of known.now.firsts.now) known.now.inner.now }
        ensures { IfSome result (λ r. Fills (head_type self.now (given_by bound.now) first.now) (expansion self.now [] second.now) out.old.items out.new.items r) }
    {
        if self.is_another(first, second) {
            return put(out, known.firsts.at(count(out)));
        }
        self.fill_named(first, bound, second, known, out)
    }

    // The same where the second has the first's name or is a standard type. The first's own record, an `or` and an `and` are told
    // before a head is made.
    #[cycle(filling)]
    #[inline(never)]
    fn fill_named<'a>(
        &'a self,
        first: &Head<'a>,
        bound: &Bound<'a>,
        second: &'a TypeSpec,
        known: &Known<'_>,
        out: &mut Answers,
    ) -> Option<bool>
        requires declared { IsDeclared self.now first.now }
        requires known { KnownTells (head_type self.now (given_by bound.now) first.now) (parts_of (expansion self.now [] second.now))
            (length out.old.items) (row_of known.now.firsts.now) known.now.inner.now }
        ensures { IfSome result (λ r. Fills (head_type self.now (given_by bound.now) first.now) (expansion self.now [] second.now) out.old.items out.new.items r) }
    {
        if self.is_same_record(first, second) {
            return put(out, true);
        }
        let args = second.args.as_slice();
        match second.name.standard() {
            Some(StandardType::Or) => self.fill_or(first, bound, args, known, out),
            Some(StandardType::And) => self.fill_and(first, bound, args, known, out),
            _ => self.fill_head(
                first,
                bound,
                &self.head_of(second, &Bound::Nothing),
                known,
                out,
            ),
        }
    }

    // The same for the second by its head.
    #[cycle(filling)]
    fn fill_head<'a>(
        &'a self,
        first: &Head<'a>,
        bound: &Bound<'a>,
        second: &Head<'a>,
        known: &Known<'_>,
        out: &mut Answers,
    ) -> Option<bool>
        requires declared { IsDeclared self.now first.now }
        requires second { IsDeclared self.now second.now }
        requires known { KnownTells (head_type self.now (given_by bound.now) first.now) (parts_of (head_type self.now [] second.now)) (length out.old.items) (row_of known.now.firsts.now) known.now.inner.now }
        ensures { IfSome result (λ r. Fills (head_type self.now (given_by bound.now) first.now) (head_type self.now [] second.now) out.old.items out.new.items r) }
    {
        match second {
            Head::SomeOf(parts) => self.fill_or(first, bound, parts, known, out),
            Head::EachOf(parts) => self.fill_and(first, bound, parts, known, out),
            Head::Sequence(part) => self.fill_sequence(first, bound, part, known, out),
            Head::NullOr(part) => self.fill_null(first, bound, part, known, out),
            Head::TokenOr(args, part) => self.fill_token(first, bound, args, part, known, out),
            Head::Everything => put(out, true),
            Head::Nothing => self.fill_alone(first, bound, second, known, out),
            Head::Boolean => self.fill_alone(first, bound, second, known, out),
            Head::Symbols => self.fill_alone(first, bound, second, known, out),
            Head::BlankArea => self.fill_alone(first, bound, second, known, out),
            Head::Command => self.fill_alone(first, bound, second, known, out),
            Head::DialogChoice => self.fill_alone(first, bound, second, known, out),
            Head::Integer(_, _) => self.fill_alone(first, bound, second, known, out),
            Head::Text(_) => self.fill_alone(first, bound, second, known, out),
            Head::Member(_) => self.fill_alone(first, bound, second, known, out),
            Head::Subset(_) => self.fill_alone(first, bound, second, known, out),
            Head::Record(_) => self.fill_alone(first, bound, second, known, out),
            Head::Host(_, _, _) => self.fill_alone(first, bound, second, known, out),
            Head::User(_, _, _) => self.fill_alone(first, bound, second, known, out),
            Head::Unknown(_, _) => self.fill_alone(first, bound, second, known, out),
        }
    }

    // An `or`.
    #[cycle(filling)]
    fn fill_or<'a>(
        &'a self,
        first: &Head<'a>,
        bound: &Bound<'a>,
        parts: &'a [TypeArg],
        known: &Known<'_>,
        out: &mut Answers,
    ) -> Option<bool>
        requires declared { IsDeclared self.now first.now }
        requires known { KnownTells (head_type self.now (given_by bound.now) first.now) (parts_of (some_of (expand_parts self.now (own_type self.now) [] (trees_of parts.now)))) (length out.old.items) (row_of known.now.firsts.now) known.now.inner.now }
        ensures { IfSome result (λ r. Fills (head_type self.now (given_by bound.now) first.now) (some_of (expand_parts self.now (own_type self.now) [] (trees_of parts.now))) out.old.items out.new.items r) }
    {
        let some = self.fill_some(first, bound, parts, known, out)?;
        let own = known.firsts.at(count(out));
        put(out, or(some, own))
    }

    // An `and`.
    #[cycle(filling)]
    fn fill_and<'a>(
        &'a self,
        first: &Head<'a>,
        bound: &Bound<'a>,
        parts: &'a [TypeArg],
        known: &Known<'_>,
        out: &mut Answers,
    ) -> Option<bool>
        requires declared { IsDeclared self.now first.now }
        requires known { KnownTells (head_type self.now (given_by bound.now) first.now) (parts_of (each_of (expand_parts self.now (own_type self.now) [] (trees_of parts.now)))) (length out.old.items) (row_of known.now.firsts.now) known.now.inner.now }
        ensures { IfSome result (λ r. Fills (head_type self.now (given_by bound.now) first.now) (each_of (expand_parts self.now (own_type self.now) [] (trees_of parts.now))) out.old.items out.new.items r) }
    {
        let each = self.fill_each(first, bound, parts, known, out)?;
        put(out, each)
    }

    // A sequence.
    #[cycle(filling)]
    fn fill_sequence<'a>(
        &'a self,
        first: &Head<'a>,
        bound: &Bound<'a>,
        part: &'a TypeSpec,
        known: &Known<'_>,
        out: &mut Answers,
    ) -> Option<bool>
        requires declared { IsDeclared self.now first.now }
        requires known { KnownTells (head_type self.now (given_by bound.now) first.now) (parts_of (sequence (expansion self.now [] part.now))) (length out.old.items) (row_of known.now.firsts.now) known.now.inner.now }
        ensures { IfSome result (λ r. Fills (head_type self.now (given_by bound.now) first.now) (sequence (expansion self.now [] part.now)) out.old.items out.new.items r) }
    {
        self.fill(first, bound, part, known, out)?;
        let inner = answer_before(known.inner, count(out));
        let heads = self.heads_meet(first, bound, &Head::Sequence(part), inner);
        let own = known.firsts.at(count(out));
        put(out, or(heads, own))
    }

    // A null-or-type.
    #[cycle(filling)]
    fn fill_null<'a>(
        &'a self,
        first: &Head<'a>,
        bound: &Bound<'a>,
        part: &'a TypeSpec,
        known: &Known<'_>,
        out: &mut Answers,
    ) -> Option<bool>
        requires declared { IsDeclared self.now first.now }
        requires known { KnownTells (head_type self.now (given_by bound.now) first.now) (parts_of (null_or (expansion self.now [] part.now))) (length out.old.items) (row_of known.now.firsts.now) known.now.inner.now }
        ensures { IfSome result (λ r. Fills (head_type self.now (given_by bound.now) first.now) (null_or (expansion self.now [] part.now)) out.old.items out.new.items r) }
    {
        let below = self.fill(first, bound, part, known, out)?;
        let inner = answer_before(known.inner, count(out));
        let heads = self.heads_meet(first, bound, &Head::NullOr(part), inner);
        let own = known.firsts.at(count(out));
        put(out, or(or(below, heads), own))
    }

    // A token-or-type.
    #[cycle(filling)]
    fn fill_token<'a>(
        &'a self,
        first: &Head<'a>,
        bound: &Bound<'a>,
        args: &'a [TypeArg],
        part: &'a TypeSpec,
        known: &Known<'_>,
        out: &mut Answers,
    ) -> Option<bool>
        requires declared { IsDeclared self.now first.now }
        requires known { KnownTells (head_type self.now (given_by bound.now) first.now) (parts_of (token_or (tokens_in (trees_of args.now)) (expansion self.now [] part.now))) (length out.old.items) (row_of known.now.firsts.now) known.now.inner.now }
        ensures { IfSome result (λ r. Fills (head_type self.now (given_by bound.now) first.now) (token_or (tokens_in (trees_of args.now)) (expansion self.now [] part.now)) out.old.items out.new.items r) }
    {
        let below = self.fill(first, bound, part, known, out)?;
        let inner = answer_before(known.inner, count(out));
        let heads = self.heads_meet(first, bound, &Head::TokenOr(args, part), inner);
        let own = known.firsts.at(count(out));
        put(out, or(or(below, heads), own))
    }

    // The parts of an `or`.
    #[cycle(filling)]
    fn fill_some<'a>(
        &'a self,
        first: &Head<'a>,
        bound: &Bound<'a>,
        parts: &'a [TypeArg],
        known: &Known<'_>,
        out: &mut Answers,
    ) -> Option<bool>
        requires declared { IsDeclared self.now first.now }
        requires known { KnownTells (head_type self.now (given_by bound.now) first.now) (parts_of_all (expand_parts self.now (own_type self.now) [] (trees_of parts.now))) (length out.old.items) (row_of known.now.firsts.now) known.now.inner.now }
        ensures { IfSome result (λ r. FillsSome (head_type self.now (given_by bound.now) first.now) (expand_parts self.now (own_type self.now) [] (trees_of parts.now))
            out.old.items out.new.items false r) }
    {
        let mut some = false;
        for arg in parts {
            if let TypeArg::Spec(part) = arg {
                some = or(some, self.fill(first, bound, part, known, out)?);
            }
        }
        Some(some)
    }

    // The parts of an `and`.
    #[cycle(filling)]
    fn fill_each<'a>(
        &'a self,
        first: &Head<'a>,
        bound: &Bound<'a>,
        parts: &'a [TypeArg],
        known: &Known<'_>,
        out: &mut Answers,
    ) -> Option<bool>
        requires declared { IsDeclared self.now first.now }
        requires known { KnownTells (head_type self.now (given_by bound.now) first.now) (parts_of_all (expand_parts self.now (own_type self.now) [] (trees_of parts.now))) (length out.old.items) (row_of known.now.firsts.now) known.now.inner.now }
        ensures { IfSome result (λ r. FillsEach (head_type self.now (given_by bound.now) first.now) (expand_parts self.now (own_type self.now) [] (trees_of parts.now))
            out.old.items out.new.items true r) }
    {
        let mut each = true;
        for arg in parts {
            if let TypeArg::Spec(part) = arg {
                each = and(each, self.fill(first, bound, part, known, out)?);
            }
        }
        Some(each)
    }

    // A type that is its own only part.
    fn fill_alone<'a>(
        &'a self,
        first: &Head<'a>,
        bound: &Bound<'a>,
        second: &Head<'a>,
        known: &Known<'_>,
        out: &mut Answers,
    ) -> Option<bool>
        requires declared { IsDeclared self.now first.now }
        requires second { IsDeclared self.now second.now }
        requires alone { is_alone (head_type self.now [] second.now) ≡ true }
        requires known { KnownTells (head_type self.now (given_by bound.now) first.now) (parts_of (head_type self.now [] second.now)) (length out.old.items) (row_of known.now.firsts.now) known.now.inner.now }
        ensures { IfSome result (λ r. Fills (head_type self.now (given_by bound.now) first.now) (head_type self.now [] second.now) out.old.items out.new.items r) }
    {
        let heads = self.heads_meet(first, bound, second, false);
        let own = known.firsts.at(count(out));
        put(out, or(heads, own))
    }
}
