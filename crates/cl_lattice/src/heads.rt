//! Heads of types: the name in a specifier is found, and its parts stay as they are written.
ghost use Rattle.std.specs.Prelude.{◌≡◌, [], option_map, true, IfSome, IsTrue, None, Some};
ghost use Rattle.cl_syntax.specs.StandardTypes.{standard_named};
ghost use Rattle.cl_lattice.specs.Arguments.{Given, given_by, tokens_in, trees_of, values_of};
ghost use Rattle.cl_lattice.specs.Expansion.{declared_type, expand_parts, expansion, of_first, own_type, standard_type};
ghost use Rattle.cl_lattice.specs.Laws.{AllFit};
ghost use Rattle.cl_lattice.specs.Expanded.{sequence, null_or, token_or};
ghost use Rattle.cl_lattice.specs.SubtypeHeads.{IsDeclared, first_part, has_name, head_type};
ghost use Rattle.cl_lattice.specs.SubtypeRows.{HostInherits, is_alone};
ghost use Rattle.cl_lattice.specs.SubtypeWays.{BySecond};
ghost use Rattle.cl_lattice.specs.Subtypes.{IsSubtype};
ghost use Rattle.cl_lattice.specs.World.{World, kind_named};

use crate::arguments::{Bound, first_number, second_number};
use crate::declared_types::{TypeKind, UserType};
use crate::lattices::Lattice;
use cl_syntax::{StandardType, TypeArg, TypeSpec};

/// A type by its head. It borrows all that it holds.
#[derive(Drop)]
pub(crate) enum Head<'a> {
    Everything,
    Nothing,
    Boolean,
    Symbols,
    BlankArea,
    Command,
    DialogChoice,
    /// The least and the greatest number; `None` for no bound.
    Integer(Option<i64>, Option<i64>),
    /// The length in bytes; `None` for any.
    Text(Option<i64>),
    /// The constants among arguments.
    Member(&'a [TypeArg]),
    Subset(&'a [TypeArg]),
    Sequence(&'a TypeSpec),
    /// `or`: the specifiers among arguments.
    SomeOf(&'a [TypeArg]),
    /// `and`: the specifiers among arguments.
    EachOf(&'a [TypeArg]),
    NullOr(&'a TypeSpec),
    /// The tokens among arguments, and the type beside them.
    TokenOr(&'a [TypeArg], &'a TypeSpec),
    Record(&'a [u8]),
    /// A host type, with its least and its greatest number.
    Host(&'a [u8], i64, i64),
    /// A user type with its arguments.
    User(&'a [u8], &'a [TypeArg], &'a UserType),
    /// What has no members, with its arguments.
    Unknown(&'a [u8], &'a [TypeArg]),
}

// The first specifier among arguments.
fn first_part(args: &[TypeArg]) -> Option<&TypeSpec>
    ensures { option_map (λ s. s.now) result ≡ first_part (trees_of args.now) }
{
    match args {
        [] => None,
        [TypeArg::Spec(spec), ..] => Some(spec),
        [_, more @ ..] => first_part(more),
    }
}

// The head of a standard type.
fn standard_head<'a>(
    standard: StandardType,
    name: &'a [u8],
    args: &'a [TypeArg],
    bound: &Bound<'a>,
) -> Head<'a>
    ensures same { (w : World) → head_type w (given_by bound.now) result
        ≡ standard_type standard name.now (values_of (given_by bound.now) (trees_of args.now)) (tokens_in (trees_of args.now))
        (expand_parts w (own_type w) (given_by bound.now) (trees_of args.now)) }
    ensures declared { (w : World) → IsDeclared w result }
{
    match standard {
        StandardType::T => Head::Everything,
        StandardType::Nil => Head::Nothing,
        StandardType::Boolean => Head::Boolean,
        StandardType::Integer => Head::Integer(
            first_number(args, bound),
            second_number(args, bound),
        ),
        StandardType::String => Head::Text(first_number(args, bound)),
        StandardType::Symbol => Head::Symbols,
        StandardType::Member => Head::Member(args),
        StandardType::Subset => Head::Subset(args),
        StandardType::Sequence => sequence_head(name, args),
        StandardType::Or => Head::SomeOf(args),
        StandardType::And => Head::EachOf(args),
        StandardType::NullOrType => null_head(name, args),
        StandardType::TokenOrType => token_head(name, args),
        StandardType::BlankArea => Head::BlankArea,
        StandardType::Command => Head::Command,
        StandardType::DialogChoice => Head::DialogChoice,
    }
}

// The head of a sequence.
#[tactic(auto, using(crate::proofs::SubtypeHeadLemmas::first_made))]
fn sequence_head<'a>(name: &'a [u8], args: &'a [TypeArg]) -> Head<'a>
    ensures same { (w : World) (g : Given) → head_type w g result
        ≡ of_first sequence name.now (values_of g (trees_of args.now))
        (expand_parts w (own_type w) g (trees_of args.now)) }
    ensures declared { (w : World) → IsDeclared w result }
{
    match first_part(args) {
        Some(part) => Head::Sequence(part),
        None => Head::Unknown(name, args),
    }
}

// The head of a null-or-type.
#[tactic(auto, using(crate::proofs::SubtypeHeadLemmas::first_made))]
fn null_head<'a>(name: &'a [u8], args: &'a [TypeArg]) -> Head<'a>
    ensures same { (w : World) (g : Given) → head_type w g result
        ≡ of_first null_or name.now (values_of g (trees_of args.now))
        (expand_parts w (own_type w) g (trees_of args.now)) }
    ensures declared { (w : World) → IsDeclared w result }
{
    match first_part(args) {
        Some(part) => Head::NullOr(part),
        None => Head::Unknown(name, args),
    }
}

// The head of a token-or-type.
#[tactic(auto, using(crate::proofs::SubtypeHeadLemmas::first_made))]
fn token_head<'a>(name: &'a [u8], args: &'a [TypeArg]) -> Head<'a>
    ensures same { (w : World) (g : Given) → head_type w g result
        ≡ of_first (token_or (tokens_in (trees_of args.now))) name.now (values_of g (trees_of args.now))
        (expand_parts w (own_type w) g (trees_of args.now)) }
    ensures declared { (w : World) → IsDeclared w result }
{
    match first_part(args) {
        Some(part) => Head::TokenOr(args, part),
        None => Head::Unknown(name, args),
    }
}

impl Lattice {
    /// The head of a specifier, with what is given for the parameters of the declaration around it.
    pub(crate) fn head_of<'a>(&'a self, spec: &'a TypeSpec, bound: &Bound<'a>) -> Head<'a>
        ensures same { head_type self.now (given_by bound.now) result ≡ expansion self.now (given_by bound.now) spec.now }
        ensures declared { IsDeclared self.now result }
    {
        let args = spec.args.as_slice();
        match spec.name.standard() {
            Some(standard) => standard_head(standard, spec.name.as_slice(), args, bound),
            None => self.declared_head(spec.name.as_slice(), args),
        }
    }

    // The head of a type by a name that is none of a standard type.
    fn declared_head<'a>(&'a self, name: &'a [u8], args: &'a [TypeArg]) -> Head<'a>
        requires { standard_named name.now ≡ None }
        ensures same { (g : Given) → head_type self.now g result
            ≡ declared_type (own_type self.now) (kind_named name.now self.now) name.now (values_of g (trees_of args.now)) }
        ensures declared { IsDeclared self.now result }
    {
        self.all_fit();
        match self.types.get(name) {
            Some(found) => self.kind_head(&found.kind, name, args),
            None => Head::Unknown(name, args),
        }
    }

    // The head of a declared type by its kind.
    #[tactic(auto, using(crate::proofs::SubtypeHeadLemmas::own_head))]
    fn kind_head<'a>(&self, kind: &'a TypeKind, name: &'a [u8], args: &'a [TypeArg]) -> Head<'a>
        requires standard { standard_named name.now ≡ None }
        requires named { kind_named name.now self.now ≡ Some kind.now }
        requires fit { AllFit self.now }
        ensures same { (g : Given) → head_type self.now g result
            ≡ declared_type (own_type self.now) (Some kind.now) name.now (values_of g (trees_of args.now)) }
        ensures declared { IsDeclared self.now result }
    {
        match kind {
            TypeKind::Record => Head::Record(name),
            TypeKind::Host(low, high) => Head::Host(name, *low, *high),
            TypeKind::User(user) => Head::User(name, args, user),
        }
    }
}

impl Head<'_> {
    /// The numbers that a host type inherits from; `None` where this is none.
    pub(crate) fn host_numbers<'b>(&self) -> Option<Head<'b>>
        ensures same { (w : World) (g : Given) → IfSome result (λ h. HostInherits (head_type w g self.now) (head_type w g h)) }
        ensures declared { (w : World) → IfSome result (IsDeclared w) }
    {
        match self {
            Head::Host(_, low, high) => Some(Head::Integer(Some(*low), Some(*high))),
            _ => None,
        }
    }

    // Whether this is a declared type of that name.
    #[inline]
    fn has_name(&self, name: &[u8]) -> bool
        ensures { result ≡ has_name self.now name.now }
    {
        match self {
            Head::Record(own) => name == *own,
            Head::Host(own, _, _) => name == *own,
            Head::User(own, _, _) => name == *own,
            Head::Unknown(own, _) => name == *own,
            _ => false,
        }
    }
}

impl Lattice {
    /// Whether the second is a declared type, and the first is none of that name: it looks no name up.
    #[tactic(auto, using(crate::proofs::SubtypeNameLemmas::another_below, crate::proofs::SubtypeNameLemmas::second_alone))]
    #[inline]
    pub(crate) fn is_another(&self, first: &Head<'_>, second: &TypeSpec) -> bool
        ensures no_way { (g : Given) → IsTrue result → BySecond (head_type self.now g first.now) (expansion self.now [] second.now) → ⊥ }
        ensures alone { IsTrue result → is_alone (expansion self.now [] second.now) ≡ true }
    {
        self.all_fit();
        match second.name.standard() {
            Some(_) => false,
            None => !first.has_name(second.name.as_slice()),
        }
    }

    /// Whether the second is the record that the first is: it looks no name up.
    #[inline]
    #[tactic(auto, using(crate::proofs::SubtypeNameLemmas::record_below, crate::proofs::SubtypeNameLemmas::second_alone))]
    pub(crate) fn is_same_record(&self, first: &Head<'_>, second: &TypeSpec) -> bool
        requires { IsDeclared self.now first.now }
        ensures below { (g : Given) → IsTrue result → IsSubtype (head_type self.now g first.now) (expansion self.now [] second.now) }
        ensures alone { IsTrue result → is_alone (expansion self.now [] second.now) ≡ true }
    {
        self.all_fit();
        match first {
            Head::Record(_) => match second.name.standard() {
                Some(_) => false,
                None => first.has_name(second.name.as_slice()),
            },
            _ => false,
        }
    }
}
