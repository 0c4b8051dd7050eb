//! The precedence lists of types.
ghost use Rattle.std.specs.Prelude.{◌≡◌, ◌++◌, ◌∷◌, [], codes, IfOk, OnOk, map};
ghost use Rattle.cl_lattice.specs.Arguments.{trees_of};
ghost use Rattle.cl_lattice.specs.Listing.{IsListed, built_names, declared_name, interaction_names, or_names, plain_names, with_list, with_lists};
ghost use Rattle.cl_lattice.specs.Members.{is_token};
ghost use Rattle.cl_lattice.specs.Precedence.{behind_own, last_kept, listed, part_name, part_names, precedence, precedence_by, precedence_within, standard_precedence, supertypes};
ghost use Rattle.cl_lattice.specs.World.{kind_named};
ghost use Rattle.cl_syntax.specs.StandardTypes.{standard_named};
ghost use Rattle.cl_syntax.specs.TypeSpec.{arg_tree_of};

use crate::declared_types::{DeclaredTypes, TypeKind};
use crate::known_types::KnownTypes;
use crate::lattices::{Precedence, Precedences};
use cl_syntax::{StandardType, TypeArg, TypeSpec, standard_named};
use cl_table::{Names, Table};
use cl_value::Text;
use std::alloc::{AllocError, Global};

/// Through how many types one inside another a list is followed. No type within the limits inherits through more.
const MOST_LEVELS: u32 = 9;

// The precedence list of a type; `None` where no such type is.
#[tactic(auto, unfolding(crate::specs::Precedence::precedence))]
fn precedence<'a>(
    alloc: Global,
    known: &KnownTypes<'a>,
    name: &Text,
) -> Result<Option<Names>, AllocError>
    ensures { IfOk result (λ p. p ≡ precedence known.now name.now) }
{
    precedence_within(alloc, known, MOST_LEVELS, name)
}

#[cycle(precedence)]
#[tactic(auto, using(crate::proofs::PrecedenceLemmas::within_by))]
fn precedence_within<'a>(
    alloc: Global,
    known: &KnownTypes<'a>,
    levels: u32,
    name: &Text,
) -> Result<Option<Names>, AllocError>
    ensures { IfOk result (λ p. p ≡ precedence_within levels known.now name.now) }
{
    if levels == 0 {
        return Ok(None);
    }
    let standard = standard_named(name.as_slice());
    precedence_by(alloc, known, levels - 1, standard, name)
}

// The precedence list of a name whose standard type is known.
#[cycle(precedence)]
fn precedence_by<'a>(
    alloc: Global,
    known: &KnownTypes<'a>,
    levels: u32,
    standard: Option<StandardType>,
    name: &Text,
) -> Result<Option<Names>, AllocError>
    ensures { IfOk result (λ p. p
        ≡ precedence_by (precedence_within levels known.now) standard (kind_named name.now known.now) name.now) }
{
    match standard {
        Some(_) => Ok(Some(standard_precedence(alloc, name)?)),
        None => match known.kind(name.as_slice()) {
            Some(TypeKind::Record) => Ok(Some(record_precedence(alloc, name)?)),
            Some(TypeKind::Host(_, _)) => Ok(Some(host_precedence(alloc, name)?)),
            Some(TypeKind::User(user)) => {
                let supers = supertypes(alloc, &user.inherit_from)?;
                Ok(Some(behind_own(alloc, known, levels, name, &supers)?))
            }
            None => Ok(None),
        },
    }
}

// The own name of a type, and the lists of its direct supertypes, each name at its last occurrence.
#[cycle(precedence)]
fn behind_own<'a>(
    alloc: Global,
    known: &KnownTypes<'a>,
    levels: u32,
    name: &Text,
    supers: &Names,
) -> Result<Names, AllocError>
    ensures { IfOk result (λ p. p ≡ behind_own (precedence_within levels known.now) name.now supers.now) }
{
    let mut all = Names::new(alloc);
    all.push(name.copy()?)?;
    for supertype in supers.as_slice() {
        add_precedence(alloc, known, levels, supertype, &mut all)?;
    }
    last_kept(alloc, &all)
}

// Adds the precedence list of a supertype, if there is one.
#[cycle(precedence)]
fn add_precedence<'a>(
    alloc: Global,
    known: &KnownTypes<'a>,
    levels: u32,
    name: &Text,
    all: &mut Names,
) -> Result<(), AllocError>
    ensures { OnOk result (all.new ≡ all.old ++ listed (precedence_within levels known.now name.now)) }
{
    match precedence_within(alloc, known, levels, name)? {
        Some(names) => add_names(&names, all),
        None => Ok(()),
    }
}

// Adds names behind the others.
fn add_names(names: &Names, all: &mut Names) -> Result<(), AllocError>
    ensures { OnOk result (all.new ≡ all.old ++ names.now) }
{
    for name in names.as_slice() {
        all.push(name.copy()?)?;
    }
    Ok(())
}

// `t` has itself alone, and each other standard type itself and `t`.
fn standard_precedence(alloc: Global, name: &Text) -> Result<Names, AllocError>
    ensures { IfOk result (λ p. p ≡ standard_precedence name.now) }
{
    if name.as_slice() == b"t".as_slice() {
        let mut names = Names::new(alloc);
        names.push(name.copy()?)?;
        Ok(names)
    } else {
        record_precedence(alloc, name)
    }
}

// A name and `t`.
fn record_precedence(alloc: Global, name: &Text) -> Result<Names, AllocError>
    ensures { IfOk result (λ p. p ≡ name.now ∷ codes "t" ∷ []) }
{
    let mut names = Names::new(alloc);
    names.push(name.copy()?)?;
    names.push(Text::from_slice(alloc, b"t".as_slice())?)?;
    Ok(names)
}

// A name, `integer` and `t`.
fn host_precedence(alloc: Global, name: &Text) -> Result<Names, AllocError>
    ensures { IfOk result (λ p. p ≡ name.now ∷ codes "integer" ∷ codes "t" ∷ []) }
{
    let mut names = Names::new(alloc);
    names.push(name.copy()?)?;
    names.push(Text::from_slice(alloc, b"integer".as_slice())?)?;
    names.push(Text::from_slice(alloc, b"t".as_slice())?)?;
    Ok(names)
}

// The names of the direct supertypes: the parts of an `and`, or the specifier itself.
fn supertypes(alloc: Global, spec: &TypeSpec) -> Result<Names, AllocError>
    ensures { IfOk result (λ n. n ≡ supertypes spec.now) }
{
    if spec.name.as_slice() == b"and".as_slice() {
        return part_names(alloc, spec.args.as_slice());
    }
    let mut names = Names::new(alloc);
    names.push(spec.name.text().copy()?)?;
    Ok(names)
}

// The names of the specifiers among arguments.
fn part_names(alloc: Global, args: &[TypeArg]) -> Result<Names, AllocError>
    ensures { IfOk result (λ n. n ≡ part_names (trees_of args.now)) }
{
    let mut names = Names::new(alloc);
    for arg in args {
        add_part_name(arg, &mut names)?;
    }
    Ok(names)
}

fn add_part_name(arg: &TypeArg, names: &mut Names) -> Result<(), AllocError>
    ensures { OnOk result (names.new ≡ names.old ++ part_name (arg_tree_of arg.now)) }
{
    match arg {
        TypeArg::Constant(_) => Ok(()),
        TypeArg::Any => Ok(()),
        TypeArg::Param(_) => Ok(()),
        TypeArg::Spec(spec) => {
            names.push(spec.name.text().copy()?)?;
            Ok(())
        }
        TypeArg::Names(_) => Ok(()),
    }
}

/// A table with the precedence list of each name.
pub(crate) fn precedences<'a>(
    alloc: Global,
    known: &KnownTypes<'a>,
) -> Result<Precedences, AllocError>
    ensures { IfOk result (IsListed known.now) }
{
    let mut table = Table::new(alloc);
    add_plain(alloc, known, &mut table)?;
    add_built(alloc, known, &mut table)?;
    add_or_types(alloc, known, &mut table)?;
    add_declared(alloc, known, &known.types, &mut table)?;
    known.types.is_table();
    Ok(table)
}

// Adds the lists of the declared types.
fn add_declared<'a>(
    alloc: Global,
    known: &KnownTypes<'a>,
    types: &DeclaredTypes,
    table: &mut Precedences,
) -> Result<(), AllocError>
    ensures { OnOk result (table.new ≡ with_lists known.now (map declared_name types.now) table.old) }
{
    for place in 0..types.len() {
        let Some(declared) = types.at(place) else {
            unreachable!()
        };
        add_list(alloc, known, &declared.name, table)?;
    }
    Ok(())
}

// Adds the lists of the standard types without parts or constants.
fn add_plain<'a>(
    alloc: Global,
    known: &KnownTypes<'a>,
    table: &mut Precedences,
) -> Result<(), AllocError>
    ensures { OnOk result (table.new ≡ with_lists known.now plain_names table.old) }
{
    add_standard(alloc, known, b"t".as_slice(), table)?;
    add_standard(alloc, known, b"nil".as_slice(), table)?;
    add_standard(alloc, known, b"boolean".as_slice(), table)?;
    add_standard(alloc, known, b"integer".as_slice(), table)?;
    add_standard(alloc, known, b"string".as_slice(), table)?;
    add_standard(alloc, known, b"symbol".as_slice(), table)?;
    add_interactions(alloc, known, table)
}

// Adds the lists of the standard types of what a user points at, asks for and chooses.
fn add_interactions<'a>(
    alloc: Global,
    known: &KnownTypes<'a>,
    table: &mut Precedences,
) -> Result<(), AllocError>
    ensures { OnOk result (table.new ≡ with_lists known.now interaction_names table.old) }
{
    add_standard(alloc, known, b"blank-area".as_slice(), table)?;
    add_standard(alloc, known, b"command".as_slice(), table)?;
    add_standard(alloc, known, b"dialog-choice".as_slice(), table)
}

// Adds the lists of the standard types that are made of constants or of other types.
fn add_built<'a>(
    alloc: Global,
    known: &KnownTypes<'a>,
    table: &mut Precedences,
) -> Result<(), AllocError>
    ensures { OnOk result (table.new ≡ with_lists known.now built_names table.old) }
{
    add_standard(alloc, known, b"member".as_slice(), table)?;
    add_standard(alloc, known, b"subset".as_slice(), table)?;
    add_standard(alloc, known, b"sequence".as_slice(), table)?;
    add_standard(alloc, known, b"or".as_slice(), table)?;
    add_standard(alloc, known, b"and".as_slice(), table)
}

// Adds the lists of those that are made of a type with null or with tokens beside it.
fn add_or_types<'a>(
    alloc: Global,
    known: &KnownTypes<'a>,
    table: &mut Precedences,
) -> Result<(), AllocError>
    ensures { OnOk result (table.new ≡ with_lists known.now or_names table.old) }
{
    add_standard(alloc, known, b"null-or-type".as_slice(), table)?;
    add_standard(alloc, known, b"token-or-type".as_slice(), table)
}

fn add_standard<'a>(
    alloc: Global,
    known: &KnownTypes<'a>,
    name: &[u8],
    table: &mut Precedences,
) -> Result<(), AllocError>
    ensures { OnOk result (table.new ≡ with_list known.now table.old name.now) }
{
    let name = Text::from_slice(alloc, name)?;
    add_list(alloc, known, &name, table)
}

// Adds the list of a name, if no list of it is there.
fn add_list<'a>(
    alloc: Global,
    known: &KnownTypes<'a>,
    name: &Text,
    table: &mut Precedences,
) -> Result<(), AllocError>
    ensures { OnOk result (table.new ≡ with_list known.now table.old name.now) }
{
    match precedence(alloc, known, name)? {
        Some(names) => table.add_first(Precedence {
            name: name.copy()?,
            names,
        }),
        None => Ok(()),
    }
}

// Each name at its last occurrence.
fn last_kept(alloc: Global, names: &Names) -> Result<Names, AllocError>
    ensures { IfOk result (λ n. n ≡ last_kept names.now) }
{
    let mut kept = Names::new(alloc);
    let mut rest = names.as_slice();
    while let Some((first, more)) = rest.split_first() {
        keep_last(first, more, &mut kept)?;
        rest = more;
    }
    Ok(kept)
}

// Adds a name that does not come again.
fn keep_last(name: &Text, rest: &[Text], kept: &mut Names) -> Result<(), AllocError>
    ensures { OnOk result (kept.new ++ last_kept rest.now ≡ kept.old ++ last_kept (name.now ∷ rest.now)) }
{
    if has_name(rest, name.as_slice()) {
        return Ok(());
    }
    kept.push(name.copy()?)?;
    Ok(())
}

// Whether a name is one of these.
fn has_name(names: &[Text], name: &[u8]) -> bool
    ensures { result ≡ is_token names.now name.now }
{
    for other in names {
        if other.as_slice() == name {
            return true;
        }
    }
    false
}
