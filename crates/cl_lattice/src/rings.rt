//! Rings of user types.
ghost use Rattle.std.specs.Prelude.{◌≡◌, ◌↔◌, ◌++◌, IfOk, IsTrue, OnOk, Some, option_map};
ghost use Rattle.cl_lattice.specs.Arguments.{trees_of};
ghost use Rattle.cl_lattice.specs.Firsts.{IsFirst, StandsOnRing, offset_of};
ghost use Rattle.cl_lattice.specs.RingSearch.{inherited, inherited_at, with_mention, with_mentions};
ghost use Rattle.cl_lattice.specs.Rings.{IsOnRing, names_in, names_in_all, names_in_arg};
ghost use Rattle.cl_syntax.specs.TypeSpec.{arg_tree_of};

use crate::known_types::KnownTypes;
use crate::sizes::fits;
use cl_syntax::{TypeArg, TypeSpec, UserTypes};
use cl_table::{Declared, Names, Table};
use cl_value::Text;
use std::alloc::{AllocError, Global};

/// A user type that is mentioned.
#[derive(Drop)]
struct Mentioned {
    name: Text,
}

impl Declared for Mentioned {
    ghost own_name = { λ m. m.name };

    fn name(&self) -> &Text {
        &self.name
    }
}

/// The offset of the first declaration of a user type on a ring.
pub(crate) fn first_on_ring<'a>(
    alloc: Global,
    known: &KnownTypes<'a>,
    types: &UserTypes,
) -> Result<Option<u32>, AllocError>
    ensures { IfOk result (IsFirst (StandsOnRing known.now) offset_of types.now) }
{
    for place in 0..types.len() {
        let Some(decl) = types.at(place) else {
            unreachable!()
        };
        if is_on_ring(alloc, known, decl.name.as_slice())? {
            return Ok(Some(decl.at));
        }
    }
    Ok(None)
}

// Whether a name is one of a user type that stands on a ring. A type that is within the limits is on none.
fn is_on_ring<'a>(alloc: Global, known: &KnownTypes<'a>, name: &[u8]) -> Result<bool, AllocError>
    ensures { IfOk result (λ b. IsTrue b ↔ IsOnRing known.now name.now) }
{
    match known.inherited(name) {
        Some(spec) => {
            if fits(known, spec) {
                Ok(false)
            } else {
                reaches(alloc, known, name, spec)
            }
        }
        None => Ok(false),
    }
}

// Whether a user type reaches itself, by what it inherits from.
fn reaches<'a>(
    alloc: Global,
    known: &KnownTypes<'a>,
    name: &[u8],
    spec: &TypeSpec,
) -> Result<bool, AllocError>
    requires { inherited known.now name.now ≡ Some spec.now }
    ensures { IfOk result (λ b. IsTrue b ↔ IsOnRing known.now name.now) }
{
    let mut found = Table::new(alloc);
    let mut place = 0;
    add_mentions(alloc, known, spec, &mut found)?;
    while place < found.len() {
        let Some(more) = inherited_at(known, &found, place) else {
            unreachable!()
        };
        add_mentions(alloc, known, more, &mut found)?;
        place += 1;
    }
    Ok(found.get(name).is_some())
}

// What the user type that was found at a place inherits from.
fn inherited_at<'b, 'a>(
    known: &'b KnownTypes<'a>,
    found: &Table<Mentioned>,
    place: usize,
) -> Option<&'b TypeSpec>
    ensures { option_map (λ s. s.now) result ≡ inherited_at known.now found.now place }
{
    match found.at(place) {
        Some(mentioned) => known.inherited(mentioned.name.as_slice()),
        None => None,
    }
}

// Adds the user types that a specifier mentions.
fn add_mentions<'a>(
    alloc: Global,
    known: &KnownTypes<'a>,
    spec: &TypeSpec,
    found: &mut Table<Mentioned>,
) -> Result<(), AllocError>
    ensures { OnOk result (found.new ≡ with_mentions known.now (names_in spec.now) found.old) }
{
    let mut names = Names::new(alloc);
    add_names(spec, &mut names)?;
    for name in names.as_slice() {
        add_mention(known, name, found)?;
    }
    Ok(())
}

fn add_mention<'a>(
    known: &KnownTypes<'a>,
    name: &Text,
    found: &mut Table<Mentioned>,
) -> Result<(), AllocError>
    ensures { OnOk result (found.new ≡ with_mention known.now name.now found.old) }
{
    if known.inherited(name.as_slice()).is_none() {
        return Ok(());
    }
    found.add_first(Mentioned { name: name.copy()? })
}

// Adds the names of types in a specifier.
#[cycle(add_names)]
fn add_names(spec: &TypeSpec, names: &mut Names) -> Result<(), AllocError>
    ensures { OnOk result (names.new ≡ names.old ++ names_in spec.now) }
{
    names.push(spec.name.text().copy()?)?;
    add_names_all(spec.args.as_slice(), names)
}

#[cycle(add_names)]
#[tactic(auto, using(crate::proofs::RingParts::arg_nodes))]
fn add_names_all(args: &[TypeArg], names: &mut Names) -> Result<(), AllocError>
    ensures { OnOk result (names.new ≡ names.old ++ names_in_all (trees_of args.now)) }
{
    for arg in args {
        add_names_arg(arg, names)?;
    }
    Ok(())
}

#[cycle(add_names)]
fn add_names_arg(arg: &TypeArg, names: &mut Names) -> Result<(), AllocError>
    ensures { OnOk result (names.new ≡ names.old ++ names_in_arg (arg_tree_of arg.now)) }
{
    match arg {
        TypeArg::Constant(_) => Ok(()),
        TypeArg::Any => Ok(()),
        TypeArg::Param(_) => Ok(()),
        TypeArg::Spec(spec) => add_names(spec, names),
        TypeArg::Names(_) => Ok(()),
    }
}
