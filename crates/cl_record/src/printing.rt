//! The lines of a history.
ghost use Rattle.std.specs.Prelude.{◌≡◌, ◌++◌, ◌∷◌, [], IfOk, OnOk};
ghost use Rattle.cl_region.specs.Places.{IsInRange, move_rect};
ghost use Rattle.cl_record.specs.Lines.{head_line, label_line};
ghost use Rattle.cl_record.specs.Ranges.{ArePlaced, IsPlaced};
ghost use Rattle.cl_record.specs.Seen.{tree_of};
ghost use Rattle.cl_record.specs.TreeLines.{row_lines, tree_lines};
ghost use Rattle.cl_record.specs.Trees.{trees_of};

use crate::heads::Head;
use crate::labels::Label;
use crate::lines::{Printable, put_head, put_label};
use crate::nodes::{Node, Nodes};
use crate::shifts::join_shifts;
use cl_region::Shift;
use cl_value::Text;
use std::alloc::{AllocError, Global};

// Puts the lines of a record that stands moved, each behind a margin, behind the others.
#[cycle(print)]
fn print_node<L: Printable>(
    alloc: Global,
    node: &Node<L>,
    at: Shift,
    margin: &[u8],
    out: &mut Vec<Text>,
) -> Result<(), AllocError>
    requires { IsPlaced L.bounds L.moved_by at (tree_of node.now) }
    ensures { OnOk result (out.new.items
        ≡ out.old.items ++ tree_lines L.line_of L.moved_by margin.now at (tree_of node.now)) }
{
    match node {
        Node::Leaf(leaf) => print_item(alloc, leaf, at, margin, out)?,
        Node::Presentation(presented) => {
            print_label(alloc, presented.label(), margin, out)?;
            let deeper = deeper(alloc, margin)?;
            let at = join_shifts(presented.place(), at);
            print_inside(alloc, presented.inside(), at, deeper.as_slice(), out)?
        }
        Node::Update(piece) => {
            print_head(alloc, piece.head(), margin, out)?;
            let deeper = deeper(alloc, margin)?;
            let at = join_shifts(piece.place(), at);
            print_inside(alloc, piece.inside(), at, deeper.as_slice(), out)?
        }
    }
    Ok(())
}

// The same of what a branch holds.
#[cycle(print)]
pub(crate) fn print_inside<L: Printable>(
    alloc: Global,
    inside: &Nodes<L>,
    at: Shift,
    margin: &[u8],
    out: &mut Vec<Text>,
) -> Result<(), AllocError>
    requires { ArePlaced L.bounds L.moved_by at (trees_of inside.now) }
    ensures { OnOk result (out.new.items
        ≡ out.old.items
        ++ row_lines L.line_of L.moved_by margin.now at (trees_of inside.now)) }
{
    for node in inside.as_slice() {
        print_node(alloc, node, at, margin, out)?;
    }
    Ok(())
}

// The margin of the next level.
fn deeper(alloc: Global, margin: &[u8]) -> Result<Vec<u8>, AllocError>
    ensures { IfOk result (λ bytes. bytes.items ≡ margin.now ++ 32 ∷ 32 ∷ []) }
{
    let mut bytes = Vec::from_slice(alloc, margin)?;
    bytes.extend_from_slice(b"  ")?;
    Ok(bytes)
}

fn print_item<L: Printable>(
    alloc: Global,
    leaf: &L,
    at: Shift,
    margin: &[u8],
    out: &mut Vec<Text>,
) -> Result<(), AllocError>
    requires { IsInRange (move_rect at (L.bounds leaf.now)) }
    ensures { OnOk result
        (out.new.items ≡ out.old.items ++ (margin.now ++ L.line_of (L.moved_by at leaf.now)) ∷ []) }
{
    let mut line = Vec::from_slice(alloc, margin)?;
    leaf.put_line(at, &mut line)?;
    out.push(Text::from_vec(alloc, line)?)?;
    Ok(())
}

fn print_label(
    alloc: Global,
    label: &Label,
    margin: &[u8],
    out: &mut Vec<Text>,
) -> Result<(), AllocError>
    ensures { OnOk result
        (out.new.items ≡ out.old.items ++ (margin.now ++ label_line label.now) ∷ []) }
{
    let mut line = Vec::from_slice(alloc, margin)?;
    put_label(&mut line, label)?;
    out.push(Text::from_vec(alloc, line)?)?;
    Ok(())
}

fn print_head(
    alloc: Global,
    head: &Head,
    margin: &[u8],
    out: &mut Vec<Text>,
) -> Result<(), AllocError>
    ensures { OnOk result
        (out.new.items ≡ out.old.items ++ (margin.now ++ head_line head.now) ∷ []) }
{
    let mut line = Vec::from_slice(alloc, margin)?;
    put_head(&mut line, head)?;
    out.push(Text::from_vec(alloc, line)?)?;
    Ok(())
}
