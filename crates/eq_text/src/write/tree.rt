//! The lines of a tree.

ghost use Rattle.std.specs.Prelude.{◌≡◌, ◌++◌, ◌∷◌, [], OnOk, length, codes};
ghost use Rattle.std.specs.List.{concat, flat_map};
ghost use Rattle.std.specs.Fmt.{decimal};
ghost use Rattle.cal_scan.specs.Lines.{line};
ghost use Rattle.cef_report.specs.Texts.{node_words, tree_lines};

use crate::write::line::{put_count, put_numbers_line, put_word};
use cef_core::Name;
use cef_tree::{Node, Tree};
use std::alloc::{AllocError, Global};

#[tactic(auto, unfolding(cal_scan::specs::Lines::line))]
fn put_split(alloc: Global, out: &mut Vec<u8>, place: u16, cut: u16) -> Result<(), AllocError>
    ensures { OnOk result (out.new.items ≡ out.old.items ++ line (codes "S" ∷ decimal place ∷ decimal cut ∷ [])) }
{
    out.extend_from_slice(b"S")?;
    put_count(alloc, out, u64::from(place))?;
    put_count(alloc, out, u64::from(cut))?;
    out.push(b'\n')?;
    Ok(())
}

#[tactic(auto, unfolding(cal_scan::specs::Lines::line))]
fn put_node(alloc: Global, out: &mut Vec<u8>, node: &Node) -> Result<(), AllocError>
    ensures { OnOk result (out.new.items ≡ out.old.items ++ line (node_words node.now)) }
{
    match node {
        Node::Split { place, cut } => put_split(alloc, out, *place, *cut)?,
        Node::Leaf { multipliers } => put_numbers_line(alloc, out, b"L", multipliers.as_slice())?,
        Node::Affine { multipliers } => put_numbers_line(alloc, out, b"A", multipliers.as_slice())?,
        Node::Empty => out.extend_from_slice(b"E\n")?,
    }
    Ok(())
}

fn put_nodes(alloc: Global, out: &mut Vec<u8>, nodes: &[Node]) -> Result<(), AllocError>
    ensures { OnOk result (out.new.items ≡ out.old.items ++ flat_map (λ node. line (node_words node)) nodes.now) }
{
    'nodes: for node in nodes {
        put_node(alloc, out, node)?;
    }
    Ok(())
}

#[tactic(auto, unfolding(cal_scan::specs::Lines::line))]
fn put_tree(alloc: Global, out: &mut Vec<u8>, phase: &Name, tree: &Tree) -> Result<(), AllocError>
    ensures { OnOk result (out.new.items ≡ out.old.items ++ line (codes "tree" ∷ phase.now ∷ []) ++ flat_map (λ node. line (node_words node)) tree.now.nodes) }
{
    out.extend_from_slice(b"tree")?;
    put_word(out, phase.bytes())?;
    out.push(b'\n')?;
    put_nodes(alloc, out, tree.nodes.as_slice())?;
    Ok(())
}

/// The tree of each phase.
pub(crate) fn put_trees(
    alloc: Global,
    out: &mut Vec<u8>,
    phases: &[Name],
    trees: &[Tree],
) -> Result<(), AllocError>
    requires { length trees.now ≡ length phases.now }
    ensures { OnOk result (out.new.items ≡ out.old.items ++ concat (tree_lines phases.now trees.now)) }
{
    'trees: for place in 0..trees.len() {
        put_tree(alloc, out, &phases[place], &trees[place])?;
    }
    Ok(())
}
