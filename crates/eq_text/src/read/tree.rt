//! The tree of each phase.

ghost use Rattle.std.specs.Prelude.{◌≡◌, ◌^◌, ◌≤◌, ◌<◌, ◌+◌, ◌-◌, IfOk, length};
ghost use Rattle.cal_scan.specs.Lines.{texts};
ghost use Rattle.cal_lines.specs.Places.{ReadsAt};
ghost use Rattle.cal_lines.specs.Words as words;
ghost use Rattle.cal_lines.specs.Reading.{of_line};
ghost use Rattle.cal_lines.specs.Choosing.{each};
ghost use Rattle.eq_text.specs.Kinds as kinds;
ghost use Rattle.eq_text.specs.Parsing.{node_next, nodes_at, tree_at};

use crate::read::head::two_words_line;
use cal_limits::{MOST_COUNT, MOST_NUMBER};
use cal_lines::{Place, TextFault, all_integers, natural_of, read_line};
use cal_list::Items;
use cal_scan::is_word;
use cef_core::Name;
use cef_tree::{Node, Tree};
use std::alloc::{AllocError, Global};

fn split_made(place: &[u8], cut: &[u8]) -> Option<Node>
    ensures { result ≡ kinds.split_made (words.natural_of MOST_COUNT place.now) (words.natural_of MOST_COUNT cut.now) }
{
    let place = natural_of(place, u128::from(MOST_COUNT))?;
    let cut = natural_of(cut, u128::from(MOST_COUNT))?;
    Some(Node::Split {
        place: place as u16,
        cut: cut as u16,
    })
}

#[tactic(auto, unfolding(crate::specs::Kinds::node_of))]
fn node_of(alloc: Global, words: &[&[u8]]) -> Result<Option<Node>, AllocError>
    ensures { IfOk result (λ o. o ≡ kinds.node_of (texts words.now)) }
{
    match words {
        [] => Ok(None),
        [word] => {
            if is_word(*word, b"E") {
                Ok(Some(Node::Empty))
            } else {
                Ok(None)
            }
        }
        [word, rest @ ..] => {
            if is_word(*word, b"L") {
                match all_integers(alloc, rest, MOST_NUMBER)? {
                    None => Ok(None),
                    Some(multipliers) => Ok(Some(Node::Leaf { multipliers })),
                }
            } else if is_word(*word, b"A") {
                match all_integers(alloc, rest, MOST_NUMBER)? {
                    None => Ok(None),
                    Some(multipliers) => Ok(Some(Node::Affine { multipliers })),
                }
            } else if is_word(*word, b"S") {
                match rest {
                    [place, cut] => Ok(split_made(*place, *cut)),
                    _ => Ok(None),
                }
            } else {
                Ok(None)
            }
        }
    }
}

fn node_line<'a>(alloc: Global, at: Place<'a>) -> Result<(Node, Place<'a>), TextFault>
    ensures reads { ReadsAt result (of_line kinds.node_of) at.entry }
    ensures shorter { IfOk result (λ x. length x.1.rest.now < length at.entry.rest.now) }
{
    read_line(alloc, at, |words| node_of(alloc, words))
}

/// How many subtrees are open behind a node, where so many were open before it.
fn open_behind(node: &Node, open_trees: u64) -> u64
    requires low { 0 < open_trees }
    requires high { open_trees < 2 ^ 40 }
    ensures next { result ≡ node_next node.now (open_trees - 1) }
    ensures bound { result ≤ open_trees + 1 }
{
    match node {
        Node::Split { .. } => open_trees + 1,
        Node::Leaf { .. } => open_trees - 1,
        Node::Affine { .. } => open_trees - 1,
        Node::Empty => open_trees - 1,
    }
}

/// The nodes of a whole box in preorder.
fn nodes<'a>(alloc: Global, at: Place<'a>) -> Result<(Items<Node>, Place<'a>), TextFault>
    ensures { ReadsAt result nodes_at at.entry }
{
    let mut all = Items::new(alloc);
    let mut here = at;
    let mut open_trees: u64 = 1;
    'nodes: while open_trees > 0 {
        let (node, after) = node_line(alloc, here)?;
        open_trees = open_behind(&node, open_trees);
        all.push(node)?;
        here = after;
    }
    Ok((all, here))
}

#[tactic(auto, unfolding(crate::specs::Parsing::tree_at, cal_lines::specs::Reading::both))]
fn tree<'a>(alloc: Global, phase: &[u8], at: Place<'a>) -> Result<(Tree, Place<'a>), TextFault>
    ensures { ReadsAt result (tree_at phase.now) at.entry }
{
    let ((), after) = two_words_line(alloc, b"tree", phase, at)?;
    let (nodes, after) = nodes(alloc, after)?;
    Ok((Tree { nodes }, after))
}

/// A tree for each phase.
pub(crate) fn trees<'a>(
    alloc: Global,
    phases: &[Name],
    at: Place<'a>,
) -> Result<(Items<Tree>, Place<'a>), TextFault>
    ensures { ReadsAt result (each tree_at phases.now) at.entry }
{
    let mut all = Items::new(alloc);
    let mut here = at;
    'phases: for phase in phases {
        let (tree, after) = tree(alloc, phase.bytes(), here)?;
        all.push(tree)?;
        here = after;
    }
    Ok((all, here))
}
