//! What lies below a node: the nodes after it, up to the first that lies in none of them.
ghost use Rattle.std.specs.Prelude.{◌≡◌, ◌<◌, length};
ghost use Rattle.card.specs.Contents.{parent};
ghost use Rattle.document.specs.Reads.{card_of};
ghost use Rattle.characters.specs.Subtrees.{LiesBetween};
ghost use Rattle.characters.specs.Characters.{characters, char_count};

use crate::text::count_chars;
use document::SvgNode;

// The node that a node lies in; the root lies in itself.
fn parent_or_root(node: SvgNode<'_>) -> u32
    ensures { result ≡ parent (card_of node.entry.doc) node.entry.id }
{
    node.parent().map_or(0, |parent| parent.id)
}

/// The first number after a node that does not lie below it.
pub fn subtree_end(node: SvgNode<'_>) -> u32
    requires later { 0 < node.id }
    requires present { node.id < length (card_of node.doc) }
    ensures { LiesBetween (card_of node.entry.doc) node.entry.id result }
{
    let nodes = node.doc.len() as u32;
    (node.id + 1..nodes)
        .find(|k| parent_or_root(node.doc.node(*k)) < node.id)
        .unwrap_or(nodes)
}

/// How many characters a number has as a text: none, if it is no text.
pub fn count_chars_in(node: SvgNode<'_>) -> usize
    ensures { result ≡ char_count (card_of node.entry.doc) node.entry.id }
{
    count_chars(node.text())
}

/// How many characters a node has: those of all texts below it.
pub fn count_chars_below(node: SvgNode<'_>) -> usize
    requires later { 0 < node.id }
    requires present { node.id < length (card_of node.doc) }
    ensures { result ≡ length (characters (card_of node.entry.doc) node.entry.id) }
{
    (node.id + 1..subtree_end(node))
        .map(|k| count_chars_in(node.doc.node(k)))
        .sum()
}
