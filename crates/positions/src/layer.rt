//! Lists of elements laid over their characters, element by element in document order.
ghost use Rattle.std.specs.Prelude.{◌≡◌, ℕ, ◌+◌, ◌<◌, ◌≤◌, true, length};
ghost use Rattle.card.specs.Contents.{Card};
ghost use Rattle.document.specs.Reads.{card_of, is_element};
ghost use Rattle.characters.specs.Characters.{characters};
ghost use Rattle.positions.specs.Stacked.{Each, Changed};
ghost use Rattle.positions.specs.Part.{PartChanged};

use characters::{count_chars_below, count_chars_in, subtree_end};
use document::SvgNode;

// A trait and no closure: what it makes of an entry is its ghost member, so that no law has to be shown of each layer.
/// What an element lays over the entries of its characters.
pub(crate) trait Layer<T> {
    // What an element makes of the entry of its i-th character.
    ghost change: { Self → Card → ℕ → ℕ → T → T };

    fn lay(&self, node: SvgNode<'_>, part: &mut [T])
        ensures { Each (change self.now (card_of node.entry.doc) node.entry.id) part.old part.new };
}

// Lays an element's lists over the entries of its characters, which begin at `offset`.
fn lay_at<T, L: Layer<T>>(
    layer: &L,
    node: SvgNode<'_>,
    offset: usize,
    count: usize,
    table: &mut [T],
)
    requires { offset + count ≤ length table.old }
    ensures { PartChanged (L.Layer.change layer.now (card_of node.entry.doc) node.entry.id) offset count table.old table.new }
{
    layer.lay(node, &mut table[offset..offset + count]);
}

// That it is an element whose characters have room is asked of three functions: a type would be made for each call, and
// so would one of node and table.
/// Lays the lists of an element and of all below it over the entries of its characters, the later over the earlier.
pub(crate) fn lay_all<T, L: Layer<T>>(layer: &L, node: SvgNode<'_>, table: &mut [T])
    requires element { is_element (card_of node.doc) node.id ≡ true }
    requires room { length (characters (card_of node.doc) node.id) ≤ length table.old }
    ensures { Changed (L.Layer.change layer.now (card_of node.entry.doc)) (card_of node.entry.doc) node.entry.id table.old table.new }
{
    let end = subtree_end(node);
    let mut offset = 0;
    // A loop and no `fold`: the table is written on the way, and only the offset would be carried.
    for e in node.id..end {
        let inner = node.doc.node(e);
        if inner.is_element() {
            let count = count_chars_below(inner);
            lay_at(layer, inner, offset, count, table);
        }
        offset += count_chars_in(inner);
    }
}
