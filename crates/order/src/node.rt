//! Whether one node is in order, where those before it are.
ghost use Rattle.std.specs.Prelude.{◌≡◌, ◌<◌, true, ◌&&◌, [], ◌∷◌, length, Some as just};
ghost use Rattle.card.specs.Lists.{holds};
ghost use Rattle.card.specs.Contents.{above};
ghost use Rattle.card.specs.Order.{in_place};
ghost use Rattle.card.specs.Tables.{entries, node as node_of, contents};
ghost use Rattle.card.specs.TableOrder.{same_link, parented, first_child, last_child, next_sibling, attributes_end, last_element, filled, SoundBelow};
ghost use Rattle.order.specs.Links.{lasts, nexts, Expected};
ghost use Rattle.order.specs.Pass.{depths, Depths, Judged};

use crate::attribute::is_in_use;
use crate::links::Note;
use crate::value::is_utf8;
use crate::whole::WholeTables;
use card::{MAX_DEPTH, NodeKind};
use names::EId;

/// The node that is judged next: one of those used, where all before it are in order.
#[derive(Clone, Copy)]
pub(crate) struct NextNode<'a> {
    pub(crate) card: WholeTables<'a>,
    pub(crate) k: usize,
    ghost present: { k < card.counts.nodes },
    ghost sound: { SoundBelow (entries card.tables) card.counts k },
}

impl NextNode<'_> {
    // Whether a node's kind and parent are those that its number asks for.
    pub(crate) fn is_placed(self) -> bool
        ensures { result ≡ (parented (entries self.entry.card.tables) self.entry.k && in_place (contents (entries self.entry.card.tables) self.entry.card.counts) self.entry.k) }
    {
        let node = self.card.tables.nodes[self.k];
        let Some(parent) = node.parent else {
            return self.k == 0 && node.kind.is_root();
        };
        match self.k {
            0 => false,
            1 => node.kind.has_tag(EId::Svg) && parent == 0,
            _ => !node.kind.is_root() && self.card.lies_above((self.k - 1) as u32, parent),
        }
    }

    // The node after this one, if it is a child of it.
    fn first_child(self) -> Option<u32>
        ensures { result ≡ first_child (entries self.entry.card.tables) self.entry.card.counts self.entry.k }
    {
        let next = self.k + 1;
        if next < self.card.counts.nodes
            && self.card.tables.nodes[next].parent == Some(self.k as u32)
        {
            return Some(next as u32);
        }
        None
    }

    // Whether a node's links to its children and to its next sibling are those that it ought to have.
    pub(crate) fn is_linked(self, note: Note) -> bool
        requires last { note.last ≡ last_child (entries self.card.tables) self.card.counts self.k }
        requires next { note.next ≡ next_sibling (entries self.card.tables) self.card.counts self.k }
        ensures { result ≡ holds (same_link (node_of (entries self.entry.card.tables) self.entry.k).first (first_child (entries self.entry.card.tables) self.entry.card.counts self.entry.k) ∷ same_link (node_of (entries self.entry.card.tables) self.entry.k).last (last_child (entries self.entry.card.tables) self.entry.card.counts self.entry.k) ∷ same_link (node_of (entries self.entry.card.tables) self.entry.k).next (next_sibling (entries self.entry.card.tables) self.entry.card.counts self.entry.k) ∷ []) }
    {
        let node = self.card.tables.nodes[self.k];
        node.first == self.first_child() && node.last == note.last && node.next == note.next
    }

    // Whether an element's attributes, or a text's bytes, are in order. `ended` is where the attributes of the element
    // before end, and `closes` says that there is no element after.
    pub(crate) fn is_filled(self, ended: u32, closes: bool) -> bool
        requires ended { ended ≡ attributes_end (entries self.card.tables) self.k }
        requires closes { closes ≡ same_link (last_element (entries self.card.tables) self.card.counts) (just self.k) }
        ensures { result ≡ filled (entries self.entry.card.tables) self.entry.card.counts self.entry.k (node_of (entries self.entry.card.tables) self.entry.k).kind }
    {
        match self.card.tables.nodes[self.k].kind {
            NodeKind::Root => true,
            NodeKind::Element { attributes, .. } => {
                if !is_in_use(attributes, self.card.counts.attributes)
                    || attributes.start != ended
                {
                    return false;
                }
                if closes && attributes.end as usize != self.card.counts.attributes {
                    return false;
                }
                self.card.are_attributes_in_order(attributes)
            }
            NodeKind::Text(run) => {
                is_in_use(run, self.card.counts.bytes)
                    && is_utf8(run.entries(self.card.tables.bytes))
            }
        }
    }

    // How many elements lie from the node upward, by its parent's depth.
    fn depth_from(self, notes: &[Note]) -> u8
        requires placed { in_place (contents (entries self.card.tables) self.card.counts) self.k ≡ true }
        requires parented { parented (entries self.card.tables) self.k ≡ true }
        requires depths { Depths (entries self.card.tables) self.card.counts self.k (depths notes.now) }
        ensures { result ≡ length (above (contents (entries self.entry.card.tables) self.entry.card.counts) self.entry.k) }
    {
        let node = self.card.tables.nodes[self.k];
        let Some(parent) = node.parent else {
            return 0;
        };
        let above = notes[parent as usize].depth;
        if node.kind.is_element() {
            above + 1
        } else {
            above
        }
    }

    // The node's depth, if it is in order.
    pub(crate) fn judge(self, notes: &[Note], ended: u32, closes: bool) -> Option<u8>
        requires links { Expected (entries self.card.tables) self.card.counts.nodes self.card.counts.nodes (lasts notes.now) (nexts notes.now) }
        requires depths { Depths (entries self.card.tables) self.card.counts self.k (depths notes.now) }
        requires ended { ended ≡ attributes_end (entries self.card.tables) self.k }
        requires closes { closes ≡ same_link (last_element (entries self.card.tables) self.card.counts) (just self.k) }
        ensures { Judged (entries self.entry.card.tables) self.entry.card.counts self.entry.k result }
    {
        if !self.is_placed() {
            return None;
        }
        let depth = self.depth_from(notes);
        if depth as usize > MAX_DEPTH {
            return None;
        }
        if !self.is_linked(notes[self.k]) {
            return None;
        }
        if !self.is_filled(ended, closes) {
            return None;
        }
        Some(depth)
    }
}
