//! The way up from a node along its parents.
ghost use Rattle.std.specs.Prelude.{◌≡◌, ◌+◌, length};
ghost use Rattle.card.specs.Lists.{member};
ghost use Rattle.card.specs.Contents.{above};
ghost use Rattle.card.specs.Tables.{entries, contents};
ghost use Rattle.card.specs.TableOrder.{SoundBelow};

use crate::whole::WholeTables;

impl WholeTables<'_> {
    // Whether an element is a node or lies above it, where the nodes so far are in order.
    // Parents have lower numbers, so the way up ends as soon as it is past the number. It follows links, no
    // index: no lemma says what the library's `successors` yields.
    pub(crate) fn lies_above(self, from: u32, sought: u32) -> bool
        requires sound { SoundBelow (entries self.tables) self.counts (from + 1) }
        ensures { result ≡ member sought (above (contents (entries self.entry.tables) self.entry.counts) from) }
    {
        let mut at = from;
        while at > sought {
            let node = self.tables.nodes[at as usize];
            let Some(parent) = node.parent else {
                return false;
            };
            at = parent;
        }
        at == sought && self.tables.nodes[at as usize].kind.is_element()
    }

    /// How many elements lie from a node upward, itself included, where the nodes so far are in order.
    pub fn depth(self, from: u32) -> usize
        requires sound { SoundBelow (entries self.tables) self.counts (from + 1) }
        ensures { result ≡ length (above (contents (entries self.entry.tables) self.entry.counts) from) }
    {
        // Along links, for the same reason.
        let mut at = from;
        let mut elements = 0;
        while at > 0 {
            let node = self.tables.nodes[at as usize];
            if node.kind.is_element() {
                elements += 1;
            }
            let Some(parent) = node.parent else {
                return elements;
            };
            at = parent;
        }
        elements
    }
}
