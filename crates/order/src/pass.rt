//! The pass over a card that finds the lowest node out of order.
ghost use Rattle.std.specs.Prelude.{◌≡◌, length};
ghost use Rattle.card.specs.Tables.{entries};
ghost use Rattle.card.specs.TableOrder.{end_by, last_element, lowest_out_of_order};
ghost use Rattle.order.specs.Links.{lasts, nexts, Expected};

use crate::links::Note;
use crate::node::NextNode;
use crate::whole::WholeTables;
use card::{MAX_NODES, NodeKind};

// Where the attributes of the nodes so far end, with this one.
fn end_after(kind: NodeKind, before: u32) -> u32
    ensures { result ≡ end_by kind before }
{
    match kind {
        NodeKind::Element { attributes, .. } => attributes.end,
        _ => before,
    }
}

impl WholeTables<'_> {
    // The highest element.
    fn find_last_element(self) -> Option<u32>
        ensures { result ≡ last_element (entries self.entry.tables) self.entry.counts }
    {
        (0..self.counts.nodes as u32)
            .rev()
            .find(|k| self.tables.nodes[*k as usize].kind.is_element())
    }

    // Judges each node in turn until one is out of order.
    fn pass_nodes(self, notes: &mut [Note]) -> Option<u32>
        requires links { Expected (entries self.tables) self.counts.nodes self.counts.nodes (lasts notes.old) (nexts notes.old) }
        requires room { length notes.old ≡ 4096 }
        ensures { result ≡ lowest_out_of_order (entries self.entry.tables) self.entry.counts }
    {
        let count = self.counts.nodes;
        let closing = self.find_last_element();
        let mut ended = 0;
        for (k, node) in self.tables.nodes[..count].iter().enumerate() {
            let closes = closing == Some(k as u32);
            let next = NextNode { card: self, k };
            let Some(depth) = next.judge(notes, ended, closes) else {
                return Some(k as u32);
            };
            notes[k].depth = depth;
            ended = end_after(node.kind, ended);
        }
        if count < 2 {
            return Some(count as u32);
        }
        None
    }

    /// The lowest node that is out of order.
    pub fn find_out_of_order(self) -> Option<u32>
        ensures the_lowest_node_out_of_order { result ≡ lowest_out_of_order (entries self.entry.tables) self.entry.counts }
    {
        // As many as the largest card needs: nothing here allocates.
        let mut notes = [Note::default(); MAX_NODES];
        self.find_links(&mut notes);
        self.pass_nodes(&mut notes)
    }
}
