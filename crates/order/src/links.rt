//! The links that nodes ought to have, found in one pass from their parents alone.
ghost use Rattle.std.specs.Prelude.{◌≡◌, ℕ, ◌<◌, ◌≤◌, length, Some as just, None as nothing, replicate, slice_index_or};
ghost use Rattle.card.specs.Tables.{entries};
ghost use Rattle.order.specs.Links.{lasts, nexts, last_noted, next_noted, Expected};

use crate::whole::WholeTables;

/// What the passes over a card note of each node; nothing at first.
#[derive(Clone, Copy, Default)]
pub(crate) struct Note {
    /// Its last child, as far as the parents so far tell.
    pub(crate) last: Option<u32>,
    /// Its next sibling.
    pub(crate) next: Option<u32>,
    /// How many elements lie from it upward.
    pub(crate) depth: u8,
}

// Node `j` is one more child of its parent, if that is one of the nodes: the next sibling of the child that came before
// it, and the last one now.
fn note_child(notes: &mut [Note], count: usize, parent: Option<u32>, j: u32)
    requires { (count ≤ length notes.old) × (((p q : ℕ) → p < count → slice_index_or (lasts notes.old) p nothing ≡ just q → q < length notes.old)) }
    ensures last { lasts notes.new ≡ last_noted (lasts notes.old) count parent j }
    ensures next { nexts notes.new ≡ next_noted (lasts notes.old) (nexts notes.old) count parent j }
{
    let Some(parent) = parent else {
        return;
    };
    let p = parent as usize;
    if p >= count {
        return;
    }
    if let Some(before) = notes[p].last {
        notes[before as usize].next = Some(j);
    }
    notes[p].last = Some(j);
}

impl WholeTables<'_> {
    // Notes the links that every node ought to have, where nothing is noted yet.
    pub(crate) fn find_links(self, notes: &mut [Note])
        requires no_last { lasts notes.old ≡ replicate 4096 nothing }
        requires no_next { nexts notes.old ≡ replicate 4096 nothing }
        ensures long { length notes.new ≡ 4096 }
        ensures links { Expected (entries self.entry.tables) self.entry.counts.nodes self.entry.counts.nodes (lasts notes.new) (nexts notes.new) }
    {
        let count = self.counts.nodes;
        for (j, node) in self.tables.nodes[..count].iter().enumerate() {
            note_child(notes, count, node.parent, j as u32);
        }
    }
}
