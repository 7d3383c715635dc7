//! The tables that a card is lent.
use crate::answer::{Answer, NoAnswer};
use crate::line::Poke;
use card::{
    Attribute, Length, MAX_ATTRIBUTES, MAX_BYTES, MAX_LENGTHS, MAX_NODES, Marks, NodeData, Run,
    TableCounts, Tables,
};
use names::AId;
use std::alloc::{AllocError, Global};

/// A table that is lent. Entries past the table's limit are never used, so only their number is kept.
#[derive(Drop)]
pub(crate) struct LentTable<T> {
    entries: Vec<T>,
    size: usize,
}

impl<T: Copy> LentTable<T> {
    // A table of so many entries, all alike.
    fn new(heap: Global, entry: T, size: usize, limit: usize) -> Result<LentTable<T>, AllocError> {
        let entries = vec![in heap; entry; size.min(limit)]?;
        Ok(LentTable { entries, size })
    }

    pub(crate) fn as_slice(&self) -> &[T] {
        self.entries.as_slice()
    }

    pub(crate) fn as_mut_slice(&mut self) -> &mut [T] {
        self.entries.as_mut_slice()
    }

    // Overwrites an entry, if the table has it.
    fn poke(&mut self, k: usize, entry: T) -> Result<Answer, NoAnswer> {
        if k >= self.size {
            return Err(NoAnswer::Unreadable);
        }
        if let Some(place) = self.entries.get_mut(k) {
            *place = entry;
        }
        Ok(Answer::Poked)
    }
}

/// The four tables of a card.
#[derive(Drop)]
pub(crate) struct Lent {
    pub(crate) nodes: LentTable<NodeData>,
    pub(crate) attributes: LentTable<Attribute>,
    pub(crate) bytes: LentTable<u8>,
    pub(crate) lengths: LentTable<Length>,
}

impl Lent {
    /// Cleared tables of these sizes.
    pub(crate) fn new(heap: Global, sizes: TableCounts) -> Result<Lent, AllocError> {
        // Written out: no name is the blank one, so an attribute has no default.
        let attribute = Attribute {
            name: AId::AlignmentBaseline,
            value: Run::default(),
            lengths: Run::default(),
            marks: Marks::default(),
        };
        Ok(Lent {
            nodes: LentTable::new(heap, NodeData::default(), sizes.nodes, MAX_NODES)?,
            attributes: LentTable::new(heap, attribute, sizes.attributes, MAX_ATTRIBUTES)?,
            bytes: LentTable::new(heap, 0, sizes.bytes, MAX_BYTES)?,
            lengths: LentTable::new(heap, Length::default(), sizes.lengths, MAX_LENGTHS)?,
        })
    }

    /// The tables, for reading.
    pub(crate) fn tables(&self) -> Tables<'_> {
        Tables {
            nodes: self.nodes.as_slice(),
            attributes: self.attributes.as_slice(),
            bytes: self.bytes.as_slice(),
            lengths: self.lengths.as_slice(),
        }
    }

    /// Overwrites an entry.
    pub(crate) fn poke(&mut self, poke: Poke) -> Result<Answer, NoAnswer> {
        match poke {
            Poke::Node(k, node) => self.nodes.poke(k, node),
            Poke::Attribute(k, attribute) => self.attributes.poke(k, attribute),
            Poke::Byte(k, byte) => self.bytes.poke(k, byte),
            Poke::Length(k, length) => self.lengths.poke(k, length),
        }
    }
}
