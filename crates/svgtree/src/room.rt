//! The checks of a call that builds, after those of the card: what it is given, and room for it.
ghost use Rattle.std.specs.Prelude.{◌≡◌, ◌+◌, ◌<◌, ◌≤◌, true, false, length, OnOk};
ghost use Rattle.card.specs.Order.{is_utf8, keeps_rules};
ghost use Rattle.card.specs.Tables.{entries, contents};
ghost use Rattle.card.specs.Contents.{above};
ghost use Rattle.names.specs.declared.AId.TheVariants.{AlignmentBaseline as blank_name};
ghost use Rattle.build.specs.Edits.{entry_of, count_attribute};
ghost use Rattle.order.specs.Checks.{SoundDraft};
ghost use Rattle.svgtree.specs.Calls.{draft, lacks, opening_checked, writing_checked, attr_given, value_checked, space_checked, Space};

use card::{
    Attribute, Fault, MAX_ATTRIBUTES, MAX_BYTES, MAX_DEPTH, MAX_LENGTHS, MAX_NODES, Run,
    TableCounts, Tables, Value,
};
use names::AId;
use order::{WholeTables, check_spelling, keeps_rules};

/// A draft that has passed its check, in the tables that it was checked in.
#[derive(Clone, Copy)]
pub(crate) struct CheckedDraft<'a> {
    pub(crate) tables: Tables<'a>,
    pub(crate) counts: TableCounts,
    pub(crate) open: u32,
    ghost sound: { SoundDraft (entries tables) counts «open» },
}

// Whether a table, of which a limit counts, has no room for so many entries.
fn lacks_room(entries: usize, limit: usize, needed: usize) -> bool
    ensures answer { result ≡ lacks entries limit needed }
    ensures fits { result ≡ false → (needed ≤ entries) × (needed ≤ limit) }
{
    entries.min(limit) < needed
}

impl CheckedDraft<'_> {
    // Refuses to open an element too deep, or with no node entry for it.
    pub(crate) fn check_opening(self) -> Result<(), Fault>
        ensures answer { result ≡ opening_checked (draft self.entry.counts self.entry.«open») (entries self.entry.tables) }
        ensures fits { OnOk result ((self.entry.counts.nodes < length (entries self.entry.tables).nodes) × (self.entry.counts.nodes < 4096) × (length (above (contents (entries self.entry.tables) self.entry.counts) self.entry.«open») < 64)) }
    {
        let card = WholeTables {
            tables: self.tables,
            counts: self.counts,
        };
        if card.depth(self.open) >= MAX_DEPTH {
            return Err(Fault::TooDeep(self.open));
        }
        if lacks_room(self.tables.nodes.len(), MAX_NODES, self.counts.nodes + 1) {
            return Err(Fault::NoNodeEntry(self.open));
        }
        Ok(())
    }

    // Refuses to write a text with no node entry for it, that is not UTF-8, or that lacks space.
    pub(crate) fn check_writing(self, text: &[u8]) -> Result<(), Fault>
        ensures answer { result ≡ writing_checked (draft self.entry.counts self.entry.«open») (entries self.entry.tables) text.now }
        ensures fits { OnOk result ((self.entry.counts.nodes < length (entries self.entry.tables).nodes) × (self.entry.counts.nodes < 4096) × (is_utf8 text.now ≡ true) × (self.entry.counts.bytes + length text.now ≤ length (entries self.entry.tables).bytes) × (self.entry.counts.bytes + length text.now ≤ 65536)) }
    {
        if lacks_room(self.tables.nodes.len(), MAX_NODES, self.counts.nodes + 1) {
            return Err(Fault::NoNodeEntry(self.open));
        }
        check_spelling(text)?;
        let needed = self.counts.bytes + text.len();
        if lacks_room(self.tables.bytes.len(), MAX_BYTES, needed) {
            return Err(Fault::BytesFull(needed));
        }
        Ok(())
    }

    // Refuses an attribute of an element that is not the newest node, or one whose value or reading may not stand in a card.
    pub(crate) fn check_value(self, value: Value<'_>) -> Result<(), Fault>
        ensures answer { result ≡ value_checked (draft self.entry.counts self.entry.«open») (attr_given blank_name value.entry) }
        ensures fits { OnOk result ((self.entry.«open» + 1 ≡ self.entry.counts.nodes) × (is_utf8 value.entry.bytes.now ≡ true) × (keeps_rules (attr_given blank_name value.entry).reading ≡ true)) }
    {
        if self.open as usize + 1 != self.counts.nodes {
            return Err(Fault::NotNewest(self.open));
        }
        check_spelling(value.bytes)?;
        if !keeps_rules(value.lengths, value.marks) {
            return Err(Fault::ReadingBroken(self.open));
        }
        Ok(())
    }

    // Refuses an attribute for which a table lacks space.
    pub(crate) fn check_space(self, value: Value<'_>) -> Result<(), Fault>
        ensures answer { result ≡ space_checked (draft self.entry.counts self.entry.«open») (entries self.entry.tables) (attr_given blank_name value.entry) }
        ensures fits { OnOk result (Space (entries self.entry.tables) self.entry.counts (attr_given blank_name value.entry)) }
    {
        let needed = self.counts.attributes + 1;
        if lacks_room(self.tables.attributes.len(), MAX_ATTRIBUTES, needed) {
            return Err(Fault::AttributesFull(needed));
        }
        let needed = self.counts.bytes + value.bytes.len();
        if lacks_room(self.tables.bytes.len(), MAX_BYTES, needed) {
            return Err(Fault::BytesFull(needed));
        }
        let needed = self.counts.lengths + value.lengths.len();
        if lacks_room(self.tables.lengths.len(), MAX_LENGTHS, needed) {
            return Err(Fault::LengthsFull(needed));
        }
        Ok(())
    }
}

// The entry of an attribute whose value and reading are the next entries of their tables.
pub(crate) fn entry_of(counts: TableCounts, name: AId, value: Value<'_>) -> Attribute
    requires { (counts.bytes + length value.bytes.now ≤ 65536) × (counts.lengths + length value.lengths.now ≤ 16384) }
    ensures { result ≡ entry_of counts (attr_given name value.entry) }
{
    Attribute {
        name,
        value: Run {
            start: counts.bytes as u32,
            end: (counts.bytes + value.bytes.len()) as u32,
        },
        lengths: Run {
            start: counts.lengths as u32,
            end: (counts.lengths + value.lengths.len()) as u32,
        },
        marks: value.marks,
    }
}

// The counts with an attribute more.
pub(crate) fn counts_with(counts: TableCounts, value: Value<'_>) -> TableCounts
    requires { (counts.attributes < 16384) × (counts.bytes + length value.bytes.now ≤ 65536) × (counts.lengths + length value.lengths.now ≤ 16384) }
    ensures { result ≡ count_attribute counts (attr_given blank_name value.entry) }
{
    TableCounts {
        attributes: counts.attributes + 1,
        bytes: counts.bytes + value.bytes.len(),
        lengths: counts.lengths + value.lengths.len(),
        ..counts
    }
}
