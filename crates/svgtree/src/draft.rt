//! A card that is being built, and the calls on it.
ghost use Rattle.std.specs.Prelude.{◌≡◌, [], ◌∷◌, ◌++◌, IfOk, OnErr, OnOk, slice_set};
ghost use Rattle.build.specs.Edits.{with_attr};
ghost use Rattle.card.specs.Contents.{element, text as text_item, item};
ghost use Rattle.card.specs.Tables.{Entries, entries, contents};
ghost use Rattle.svgtree.specs.Calls.{lent, begun_card, outcome, held, Holds, Unchanged, begun, opened, written, attr_given, given, closed, sealed};

use crate::room::{CheckedDraft, counts_with, entry_of};
use crate::sealed::Sealed;
use build::{add_node, begin_nodes, end_attributes, lay};
use card::{Attribute, Fault, Length, NodeData, NodeKind, Run, TableCounts, Tables, Value};
use names::{AId, EId};
use order::{check_draft, check_tables};

/// A card that is being built: how much of each table it uses, and which element is open.
#[derive(Drop)]
pub struct Draft {
    pub(crate) counts: TableCounts,
    pub(crate) open: u32,
}

impl Draft {
    /// Begins a card: node 0 is the root, and node 1, an `svg`, is open.
    pub fn begin(nodes: &mut [NodeData]) -> Result<Draft, Fault>
        ensures answer_and_tables { (result, nodes.new) ≡ begun nodes.old }
        ensures a_refusal_changes_nothing { OnErr result (nodes.new ≡ nodes.old) }
        ensures a_card_just_begun_is_in_order { IfOk result (λ d. (others : Entries) → Holds (lent nodes.new others.attributes others.bytes others.lengths) d begun_card) }
    {
        if nodes.len() < 2 {
            return Err(Fault::NoRoomToBegin);
        }
        begin_nodes(nodes);
        let counts = TableCounts {
            nodes: 2,
            ..TableCounts::default()
        };
        Ok(Draft { counts, open: 1 })
    }

    // The tables come one by one: a struct of four would lend a call more to write than it may. So each call gathers them
    // for its checks itself: a function that did would be given all of them again.
    /// Opens an element inside the open one, and answers its number.
    pub fn open<'t>(
        &mut self,
        nodes: &'t mut [NodeData],
        attributes: &'t [Attribute],
        bytes: &'t [u8],
        lengths: &'t [Length],
        tag: EId,
    ) -> Result<u32, Fault>
        ensures answer_and_tables { outcome result self.new (lent nodes.new attributes.now bytes.now lengths.now) ≡ opened self.old (lent nodes.old attributes.now bytes.now lengths.now) tag }
        ensures a_refusal_changes_nothing { OnErr result (Unchanged self.old (lent nodes.old attributes.now bytes.now lengths.now) self.new (lent nodes.new attributes.now bytes.now lengths.now)) }
        ensures one_element_more { OnOk result (Holds (lent nodes.new attributes.now bytes.now lengths.now) self.new (held (lent nodes.old attributes.now bytes.now lengths.now) self.old ++ element self.old.«open» tag [] ∷ [])) }
    {
        let Draft { counts, open } = *self;
        let tables = Tables {
            nodes,
            attributes,
            bytes,
            lengths,
        };
        check_draft(tables, counts, open)?;
        let checked = CheckedDraft {
            tables,
            counts,
            open,
        };
        checked.check_opening()?;
        let number = counts.nodes as u32;
        let at = counts.attributes as u32;
        let attributes = Run { start: at, end: at };
        add_node(nodes, open, number, NodeKind::Element { tag, attributes });
        self.counts.nodes = counts.nodes + 1;
        self.open = number;
        Ok(number)
    }

    // The tables are gathered as in `open`.
    /// Writes a text inside the open element, and answers its number.
    pub fn write<'t>(
        &mut self,
        nodes: &'t mut [NodeData],
        attributes: &'t [Attribute],
        bytes: &'t mut [u8],
        lengths: &'t [Length],
        text: &[u8],
    ) -> Result<u32, Fault>
        ensures answer_and_tables { outcome result self.new (lent nodes.new attributes.now bytes.new lengths.now) ≡ written self.old (lent nodes.old attributes.now bytes.old lengths.now) text.now }
        ensures a_refusal_changes_nothing { OnErr result (Unchanged self.old (lent nodes.old attributes.now bytes.old lengths.now) self.new (lent nodes.new attributes.now bytes.new lengths.now)) }
        ensures one_text_more { OnOk result (Holds (lent nodes.new attributes.now bytes.new lengths.now) self.new (held (lent nodes.old attributes.now bytes.old lengths.now) self.old ++ text_item self.old.«open» text.now ∷ [])) }
    {
        let Draft { counts, open } = *self;
        let tables = Tables {
            nodes,
            attributes,
            bytes,
            lengths,
        };
        check_draft(tables, counts, open)?;
        let checked = CheckedDraft {
            tables,
            counts,
            open,
        };
        checked.check_writing(text)?;
        let number = counts.nodes as u32;
        let end = counts.bytes + text.len();
        let run = Run {
            start: counts.bytes as u32,
            end: end as u32,
        };
        add_node(nodes, open, number, NodeKind::Text(run));
        lay(bytes, counts.bytes, text);
        self.counts.nodes = counts.nodes + 1;
        self.counts.bytes = end;
        Ok(number)
    }

    // The tables are gathered as in `open`.
    /// Gives the open element an attribute, and answers the attribute's number.
    pub fn give<'t>(
        &mut self,
        nodes: &'t mut [NodeData],
        attributes: &'t mut [Attribute],
        bytes: &'t mut [u8],
        lengths: &'t mut [Length],
        name: AId,
        value: Value<'_>,
    ) -> Result<u32, Fault>
        ensures answer_and_tables { outcome result self.new (lent nodes.new attributes.new bytes.new lengths.new) ≡ given self.old (lent nodes.old attributes.old bytes.old lengths.old) (attr_given name value.entry) }
        ensures a_refusal_changes_nothing { OnErr result (Unchanged self.old (lent nodes.old attributes.old bytes.old lengths.old) self.new (lent nodes.new attributes.new bytes.new lengths.new)) }
        ensures one_attribute_more { OnOk result (Holds (lent nodes.new attributes.new bytes.new lengths.new) self.new (slice_set (held (lent nodes.old attributes.old bytes.old lengths.old) self.old) self.old.«open» (with_attr (attr_given name value.entry) (item (held (lent nodes.old attributes.old bytes.old lengths.old) self.old) self.old.«open»)))) }
    {
        let Draft { counts, open } = *self;
        let tables = Tables {
            nodes,
            attributes,
            bytes,
            lengths,
        };
        check_draft(tables, counts, open)?;
        let checked = CheckedDraft {
            tables,
            counts,
            open,
        };
        checked.check_value(value)?;
        checked.check_space(value)?;
        let number = counts.attributes;
        attributes[number] = entry_of(counts, name, value);
        lay(bytes, counts.bytes, value.bytes);
        lay(lengths, counts.lengths, value.lengths);
        end_attributes(nodes, open, (number + 1) as u32);
        self.counts = counts_with(counts, value);
        Ok(number as u32)
    }

    /// Closes the open element, and answers its parent, which is open now.
    pub fn close(&mut self, tables: Tables<'_>) -> Result<u32, Fault>
        ensures answer_and_tables { outcome result self.new (entries tables.exit) ≡ closed self.old (entries tables.entry) }
        ensures a_refusal_changes_nothing { OnErr result (self.new ≡ self.old) }
        ensures the_contents_stay { OnOk result (Holds (entries tables.entry) self.new (held (entries tables.entry) self.old)) }
    {
        let Draft { counts, open } = *self;
        check_draft(tables, counts, open)?;
        if open == 1 {
            return Err(Fault::SvgOpen(open));
        }
        let node = tables.nodes[open as usize];
        let Some(parent) = node.parent else {
            return Err(Fault::SvgOpen(open));
        };
        self.open = parent;
        Ok(parent)
    }

    // A pair hands the draft back with the fault: a struct of the two is no plainer for two calls.
    /// Seals the draft if node 1 is the open element; a refusal hands the draft back.
    pub fn seal(self, tables: Tables<'_>) -> Result<Sealed, (Draft, Fault)>
        ensures answer { result ≡ sealed self (entries tables.entry) }
        ensures the_contents_stay { IfOk result (λ s. contents (entries tables.entry) s.counts ≡ held (entries tables.entry) self) }
    {
        let counts = self.counts;
        let open = self.open;
        if let Err(fault) = check_tables(tables, counts) {
            return Err((self, fault));
        }
        if open != 1 {
            return Err((self, Fault::StillOpen(open)));
        }
        let Draft { counts, open: _ } = self;
        Ok(Sealed { counts })
    }
}
