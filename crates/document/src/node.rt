//! The nodes of a document: what each is, and where the way up goes on.
ghost use Rattle.std.specs.Prelude.{◌≡◌, true, length, is_ok, IfSome};
ghost use Rattle.std.specs.Option.{option_map};
ghost use Rattle.card.specs.Contents.{item, bytes_of, is_text, has_tag};
ghost use Rattle.card.specs.Tables.{entries, contents};
ghost use Rattle.order.specs.Checks.{card_checked};
ghost use Rattle.document.specs.Reads.{card_of, numbered, node_at, kind_at, tag_of, is_element, Leads};

use crate::document::Document;
use card::{NodeData, NodeKind, TableCounts, Tables};
use names::EId;

/// A node of a document, by its number. A number that is no node is as the root.
#[derive(Clone, Copy)]
pub struct SvgNode<'a> {
    pub doc: Document<'a>,
    pub id: u32,
}

impl<'a> Document<'a> {
    /// The document of tables that have passed their check.
    pub fn new(tables: Tables<'a>, counts: TableCounts) -> Document<'a>
        requires { is_ok (card_checked (entries tables) counts) ≡ true }
        ensures { card_of result ≡ contents (entries tables.entry) counts }
    {
        Document { tables, counts }
    }

    /// How many nodes it has.
    pub fn len(self) -> usize
        ensures { result ≡ length (card_of self.entry) }
    {
        let TableCounts { nodes, .. } = self.counts;
        nodes
    }

    /// The node of a number.
    pub fn node(self, id: u32) -> SvgNode<'a>
        ensures { result ≡ numbered self.entry id }
    {
        SvgNode { doc: self, id }
    }
}

impl<'a> SvgNode<'a> {
    // The entry of the node, if it is one.
    fn data(self) -> Option<NodeData>
        ensures { result ≡ node_at (entries self.entry.doc.tables) self.entry.doc.counts self.entry.id }
    {
        if self.id as usize >= self.doc.counts.nodes {
            return None;
        }
        Some(self.doc.tables.nodes[self.id as usize])
    }

    // What the node is.
    pub(crate) fn kind(self) -> NodeKind
        ensures { result ≡ kind_at (entries self.entry.doc.tables) self.entry.doc.counts self.entry.id }
    {
        self.data().map_or(NodeKind::Root, |node| node.kind)
    }

    /// An element's tag.
    pub fn tag(self) -> Option<EId>
        ensures { result ≡ tag_of (item (card_of self.entry.doc) self.entry.id) }
    {
        match self.kind() {
            NodeKind::Element { tag, .. } => Some(tag),
            _ => None,
        }
    }

    /// Whether the node is an element.
    pub fn is_element(self) -> bool
        ensures { result ≡ is_element (card_of self.entry.doc) self.entry.id }
    {
        self.tag().is_some()
    }

    /// Whether the node is an element of this tag.
    pub fn has_tag(self, sought: EId) -> bool
        ensures { result ≡ has_tag sought (card_of self.entry.doc) self.entry.id }
    {
        self.kind().has_tag(sought)
    }

    /// Whether the node is a text.
    pub fn is_text(self) -> bool
        ensures { result ≡ is_text (card_of self.entry.doc) self.entry.id }
    {
        matches!(self.kind(), NodeKind::Text(_))
    }

    /// A text's bytes; none for any other node.
    pub fn text(self) -> &'a [u8]
        ensures { result.now ≡ bytes_of (item (card_of self.entry.doc) self.entry.id) }
    {
        match self.kind() {
            NodeKind::Text(run) => run.entries(self.doc.tables.bytes),
            _ => &[],
        }
    }

    /// The node that this one lies in.
    pub fn parent(self) -> Option<SvgNode<'a>>
        ensures leads { Leads (card_of self.entry.doc) self.entry.id (option_map (λ n. n.id) result) }
        ensures same_document { IfSome result (λ n. n.doc ≡ self.entry.doc) }
    {
        let id = self.data()?.parent?;
        Some(self.doc.node(id))
    }
}
