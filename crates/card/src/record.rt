//! The records of a card's tables, and the tables as they are lent.
ghost use Rattle.std.specs.Prelude.{◌≡◌, ◌≤◌, length};
ghost use Rattle.card.specs.Tables.{run_in};
ghost use Rattle.card.specs.TableOrder.{is_root_kind, is_element, is_tagged};

use names::{AId, EId, LengthUnit};

/// The most entries that a card may use of each table, and the most elements that may lie from a node upward.
pub const MAX_NODES: usize = 4096;

pub const MAX_ATTRIBUTES: usize = 16384;

pub const MAX_BYTES: usize = 65536;

pub const MAX_LENGTHS: usize = 16384;

pub const MAX_DEPTH: usize = 64;

/// Entries of a table, from `start` up to `end`.
#[derive(Clone, Copy, Default)]
pub struct Run {
    pub start: u32,
    pub end: u32,
}

impl Run {
    /// The entries of the run.
    pub fn entries<'a, T>(self, table: &'a [T]) -> &'a [T]
        requires { (self.start ≤ self.end) × (self.end ≤ length table.now) }
        ensures { result.now ≡ run_in self table.now }
    {
        &table[self.start as usize..self.end as usize]
    }
}

/// A length: a number and its unit.
#[derive(Clone, Copy, Default)]
pub struct Length {
    pub number: f32,
    pub unit: LengthUnit,
}

/// What else was read in a value: that it is one length, that it is a list of bare numbers.
#[derive(Clone, Copy, Default)]
pub struct Marks {
    pub single: bool,
    pub plain: bool,
}

/// An attribute: its name, its value as a run of bytes, and the value's reading as a run of lengths with two marks.
#[derive(Clone, Copy)]
pub struct Attribute {
    pub name: AId,
    pub value: Run,
    pub lengths: Run,
    pub marks: Marks,
}

/// What a node is: the root, an element (its tag and where its attributes stand), or a text (where its bytes stand).
#[derive(Clone, Copy, Default)]
pub enum NodeKind {
    #[default]
    Root,
    Element { tag: EId, attributes: Run },
    Text(Run),
}

impl NodeKind {
    /// Whether the node is the root.
    pub fn is_root(self) -> bool
        ensures { result ≡ is_root_kind self }
    {
        matches!(self, NodeKind::Root)
    }

    /// Whether the node is an element.
    pub fn is_element(self) -> bool
        ensures { result ≡ is_element self }
    {
        matches!(self, NodeKind::Element { .. })
    }

    /// Whether the node is an element of this tag.
    pub fn has_tag(self, sought: EId) -> bool
        ensures { result ≡ is_tagged sought self }
    {
        match self {
            NodeKind::Element { tag, .. } => tag == sought,
            _ => false,
        }
    }
}

/// A node and its links to other nodes, by number.
#[derive(Clone, Copy, Default)]
pub struct NodeData {
    pub parent: Option<u32>,
    pub next: Option<u32>,
    pub first: Option<u32>,
    pub last: Option<u32>,
    pub kind: NodeKind,
}

// A card is four tables with their counts, by its format: links and runs in it are numbers of entries.
/// How many entries of each table a card uses.
#[derive(Clone, Copy, Default)]
pub struct TableCounts {
    pub nodes: usize,
    pub attributes: usize,
    pub bytes: usize,
    pub lengths: usize,
}

// Four slices and no heap: whoever has the tables lends them. The counts come apart, as a card keeps them and not its lender.
/// The four tables of a card, lent for reading.
#[derive(Clone, Copy)]
pub struct Tables<'a> {
    pub nodes: &'a [NodeData],
    pub attributes: &'a [Attribute],
    pub bytes: &'a [u8],
    pub lengths: &'a [Length],
}

/// A value with its reading, as the caller gives it.
#[derive(Clone, Copy)]
pub struct Value<'a> {
    pub bytes: &'a [u8],
    pub lengths: &'a [Length],
    pub marks: Marks,
}
