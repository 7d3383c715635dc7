//! A cursor over the edges of a subtree: it matches its own edge with the node's links and replaces itself.
ghost use Rattle.std.specs.Prelude.{◌≡◌, ℕ, ◌+◌, ◌<◌, length};
ghost use Rattle.card.specs.declared.record.TableCounts.{TableCounts};
ghost use Rattle.card.specs.Contents.{Card};
ghost use Rattle.card.specs.Tables.{Entries, contents};
ghost use Rattle.card.specs.TableOrder.{TablesInOrder};
ghost use Rattle.traverse.specs.Cursor.{number_of, begun, stepped, moved};
ghost use Rattle.traverse.specs.Subtree.{Stands, Visits};

use card::NodeData;

/// An edge of the walk: a node's beginning, before all that lies in it, or its end.
#[derive(Clone, Copy, PartialEq)]
pub enum Edge {
    Open(u32),
    Close(u32),
}

/// A cursor over the edges of a subtree; it stands at one until the walk has ended.
#[derive(Clone, Copy)]
pub struct Traverse {
    root: u32,
    edge: Option<Edge>,
}

impl Edge {
    /// The number of the edge's node.
    fn number(self) -> u32
        ensures { result ≡ number_of self }
    {
        match self {
            Edge::Open(node) | Edge::Close(node) => node,
        }
    }
}

impl Traverse {
    /// A cursor at the opening edge of the node `start`, over all that lies in it.
    pub fn new(start: u32) -> Traverse
        ensures opens { result ≡ begun start }
        ensures stands_at_the_first_edge { (card : Card) → start < length card → Stands card start 0 result }
    {
        Traverse {
            root: start,
            edge: Some(Edge::Open(start)),
        }
    }

    /// The edge where the cursor stands; none once the walk has ended.
    pub fn edge(&self) -> Option<Edge>
        ensures { result ≡ self.now.edge }
    {
        self.edge
    }

    /// Goes on to the next edge, by the links of `nodes`; a number past the table ends the walk.
    pub fn step(&mut self, nodes: &[NodeData])
        ensures steps { self.new ≡ stepped nodes.now self.old }
        ensures visits_exactly_the_subtree { (e : Entries) (c : TableCounts) → e.nodes ≡ nodes.now → TablesInOrder e c → (k i : ℕ) → Stands (contents e c) k i self.old → Stands (contents e c) k (i + 1) self.new }
    {
        let Traverse { root, edge } = *self;
        let Some(edge) = edge else {
            return;
        };
        let at = edge.number() as usize;
        if at >= nodes.len() {
            *self = Traverse { root, edge: None };
            return;
        }
        let node = nodes[at];
        let edge = match (edge, node.first, node.next, node.parent) {
            (Edge::Open(_), Some(child), _, _) => Some(Edge::Open(child)),
            (Edge::Open(k), None, _, _) => Some(Edge::Close(k)),
            (Edge::Close(k), _, _, _) if k == root => None,
            (Edge::Close(_), _, Some(next), _) => Some(Edge::Open(next)),
            (Edge::Close(_), _, None, Some(parent)) => Some(Edge::Close(parent)),
            (Edge::Close(_), _, None, None) => None,
        };
        *self = Traverse { root, edge };
    }
}

/// Where a cursor from the node `start` stands after some steps.
pub fn edge_at(nodes: &[NodeData], start: u32, steps: usize) -> Option<Edge>
    ensures steps { result ≡ (moved nodes.now steps (begun start)).edge }
    ensures visits_exactly_the_subtree { (e : Entries) (c : TableCounts) → e.nodes ≡ nodes.now → TablesInOrder e c → start < c.nodes → Visits (contents e c) start steps result }
{
    let mut cursor = Traverse::new(start);
    for _ in 0..steps {
        cursor.step(nodes);
    }
    cursor.edge()
}
