//! What building a card writes in its tables: one node more, values at the end of a table, one attribute more of an element.
#![tactic(auto)]

ghost use Rattle.std.specs.Prelude.{◌≡◌, ◌+◌, ◌^◌, ◌<◌, ◌≤◌, length, get_or, slice_index_or, slice_set};
ghost use Rattle.std.specs.Option.{unwrap_or};
ghost use Rattle.card.specs.Tables.{blank};
ghost use Rattle.build.specs.Edits.{added, laid, with_end, begun_nodes};

use card::{NodeData, NodeKind, Run};
use names::EId;

/// Makes entry `number` a node of this kind, the last child of `parent`.
pub fn add_node(nodes: &mut [NodeData], parent: u32, number: u32, kind: NodeKind)
    requires { (parent < number) × ((number < length nodes.old) × (unwrap_or (get_or nodes.old parent blank).last 0 < number)) }
    ensures { nodes.new ≡ added nodes.old parent number kind }
{
    let at = parent as usize;
    match nodes[at].last {
        None => {
            nodes[at].first = Some(number);
        }
        Some(last) => {
            nodes[last as usize].next = Some(number);
        }
    }
    nodes[at].last = Some(number);
    nodes[number as usize] = NodeData {
        parent: Some(parent),
        kind,
        ..NodeData::default()
    };
}

/// Copies the values into the table from entry `at` on.
pub fn lay<T: Copy>(table: &mut [T], at: usize, values: &[T])
    requires { (at + length values.now ≤ length table.old) × (length table.old < 2 ^ 64) }
    ensures { table.new ≡ laid table.old at values.now }
{
    let end = at + values.len();
    table[at..end].copy_from_slice(values);
}

/// Lets the attributes of an element end at entry `end`; a node that is no element stays.
pub fn end_attributes(nodes: &mut [NodeData], element: u32, end: u32)
    requires { element < length nodes.old }
    ensures { nodes.new ≡ slice_set nodes.old element (with_end (slice_index_or nodes.old element blank) end) }
{
    let at = element as usize;
    let node = nodes[at];
    nodes[at].kind = match node.kind {
        NodeKind::Element { tag, attributes } => NodeKind::Element {
            tag,
            attributes: Run { end, ..attributes },
        },
        other => other,
    };
}

/// Writes the root, and an `svg` inside it.
pub fn begin_nodes(nodes: &mut [NodeData])
    requires { 2 ≤ length nodes.old }
    ensures { nodes.new ≡ begun_nodes nodes.old }
{
    nodes[0] = NodeData {
        first: Some(1),
        last: Some(1),
        ..NodeData::default()
    };
    nodes[1] = NodeData {
        parent: Some(0),
        kind: NodeKind::Element {
            tag: EId::Svg,
            attributes: Run::default(),
        },
        ..NodeData::default()
    };
}
