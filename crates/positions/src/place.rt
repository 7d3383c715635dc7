//! The positions of an element's characters.
ghost use Rattle.std.specs.Prelude.{◌≡◌, ◌≤◌, true, length};
ghost use Rattle.document.specs.Reads.{card_of, is_element};
ghost use Rattle.characters.specs.Characters.{characters};
ghost use Rattle.positions.specs.Stacked.{Each};
ghost use Rattle.positions.specs.Innermost.{filled};
ghost use Rattle.positions.specs.Positions.{has_lists, listed, put, replaced, positions};

use crate::layer::{Layer, lay_all};
use crate::position::{Axis, Position};
use characters::count_chars_below;
use document::SvgNode;
use names::EId;
use units::{Settings, convert_list};

// Lays the positions of elements over their characters.
#[derive(Clone, Copy)]
struct PositionLayer {
    settings: Settings,
}

// Whether an element's lists place its characters: a `textPath` has none of its own.
fn has_lists(node: SvgNode<'_>) -> bool
    ensures { result ≡ has_lists (card_of node.entry.doc) node.entry.id }
{
    matches!(node.tag(), Some(EId::Text | EId::Tspan))
}

// Lays an element's list of one coordinate over its characters, as far as it reaches.
fn lay_list(node: SvgNode<'_>, axis: Axis, settings: &Settings, part: &mut [Position])
    ensures { Each (λ j p. put axis p (listed settings.now (card_of node.entry.doc) axis node.entry.id j)) part.old part.new }
{
    if let Some(list) = convert_list(node, axis.name(), settings) {
        for (i, position) in part.iter_mut().enumerate() {
            *position = position.put(axis, list.get(i));
        }
    }
}

impl Layer<Position> for PositionLayer {
    ghost change = { λ l card e j p. replaced l.settings card e j p };

    fn lay(&self, node: SvgNode<'_>, part: &mut [Position]) {
        if has_lists(node) {
            // Four calls and no loop: over an array of axes it would be as long, with an invariant.
            lay_list(node, Axis::X, &self.settings, part);
            lay_list(node, Axis::Y, &self.settings, part);
            lay_list(node, Axis::Dx, &self.settings, part);
            lay_list(node, Axis::Dy, &self.settings, part);
        }
    }
}

/// Writes the positions of an element's characters into the front of a table; later entries stay.
pub fn resolve_positions_list(node: SvgNode<'_>, settings: &Settings, table: &mut [Position])
    requires element { is_element (card_of node.doc) node.id ≡ true }
    requires room { length (characters (card_of node.doc) node.id) ≤ length table.old }
    ensures { table.new ≡ filled table.old (positions settings.now (card_of node.entry.doc) node.entry.id) }
{
    let count = count_chars_below(node);
    table[..count].fill(Position::default());
    let layer = PositionLayer {
        settings: *settings,
    };
    lay_all(&layer, node, table);
}
