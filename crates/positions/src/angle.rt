//! The angles of an element's characters.
ghost use Rattle.std.specs.Prelude.{◌≡◌, ◌≤◌, true, length};
ghost use Rattle.std.specs.Option.{unwrap_or};
ghost use Rattle.document.specs.Reads.{card_of, is_element};
ghost use Rattle.characters.specs.Characters.{characters};
ghost use Rattle.positions.specs.Innermost.{filled};
ghost use Rattle.positions.specs.Angles.{at_or_last, turned, angles};

use crate::layer::{Layer, lay_all};
use card::Length;
use characters::count_chars_below;
use document::SvgNode;
use values::{NumberList, rotate_list};

// Lays the angles of elements over their characters.
#[derive(Clone, Copy)]
struct AngleLayer;

// The number at a place of a list, or its last; an empty list has none.
fn at_or_last(list: &[Length], i: usize) -> Option<f32>
    ensures { result ≡ at_or_last list.now i }
{
    let at = i.min(list.len().saturating_sub(1));
    Some(list.get(at)?.number)
}

impl Layer<f32> for AngleLayer {
    ghost change = { λ l card e j a. unwrap_or (turned card e j) a };

    fn lay(&self, node: SvgNode<'_>, part: &mut [f32]) {
        if let Some(NumberList(list)) = rotate_list(node) {
            for (i, angle) in part.iter_mut().enumerate() {
                *angle = at_or_last(list, i).unwrap_or(*angle);
            }
        }
    }
}

/// Writes the angles of an element's characters into the front of a table; later entries stay.
pub fn resolve_rotate_list(node: SvgNode<'_>, table: &mut [f32])
    requires element { is_element (card_of node.doc) node.id ≡ true }
    requires room { length (characters (card_of node.doc) node.id) ≤ length table.old }
    ensures { table.new ≡ filled table.old (angles (card_of node.entry.doc) node.entry.id) }
{
    let count = count_chars_below(node);
    table[..count].fill(0.0);
    lay_all(&AngleLayer, node, table);
}
