//! The angles of an element's characters.
ghost use Rattle.std.specs.Prelude.{◌≡◌, OnErr};
ghost use Rattle.card.specs.Tables.{entries};
ghost use Rattle.text.specs.Rotated.{rotated};

use crate::element::check_text_element;
use card::{Fault, Tables};
use characters::count_chars_below;
use document::Document;
use order::check_card;
use positions::resolve_rotate_list;
use svgtree::Sealed;

/// Writes the angles of a `text` element's characters into the front of a table, and answers how many they are; entries
/// after them stay as they are.
pub fn rotations(
    card: &Sealed,
    tables: Tables<'_>,
    element: u32,
    angles: &mut [f32],
) -> Result<usize, Fault>
    ensures answer_and_angles { (result, angles.new) ≡ rotated (entries tables.entry) card.now.counts element angles.old }
    ensures a_refusal_changes_nothing { OnErr result (angles.new ≡ angles.old) }
{
    let counts = card.counts();
    check_card(tables, counts)?;
    let node = Document::new(tables, counts).node(element);
    check_text_element(node)?;
    let count = count_chars_below(node);
    if angles.len() < count {
        return Err(Fault::AnglesShort(count));
    }
    resolve_rotate_list(node, angles);
    Ok(count)
}
