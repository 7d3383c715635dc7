//! The attributes of a text's elements that are asked for by name.
ghost use Rattle.std.specs.Prelude.{◌≡◌};
ghost use Rattle.std.specs.Option.{option_map};
ghost use Rattle.document.specs.Reads.{card_of};
ghost use Rattle.values.specs.Attributes.{anchor_at, writing_mode, undisplayed, angles_of};
ghost use Rattle.values.specs.Kinds.{numbers_shown};

use crate::keyword::{TextAnchor, WritingMode};
use crate::kinds::{NumberList, Text};
use crate::search::{attribute, find_attribute};
use document::SvgNode;
use names::AId;

/// The anchor of what stands in an element.
pub fn text_anchor(node: SvgNode<'_>) -> TextAnchor
    ensures { result ≡ anchor_at (card_of node.entry.doc) node.entry.id }
{
    find_attribute::<TextAnchor>(node, AId::TextAnchor).unwrap_or(TextAnchor::Start)
}

// As the one above, under usvg's own name: a function for both would be given all that the line says.
/// The direction in which an element is written.
pub fn convert_writing_mode(node: SvgNode<'_>) -> WritingMode
    ensures { result ≡ writing_mode (card_of node.entry.doc) node.entry.id }
{
    find_attribute::<WritingMode>(node, AId::WritingMode).unwrap_or(WritingMode::LeftToRight)
}

/// Whether an element's own `display` is `none`.
pub fn is_undisplayed(node: SvgNode<'_>) -> bool
    ensures { result ≡ undisplayed (card_of node.entry.doc) node.entry.id }
{
    attribute::<Text>(node, AId::Display).is_some_and(|Text(value)| value == b"none".as_slice())
}

/// An element's own list of angles, as bare numbers.
pub fn rotate_list<'a>(node: SvgNode<'a>) -> Option<NumberList<'a>>
    ensures { option_map numbers_shown result ≡ angles_of (card_of node.entry.doc) node.entry.id }
{
    attribute::<NumberList>(node, AId::Rotate)
}
