//! The closest `text` element, from a node upward.
ghost use Rattle.std.specs.Prelude.{◌≡◌};
ghost use Rattle.std.specs.Option.{option_map};
ghost use Rattle.names.specs.declared.EId.TheVariants as tag;
ghost use Rattle.card.specs.Contents.{above, has_tag};
ghost use Rattle.document.specs.Reads.{card_of, numbered};
ghost use Rattle.document.specs.Said.{first_passing};

use document::SvgNode;
use names::EId;
use values::closest_that;

/// The closest `text` element, from a node upward.
pub(crate) fn closest_text<'a>(node: SvgNode<'a>) -> Option<SvgNode<'a>>
    ensures { result ≡ option_map (numbered node.entry.doc) (first_passing (has_tag tag.Text (card_of node.entry.doc)) (above (card_of node.entry.doc) node.entry.id)) }
{
    closest_that(node, |at| at.has_tag(EId::Text))
}
