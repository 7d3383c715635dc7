//! The element that a call is about.
ghost use Rattle.std.specs.Prelude.{◌≡◌};
ghost use Rattle.document.specs.Reads.{card_of};
ghost use Rattle.text.specs.Rotated.{text_checked};

use card::Fault;
use document::SvgNode;
use names::EId;

/// Refuses a number that is no `text` element.
pub(crate) fn check_text_element(node: SvgNode<'_>) -> Result<(), Fault>
    ensures { result ≡ text_checked (card_of node.entry.doc) node.entry.id }
{
    if node.has_tag(EId::Text) {
        Ok(())
    } else {
        Err(Fault::NotTextElement(node.id))
    }
}
