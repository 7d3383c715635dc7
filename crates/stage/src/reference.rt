//! References by `#` and an id: the highest element of the id counts.
ghost use Rattle.std.specs.Prelude.{◌≡◌};
ghost use Rattle.std.specs.Option.{option_map};
ghost use Rattle.document.specs.Reads.{card_of};
ghost use Rattle.stage.specs.Languages.{referred, called, named, path_of};

use document::{Document, SvgNode};
use names::{AId, EId};
use values::{Text, attribute};

// What a reference names: the rest after `#`.
fn referred_id(href: &[u8]) -> Option<&[u8]>
    ensures { option_map (λ x. x.now) result ≡ referred href.now }
{
    match href {
        [b'#', id @ ..] if !id.is_empty() => Some(id),
        _ => None,
    }
}

// Whether a node is an element whose own `id` is this.
fn is_called(node: SvgNode<'_>, id: &[u8]) -> bool
    ensures { result ≡ called (card_of node.entry.doc) id.now node.entry.id }
{
    node.is_element() && attribute::<Text>(node, AId::Id).is_some_and(|Text(value)| value == id)
}

// The highest element with an id.
fn find_named(doc: Document<'_>, id: &[u8]) -> Option<u32>
    ensures { result ≡ named (card_of doc.entry) id.now }
{
    (0..doc.len() as u32)
        .rev()
        .find(|k| is_called(doc.node(*k), id))
}

/// The path that an element refers to by its own `href`.
pub(crate) fn path_of(node: SvgNode<'_>) -> Option<u32>
    ensures { result ≡ path_of (card_of node.entry.doc) node.entry.id }
{
    let Text(href) = attribute::<Text>(node, AId::Href)?;
    let id = referred_id(href)?;
    let named = find_named(node.doc, id)?;
    node.doc.node(named).has_tag(EId::Path).then_some(named)
}
