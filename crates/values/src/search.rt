//! One search for every kind of value: raw, own and nearest.
ghost use Rattle.std.specs.Prelude.{◌≡◌, take};
ghost use Rattle.std.specs.Option.{option_map};
ghost use Rattle.card.specs.Contents.{above};
ghost use Rattle.document.specs.Reads.{card_of, numbered};
ghost use Rattle.document.specs.Said.{first_passing};
ghost use Rattle.values.specs.Values.{has, is_absent, raw, own, closest, bearer, nearest};

use crate::from_value::FromValue;
use crate::upward::closest_among;
use card::MAX_DEPTH;
use document::SvgNode;
use names::AId;

// Whether a value says that there is none.
fn is_absent(name: AId, value: &[u8]) -> bool
    ensures { result ≡ is_absent name value.now }
{
    name.none_is_absent() && value == b"none".as_slice()
}

// The node is what is asked and the name is the question, as in `node.value(name)`: no struct for the two.
/// A raw value: what the first attribute of the name gives.
pub fn try_attribute<'a, T: FromValue<'a>>(node: SvgNode<'a>, name: AId) -> Option<T>
    ensures { option_map T.FromValue.shows result ≡ raw T.FromValue.reads (card_of node.entry.doc) node.entry.id name }
{
    let raw = node.value(name)?;
    T::from_value(raw)
}

/// An own value: as the raw one, but for some names `none` says that there is none.
pub fn attribute<'a, T: FromValue<'a>>(node: SvgNode<'a>, name: AId) -> Option<T>
    ensures { option_map T.FromValue.shows result ≡ own T.FromValue.reads (card_of node.entry.doc) node.entry.id name }
{
    let value = node.value(name)?;
    if is_absent(name, value.bytes) {
        return None;
    }
    T::from_value(value)
}

// The closest of the first `most` elements, from a node upward, that has the name.
fn find_among<'a>(node: SvgNode<'a>, name: AId, most: usize) -> Option<SvgNode<'a>>
    ensures { result ≡ option_map (numbered node.entry.doc) (first_passing (has name (card_of node.entry.doc)) (take most (above (card_of node.entry.doc) node.entry.id))) }
{
    closest_among(node, most, |at| at.has_attribute(name))
}

/// The closest element, from a node upward, that has the name, whatever its value.
pub fn closest_with<'a>(element: SvgNode<'a>, name: AId) -> Option<SvgNode<'a>>
    ensures { result ≡ option_map (numbered element.entry.doc) (closest (card_of element.entry.doc) element.entry.id name) }
{
    find_among(element, name, MAX_DEPTH)
}

// The element whose value counts for a node: of a name that is not inherited, the element itself or its parent.
fn find_attribute_impl<'a>(node: SvgNode<'a>, name: AId) -> Option<SvgNode<'a>>
    ensures { result ≡ option_map (numbered node.entry.doc) (bearer (card_of node.entry.doc) node.entry.id name) }
{
    if name.is_inheritable() {
        return find_among(node, name, MAX_DEPTH);
    }
    find_among(node, name, 2)
}

/// A nearest value: the own one of the closest element that has the name; one that does not read ends the search.
pub fn find_attribute<'a, T: FromValue<'a>>(node: SvgNode<'a>, name: AId) -> Option<T>
    ensures { option_map T.FromValue.shows result ≡ nearest T.FromValue.reads (card_of node.entry.doc) node.entry.id name }
{
    let element = find_attribute_impl(node, name)?;
    attribute::<T>(element, name)
}
