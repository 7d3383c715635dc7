//! The attributes of an element: the first of a name counts.
ghost use Rattle.std.specs.Prelude.{◌≡◌, true, map, is_some};
ghost use Rattle.std.specs.Option.{option_map};
ghost use Rattle.card.specs.Contents.{item, attrs_of};
ghost use Rattle.card.specs.Lists.{all};
ghost use Rattle.card.specs.Tables.{entries, attr_of};
ghost use Rattle.card.specs.TableOrder.{attribute_in_order};
ghost use Rattle.document.specs.Reads.{card_of};
ghost use Rattle.document.specs.Said.{said, said_by, first_passing, entry_named, attribute as first_attribute};

use crate::node::SvgNode;
use card::{Attribute, NodeKind, Value};
use names::AId;

// The first of some attributes that has the name.
fn first_named(attributes: &[Attribute], name: AId) -> Option<Attribute>
    ensures { result ≡ first_passing (entry_named name) attributes.now }
{
    attributes
        .iter()
        .copied()
        .find(|attribute| attribute.name == name)
}

impl<'a> SvgNode<'a> {
    // An element's attributes; none for any other node.
    fn attributes(self) -> &'a [Attribute]
        ensures contents { map (attr_of (entries self.entry.doc.tables)) result.now ≡ attrs_of (item (card_of self.entry.doc) self.entry.id) }
        ensures in_order { all (attribute_in_order (entries self.entry.doc.tables) self.entry.doc.counts) result.now ≡ true }
    {
        match self.kind() {
            NodeKind::Element { attributes, .. } => attributes.entries(self.doc.tables.attributes),
            _ => &[],
        }
    }

    // An attribute's value with its reading.
    fn value_of(self, attribute: Attribute) -> Value<'a>
        requires { attribute_in_order (entries self.doc.tables) self.doc.counts attribute ≡ true }
        ensures { said result ≡ said_by (attr_of (entries self.entry.doc.tables) attribute) }
    {
        Value {
            bytes: attribute.value.entries(self.doc.tables.bytes),
            lengths: attribute.lengths.entries(self.doc.tables.lengths),
            marks: attribute.marks,
        }
    }

    /// The value of the first attribute of a name, as it lies in the tables.
    pub fn value(self, name: AId) -> Option<Value<'a>>
        ensures { option_map said result ≡ option_map said_by (first_attribute (card_of self.entry.doc) self.entry.id name) }
    {
        let attribute = first_named(self.attributes(), name)?;
        Some(self.value_of(attribute))
    }

    /// Whether an element has an attribute of the name.
    pub fn has_attribute(self, name: AId) -> bool
        ensures { result ≡ is_some (first_attribute (card_of self.entry.doc) self.entry.id name) }
    {
        first_named(self.attributes(), name).is_some()
    }
}
