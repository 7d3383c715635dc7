//! Lengths where they stand: an element's own list, and the closest one from an element upward.
ghost use Rattle.std.specs.Prelude.{◌≡◌, length};
ghost use Rattle.std.specs.Option.{option_map};
ghost use Rattle.std.specs.List.{slice_get};
ghost use Rattle.document.specs.Reads.{card_of};
ghost use Rattle.units.specs.Measured.{length_at, list_of, list_shown, resolved};

use crate::length::{convert_length, percent_base};
use crate::settings::Settings;
use crate::size::resolve_font_size;
use card::Length;
use document::SvgNode;
use names::AId;
use values::{LengthList, attribute, closest_with};

/// An element's own list of lengths, each converted when it is asked for.
#[derive(Clone, Copy)]
pub struct ConvertedList<'a> {
    lengths: &'a [Length],
    settings: Settings,
    size: f32,
    base: f32,
}

impl ConvertedList<'_> {
    /// How many lengths there are.
    pub fn len(self) -> usize
        ensures { result ≡ length (list_shown self.entry) }
    {
        self.lengths.len()
    }

    /// The length at a place, if the list reaches it.
    pub fn get(self, i: usize) -> Option<f32>
        ensures { result ≡ slice_get (list_shown self.entry) i }
    {
        let ConvertedList {
            lengths,
            settings,
            size,
            base,
        } = self;
        let length = *lengths.get(i)?;
        Some(convert_length(length, &settings, size, base))
    }
}

/// An element's own list of lengths.
pub fn convert_list<'a>(
    node: SvgNode<'a>,
    name: AId,
    settings: &Settings,
) -> Option<ConvertedList<'a>>
    ensures { option_map list_shown result ≡ list_of settings.now (card_of node.entry.doc) node.entry.id name }
{
    let LengthList(lengths) = attribute::<LengthList>(node, name)?;
    Some(ConvertedList {
        lengths,
        settings: *settings,
        size: resolve_font_size(node, settings),
        base: percent_base(name, settings),
    })
}

// An element's own length.
fn own_length(node: SvgNode<'_>, name: AId, settings: &Settings) -> Option<f32>
    ensures { result ≡ length_at settings.now (card_of node.entry.doc) node.entry.id name }
{
    let length = attribute::<Length>(node, name)?;
    let size = resolve_font_size(node, settings);
    let base = percent_base(name, settings);
    Some(convert_length(length, settings, size, base))
}

/// The length of the closest element with the name, whatever its value, if that is one length; else the default.
pub fn resolve_length(node: SvgNode<'_>, name: AId, settings: &Settings, default: f32) -> f32
    ensures { result ≡ resolved settings.now (card_of node.entry.doc) node.entry.id name default }
{
    let Some(element) = closest_with(node, name) else {
        return default;
    };
    own_length(element, name, settings).unwrap_or(default)
}
