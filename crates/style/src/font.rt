//! The font of what stands in an element.
ghost use Rattle.std.specs.Prelude.{◌≡◌, ◌≤◌};
ghost use Rattle.document.specs.Reads.{card_of};
ghost use Rattle.style.specs.Fonts.{font_style, font_stretch, reweighed, own_weight, weight, small_caps, optical_sizing, visible};

use crate::keyword::{FontOpticalSizing, FontStretch, Weighing};
use crate::words::is_nearest;
use document::SvgNode;
use names::AId;
use values::{FontStyle, Visibility, attribute, find_attribute, step_down};

/// Whether the font is upright or slanted.
pub fn font_style(node: SvgNode<'_>) -> FontStyle
    ensures { result ≡ font_style (card_of node.entry.doc) node.entry.id }
{
    find_attribute::<FontStyle>(node, AId::FontStyle).unwrap_or(FontStyle::Normal)
}

// As the one above, under usvg's own name: a function for both would be given all that the line says.
/// How wide the font is.
pub fn font_stretch(node: SvgNode<'_>) -> FontStretch
    ensures { result ≡ font_stretch (card_of node.entry.doc) node.entry.id }
{
    find_attribute::<FontStretch>(node, AId::FontStretch).unwrap_or(FontStretch::Normal)
}

// What a `font-weight` makes of the weight around it.
fn reweigh(weighing: Weighing, around: u16) -> u16
    ensures { result ≡ reweighed around weighing }
{
    match weighing {
        Weighing::Fixed(weight) => weight,
        Weighing::Bolder if around <= 300 => 400,
        Weighing::Bolder if around <= 500 => 700,
        Weighing::Bolder => 900,
        Weighing::Lighter if around <= 500 => 100,
        Weighing::Lighter if around <= 700 => 400,
        Weighing::Lighter => 700,
    }
}

// What an element's own `font-weight` makes of the weight around it.
fn own_weight(node: SvgNode<'_>, around: u16) -> u16
    ensures { result ≡ own_weight (card_of node.entry.doc) node.entry.id around }
{
    let own = attribute::<Weighing>(node, AId::FontWeight);
    own.map_or(around, |weighing| reweigh(weighing, around))
}

/// How bold the font is: from 400, then from the outermost element down.
pub fn resolve_font_weight(node: SvgNode<'_>) -> u16
    ensures { result ≡ weight (card_of node.entry.doc) node.entry.id }
{
    let step = |id, around| own_weight(node.doc.node(id), around);
    step_down(node, 400, &step)
}

/// Whether small letters are shown as small capitals.
pub fn is_small_caps(node: SvgNode<'_>) -> bool
    ensures { result ≡ small_caps (card_of node.entry.doc) node.entry.id }
{
    is_nearest(node, AId::FontVariant, b"small-caps")
}

/// Whether the font is fitted to the size at which it is shown.
pub fn font_optical_sizing(node: SvgNode<'_>) -> FontOpticalSizing
    ensures { result ≡ optical_sizing (card_of node.entry.doc) node.entry.id }
{
    if is_nearest(node, AId::FontOpticalSizing, b"none") {
        FontOpticalSizing::None
    } else {
        FontOpticalSizing::Auto
    }
}

/// Whether what stands in the element is to be seen.
pub fn is_visible(node: SvgNode<'_>) -> bool
    ensures { result ≡ visible (card_of node.entry.doc) node.entry.id }
{
    find_attribute::<Visibility>(node, AId::Visibility).unwrap_or(Visibility::Visible)
        == Visibility::Visible
}
