//! How far apart the characters of an element stand, and how long its text is.
ghost use Rattle.std.specs.Prelude.{◌≡◌};
ghost use Rattle.document.specs.Reads.{card_of};
ghost use Rattle.style.specs.Spacing.{kerning, letters_apart, words_apart, long, adjusted};

use crate::words::is_nearest;
use card::Length;
use document::SvgNode;
use names::AId;
use units::{Settings, convert_length, resolve_font_size, resolve_length};
use values::{LengthAdjust, attribute};

/// Whether pairs of characters are moved together as the font says.
pub fn applies_kerning(node: SvgNode<'_>, settings: &Settings) -> bool
    ensures { result ≡ kerning settings.now (card_of node.entry.doc) node.entry.id }
{
    !(resolve_length(node, AId::Kerning, settings, -1.0) == 0.0
        || is_nearest(node, AId::FontKerning, b"none"))
}

/// What is added between two characters.
pub fn letter_spacing(node: SvgNode<'_>, settings: &Settings) -> f32
    ensures { result ≡ letters_apart settings.now (card_of node.entry.doc) node.entry.id }
{
    resolve_length(node, AId::LetterSpacing, settings, 0.0)
}

// As the one above, under usvg's own name: a function for both would be given all that the line says.
/// What is added between two words.
pub fn word_spacing(node: SvgNode<'_>, settings: &Settings) -> f32
    ensures { result ≡ words_apart settings.now (card_of node.entry.doc) node.entry.id }
{
    resolve_length(node, AId::WordSpacing, settings, 0.0)
}

/// The length that the element asks for its text; one below 0 is none.
pub fn text_length(node: SvgNode<'_>, settings: &Settings) -> Option<f32>
    ensures { result ≡ long settings.now (card_of node.entry.doc) node.entry.id }
{
    let length = attribute::<Length>(node, AId::TextLength)?;
    let size = resolve_font_size(node, settings);
    let n = convert_length(length, settings, size, settings.diagonal);
    if n < 0.0 { None } else { Some(n) }
}

/// What is stretched to reach that length.
pub fn length_adjust(node: SvgNode<'_>) -> LengthAdjust
    ensures { result ≡ adjusted (card_of node.entry.doc) node.entry.id }
{
    attribute::<LengthAdjust>(node, AId::LengthAdjust).unwrap_or(LengthAdjust::Spacing)
}
