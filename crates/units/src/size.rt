//! The size of an element's font.
ghost use Rattle.std.specs.Prelude.{◌≡◌, Some};
ghost use Rattle.document.specs.Reads.{card_of};
ghost use Rattle.units.specs.Sizes.{scale, is_absolute, size_by_length, size_by_word, own_size, size};

use crate::length::absolute_length;
use crate::settings::Settings;
use card::Length;
use document::SvgNode;
use names::AId;
use values::{NamedSize, step_down, try_attribute};

const STEP: f32 = 1.2;

// The factor of a word for a size: powers of 1.2.
fn scale_of(word: NamedSize) -> f32
    ensures { result ≡ scale word }
{
    match word {
        NamedSize::XxSmall => 1.0 / (STEP * (STEP * STEP)),
        NamedSize::XSmall => 1.0 / (STEP * STEP),
        NamedSize::Small | NamedSize::Smaller => 1.0 / STEP,
        NamedSize::Medium => 1.0,
        NamedSize::Large | NamedSize::Larger => STEP,
        NamedSize::XLarge => STEP * STEP,
        NamedSize::XxLarge => STEP * (STEP * STEP),
    }
}

// A size by a word: one of its own, or a step from the size around.
fn convert_named_font_size(word: NamedSize, settings: &Settings, around: f32) -> f32
    ensures { result ≡ size_by_word settings.now around (Some word) }
{
    match word {
        NamedSize::Smaller | NamedSize::Larger => around * scale_of(word),
        _ => settings.size * scale_of(word),
    }
}

// A size by a length: a percent is of the size around.
fn convert_font_length(length: Length, settings: &Settings, around: f32) -> f32
    ensures { result ≡ size_by_length settings.now around length }
{
    absolute_length(length, settings.dpi, around).unwrap_or(length.number * around * 0.01)
}

// What an element's own font-size makes of the size around it.
fn own_font_size(node: SvgNode<'_>, settings: &Settings, around: f32) -> f32
    ensures { result ≡ own_size settings.now (card_of node.entry.doc) node.entry.id around }
{
    if let Some(length) = try_attribute::<Length>(node, AId::FontSize) {
        return convert_font_length(length, settings, around);
    }
    if let Some(word) = try_attribute::<NamedSize>(node, AId::FontSize) {
        return convert_named_font_size(word, settings, around);
    }
    if node.has_attribute(AId::FontSize) {
        return around * 1.0;
    }
    around
}

/// The size of an element's font: from the setting, then from the outermost element down to it.
pub fn resolve_font_size(node: SvgNode<'_>, settings: &Settings) -> f32
    ensures { result ≡ size settings.now (card_of node.entry.doc) node.entry.id }
{
    let step = |id, around| own_font_size(node.doc.node(id), settings, around);
    step_down(node, settings.size, &step)
}
