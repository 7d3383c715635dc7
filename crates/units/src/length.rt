//! Lengths in the units of the view. Each operation rounds once to f32, in the order in which it is written.
ghost use Rattle.std.specs.Prelude.{◌≡◌};
ghost use Rattle.units.specs.Constants.{Constants};
ghost use Rattle.units.specs.Lengths.{absolute, length_of, base_for};

use crate::settings::Settings;
use card::Length;
use names::{AId, LengthUnit};

// A length that is no percent; `size` is the font size where it stands.
pub(crate) fn absolute_length(length: Length, dpi: f32, size: f32) -> Option<f32>
    ensures { result ≡ absolute dpi size length }
{
    let n = length.number;
    match length.unit {
        LengthUnit::None | LengthUnit::Px => Some(n),
        LengthUnit::Em => Some(n * size),
        LengthUnit::Ex => Some(n * size / 2.0),
        LengthUnit::In => Some(n * dpi),
        LengthUnit::Cm => Some(n * dpi / 2.54),
        LengthUnit::Mm => Some(n * dpi / 25.4),
        LengthUnit::Pt => Some(n * dpi / 72.0),
        LengthUnit::Pc => Some(n * dpi / 6.0),
        LengthUnit::Percent => None,
    }
}

// usvg's name, and its arguments one by one: the size and the base are those of a node, the settings of all.
/// A length as a number of view units; `size` is the font size where it stands, `base` what a percent is of.
pub fn convert_length(length: Length, settings: &Settings, size: f32, base: f32) -> f32
    ensures answer { result ≡ length_of settings.now size base length }
    ensures each_literal_is_the_nearest_f32 { Constants }
{
    absolute_length(length, settings.dpi, size).unwrap_or(base * length.number / 100.0)
}

// What a percent of an attribute is of.
pub(crate) fn percent_base(name: AId, settings: &Settings) -> f32
    ensures { result ≡ base_for settings.now name }
{
    match name {
        AId::X | AId::Dx => settings.width,
        AId::Y | AId::Dy => settings.height,
        _ => settings.diagonal,
    }
}
