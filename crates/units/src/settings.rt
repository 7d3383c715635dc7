//! What lengths and sizes are computed from.
ghost use Rattle.std.specs.Prelude.{◌≡◌};
ghost use Rattle.units.specs.Lengths.{in_range, rows, first_out_of_range, settings_refused};

use card::{Fault, Setting};

// They go beside a node and not into it: one set serves all nodes of a card, and another may be tried. And beside a size:
// that changes from element to element, and they do not. And beside a name: that is the question.
/// What lengths and sizes are computed from: dots to the inch, the size to begin with, and the view's measures.
#[derive(Clone, Copy)]
pub struct Settings {
    pub dpi: f32,
    pub size: f32,
    pub width: f32,
    pub height: f32,
    pub diagonal: f32,
}

// Whether a setting is finite and above 0.
fn is_in_range(x: f32) -> bool
    ensures { result ≡ in_range x }
{
    x.is_finite() && x > 0.0
}

impl Settings {
    // Each setting with its value, in the order in which they are checked.
    fn rows(&self) -> [(Setting, f32); 5]
        ensures { result ≡ rows self.now }
    {
        [
            (Setting::Dpi, self.dpi),
            (Setting::Size, self.size),
            (Setting::Width, self.width),
            (Setting::Height, self.height),
            (Setting::Diagonal, self.diagonal),
        ]
    }
}

// The first setting that is out of range.
fn find_out_of_range(settings: &Settings) -> Option<Setting>
    ensures { result ≡ first_out_of_range settings.now }
{
    settings
        .rows()
        .iter()
        .find(|row| !is_in_range(row.1))
        .map(|row| row.0)
}

/// Refuses settings of which one is not finite and above 0: the first such is named.
pub fn check_settings(settings: &Settings) -> Result<(), Fault>
    ensures { result ≡ settings_refused (first_out_of_range settings.now) }
{
    match find_out_of_range(settings) {
        None => Ok(()),
        Some(setting) => Err(Fault::SettingOutOfRange(setting)),
    }
}
