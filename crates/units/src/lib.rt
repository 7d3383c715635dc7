//! Lengths and font sizes as f32, from the readings on the card.
#![tactic(auto)]

mod length;
mod list;
mod settings;
mod size;

pub use length::convert_length;
pub use list::{ConvertedList, convert_list, resolve_length};
pub use settings::{Settings, check_settings};
pub use size::resolve_font_size;
