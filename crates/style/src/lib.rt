//! The style of a text: its font, its lines, its spacing and its paint.
#![tactic(auto)]

mod font;
mod keyword;
mod paint;
mod paint_table;
mod spacing;
mod upward;
mod words;

pub use font::{
    font_optical_sizing, font_stretch, font_style, is_small_caps, is_visible, resolve_font_weight,
};
pub use keyword::{FontOpticalSizing, FontStretch};
pub use paint::{ClipPaint, NoPaint, Paint};
pub use paint_table::PaintTable;
pub use spacing::{applies_kerning, length_adjust, letter_spacing, text_length, word_spacing};
