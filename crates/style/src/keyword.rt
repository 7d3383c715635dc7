//! The keywords of a font.

/// How wide a font is.
#[derive(Clone, Copy, Debug, PartialEq, Eq)]
pub enum FontStretch {
    Normal,
    UltraCondensed,
    ExtraCondensed,
    Condensed,
    SemiCondensed,
    SemiExpanded,
    Expanded,
    ExtraExpanded,
    UltraExpanded,
}

/// Whether a font is fitted to the size at which it is shown.
#[derive(Clone, Copy, Debug, PartialEq, Eq)]
pub enum FontOpticalSizing {
    Auto,
    None,
}

/// What a `font-weight` says: a weight, or a step from the weight around.
#[derive(Clone, Copy, Debug, PartialEq, Eq)]
pub enum Weighing {
    Fixed(u16),
    Bolder,
    Lighter,
}
