//! The keywords that an attribute's value may be.

/// Which point of a chunk stands at its place.
#[derive(Clone, Copy, Debug, PartialEq, Eq)]
pub enum TextAnchor {
    Start,
    Middle,
    End,
}

/// Which line of a text stands on the line of what lies around it.
#[derive(Clone, Copy, Debug, PartialEq, Eq)]
pub enum AlignmentBaseline {
    Auto,
    Baseline,
    BeforeEdge,
    TextBeforeEdge,
    Middle,
    Central,
    AfterEdge,
    TextAfterEdge,
    Ideographic,
    Alphabetic,
    Hanging,
    Mathematical,
}

/// Which line of a text its characters stand on.
#[derive(Clone, Copy, Debug, PartialEq, Eq)]
pub enum DominantBaseline {
    Auto,
    UseScript,
    NoChange,
    ResetSize,
    Ideographic,
    Alphabetic,
    Hanging,
    Mathematical,
    Central,
    Middle,
    TextAfterEdge,
    TextBeforeEdge,
}

/// What is stretched where a text is to have a given length.
#[derive(Clone, Copy, Debug, PartialEq, Eq)]
pub enum LengthAdjust {
    Spacing,
    SpacingAndGlyphs,
}

/// Whether a font is upright or slanted.
#[derive(Clone, Copy, Debug, PartialEq, Eq)]
pub enum FontStyle {
    Normal,
    Italic,
    Oblique,
}

/// Whether what is drawn is to be seen.
#[derive(Clone, Copy, Debug, PartialEq, Eq)]
pub enum Visibility {
    Visible,
    Hidden,
    Collapse,
}

/// A font size by name: seven sizes of their own, and two steps from the size around.
#[derive(Clone, Copy, Debug, PartialEq, Eq)]
pub enum NamedSize {
    XxSmall,
    XSmall,
    Small,
    Medium,
    Large,
    XLarge,
    XxLarge,
    Smaller,
    Larger,
}

/// The direction in which a text is written.
#[derive(Clone, Copy, Debug, PartialEq, Eq)]
pub enum WritingMode {
    LeftToRight,
    TopToBottom,
}
