//! The words of each keyword, and the kinds of value that are one of them.
ghost use Rattle.std.specs.Prelude.{◌≡◌};
ghost use Rattle.names.specs.Rows.{shown};
ghost use Rattle.values.specs.declared.keyword.AlignmentBaseline.{AlignmentBaseline};
ghost use Rattle.values.specs.declared.keyword.DominantBaseline.{DominantBaseline};
ghost use Rattle.values.specs.declared.keyword.FontStyle.{FontStyle};
ghost use Rattle.values.specs.declared.keyword.LengthAdjust.{LengthAdjust};
ghost use Rattle.values.specs.declared.keyword.NamedSize.{NamedSize};
ghost use Rattle.values.specs.declared.keyword.TextAnchor.{TextAnchor};
ghost use Rattle.values.specs.declared.keyword.Visibility.{Visibility};
ghost use Rattle.values.specs.declared.keyword.WritingMode.{WritingMode};
ghost use Rattle.values.specs.Keywords.{Words, as_keyword, anchor_words, alignment_words, dominant_words, adjust_words, style_words, visibility_words, size_words, as_writing_mode};

use crate::from_value::FromValue;
use crate::keyword::{
    AlignmentBaseline, DominantBaseline, FontStyle, LengthAdjust, NamedSize, TextAnchor,
    Visibility, WritingMode,
};
use card::Value;
use names::find;

const VERTICALS: [(WritingMode, &str); 4] = [
    (WritingMode::TopToBottom, "tb"),
    (WritingMode::TopToBottom, "tb-rl"),
    (WritingMode::TopToBottom, "vertical-rl"),
    (WritingMode::TopToBottom, "vertical-lr"),
];

/// A kind of value that is one of some words, each beside what it means.
pub trait Keyword: Copy + 'static {
    ghost words: { Words Self };

    /// The words, with their meanings.
    fn words() -> &'static [(Self, &'static str)]
        ensures { shown result.now ≡ words };
}

impl<'a, K: Keyword> FromValue<'a> for K {
    ghost Meaning = { K };

    ghost shows = { λ x. x };

    ghost reads = { as_keyword K.words };

    fn from_value(value: Value<'a>) -> Option<K> {
        find(K::words(), value.bytes)
    }
}

impl Keyword for TextAnchor {
    ghost words = { anchor_words };

    fn words() -> &'static [(TextAnchor, &'static str)] {
        &[
            (TextAnchor::Start, "start"),
            (TextAnchor::Middle, "middle"),
            (TextAnchor::End, "end"),
        ]
    }
}

impl Keyword for AlignmentBaseline {
    ghost words = { alignment_words };

    fn words() -> &'static [(AlignmentBaseline, &'static str)] {
        &[
            (AlignmentBaseline::Auto, "auto"),
            (AlignmentBaseline::Baseline, "baseline"),
            (AlignmentBaseline::BeforeEdge, "before-edge"),
            (AlignmentBaseline::TextBeforeEdge, "text-before-edge"),
            (AlignmentBaseline::Middle, "middle"),
            (AlignmentBaseline::Central, "central"),
            (AlignmentBaseline::AfterEdge, "after-edge"),
            (AlignmentBaseline::TextAfterEdge, "text-after-edge"),
            (AlignmentBaseline::Ideographic, "ideographic"),
            (AlignmentBaseline::Alphabetic, "alphabetic"),
            (AlignmentBaseline::Hanging, "hanging"),
            (AlignmentBaseline::Mathematical, "mathematical"),
        ]
    }
}

impl Keyword for DominantBaseline {
    ghost words = { dominant_words };

    fn words() -> &'static [(DominantBaseline, &'static str)] {
        &[
            (DominantBaseline::Auto, "auto"),
            (DominantBaseline::UseScript, "use-script"),
            (DominantBaseline::NoChange, "no-change"),
            (DominantBaseline::ResetSize, "reset-size"),
            (DominantBaseline::Ideographic, "ideographic"),
            (DominantBaseline::Alphabetic, "alphabetic"),
            (DominantBaseline::Hanging, "hanging"),
            (DominantBaseline::Mathematical, "mathematical"),
            (DominantBaseline::Central, "central"),
            (DominantBaseline::Middle, "middle"),
            (DominantBaseline::TextAfterEdge, "text-after-edge"),
            (DominantBaseline::TextBeforeEdge, "text-before-edge"),
        ]
    }
}

impl Keyword for LengthAdjust {
    ghost words = { adjust_words };

    fn words() -> &'static [(LengthAdjust, &'static str)] {
        &[
            (LengthAdjust::Spacing, "spacing"),
            (LengthAdjust::SpacingAndGlyphs, "spacingAndGlyphs"),
        ]
    }
}

impl Keyword for FontStyle {
    ghost words = { style_words };

    fn words() -> &'static [(FontStyle, &'static str)] {
        &[
            (FontStyle::Normal, "normal"),
            (FontStyle::Italic, "italic"),
            (FontStyle::Oblique, "oblique"),
        ]
    }
}

impl Keyword for Visibility {
    ghost words = { visibility_words };

    fn words() -> &'static [(Visibility, &'static str)] {
        &[
            (Visibility::Visible, "visible"),
            (Visibility::Hidden, "hidden"),
            (Visibility::Collapse, "collapse"),
        ]
    }
}

impl Keyword for NamedSize {
    ghost words = { size_words };

    fn words() -> &'static [(NamedSize, &'static str)] {
        &[
            (NamedSize::XxSmall, "xx-small"),
            (NamedSize::XSmall, "x-small"),
            (NamedSize::Small, "small"),
            (NamedSize::Medium, "medium"),
            (NamedSize::Large, "large"),
            (NamedSize::XLarge, "x-large"),
            (NamedSize::XxLarge, "xx-large"),
            (NamedSize::Smaller, "smaller"),
            (NamedSize::Larger, "larger"),
        ]
    }
}

impl<'a> FromValue<'a> for WritingMode {
    ghost Meaning = { WritingMode };

    ghost shows = { λ x. x };

    ghost reads = { as_writing_mode };

    fn from_value(value: Value<'a>) -> Option<WritingMode> {
        Some(find(&VERTICALS, value.bytes).unwrap_or(WritingMode::LeftToRight))
    }
}
