//! Which attributes reach what lies below their element, and for which `none` is as good as no value.
ghost use Rattle.std.specs.Prelude.{◌≡◌};
ghost use Rattle.names.specs.AIds.{is_inheritable, none_is_absent};

use crate::AId;

impl AId {
    /// Whether a value of this name reaches all that lies below its element.
    pub fn is_inheritable(self) -> bool
        ensures { result ≡ is_inheritable self }
    {
        matches!(
            self,
            AId::BackgroundColor
                | AId::ClipRule
                | AId::Color
                | AId::ColorInterpolation
                | AId::ColorInterpolationFilters
                | AId::ColorRendering
                | AId::Direction
                | AId::DominantBaseline
                | AId::Fill
                | AId::FillOpacity
                | AId::FillRule
                | AId::FontFamily
                | AId::FontKerning
                | AId::FontOpticalSizing
                | AId::FontSize
                | AId::FontSizeAdjust
                | AId::FontStretch
                | AId::FontStyle
                | AId::FontVariant
                | AId::FontVariationSettings
                | AId::FontWeight
                | AId::GlyphOrientationHorizontal
                | AId::GlyphOrientationVertical
                | AId::ImageRendering
                | AId::Isolation
                | AId::LetterSpacing
                | AId::MarkerEnd
                | AId::MarkerMid
                | AId::MarkerStart
                | AId::MaskType
                | AId::MixBlendMode
                | AId::PaintOrder
                | AId::ShapeRendering
                | AId::Stroke
                | AId::StrokeDasharray
                | AId::StrokeDashoffset
                | AId::StrokeLinecap
                | AId::StrokeLinejoin
                | AId::StrokeMiterlimit
                | AId::StrokeOpacity
                | AId::StrokeWidth
                | AId::TextAnchor
                | AId::TextOverflow
                | AId::TextRendering
                | AId::UnicodeBidi
                | AId::VectorEffect
                | AId::Visibility
                | AId::WhiteSpace
                | AId::WordSpacing
                | AId::WritingMode
        )
    }

    /// Whether the value `none` says that there is no value.
    pub fn none_is_absent(self) -> bool
        ensures { result ≡ none_is_absent self }
    {
        matches!(
            self,
            AId::ClipPath
                | AId::Filter
                | AId::FontSizeAdjust
                | AId::MarkerEnd
                | AId::MarkerMid
                | AId::MarkerStart
                | AId::Mask
                | AId::Stroke
                | AId::StrokeDasharray
                | AId::TextDecoration
        )
    }
}
