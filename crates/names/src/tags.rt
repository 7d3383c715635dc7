//! The tags of elements: how they are written.
ghost use Rattle.names.specs.EIds.{all, place, spelling};
ghost use Rattle.names.specs.Laws.{tags_equal, tags_stand, tags_read};

use crate::EId;
use crate::spelled::Spelled;

/// Each tag with its spelling, in the order of the enum.
const ROWS: [(EId, &str); 53] = [
    (EId::A, "a"),
    (EId::Circle, "circle"),
    (EId::ClipPath, "clipPath"),
    (EId::Defs, "defs"),
    (EId::Ellipse, "ellipse"),
    (EId::FeBlend, "feBlend"),
    (EId::FeColorMatrix, "feColorMatrix"),
    (EId::FeComponentTransfer, "feComponentTransfer"),
    (EId::FeComposite, "feComposite"),
    (EId::FeConvolveMatrix, "feConvolveMatrix"),
    (EId::FeDiffuseLighting, "feDiffuseLighting"),
    (EId::FeDisplacementMap, "feDisplacementMap"),
    (EId::FeDistantLight, "feDistantLight"),
    (EId::FeDropShadow, "feDropShadow"),
    (EId::FeFlood, "feFlood"),
    (EId::FeFuncA, "feFuncA"),
    (EId::FeFuncB, "feFuncB"),
    (EId::FeFuncG, "feFuncG"),
    (EId::FeFuncR, "feFuncR"),
    (EId::FeGaussianBlur, "feGaussianBlur"),
    (EId::FeImage, "feImage"),
    (EId::FeMerge, "feMerge"),
    (EId::FeMergeNode, "feMergeNode"),
    (EId::FeMorphology, "feMorphology"),
    (EId::FeOffset, "feOffset"),
    (EId::FePointLight, "fePointLight"),
    (EId::FeSpecularLighting, "feSpecularLighting"),
    (EId::FeSpotLight, "feSpotLight"),
    (EId::FeTile, "feTile"),
    (EId::FeTurbulence, "feTurbulence"),
    (EId::Filter, "filter"),
    (EId::G, "g"),
    (EId::Image, "image"),
    (EId::Line, "line"),
    (EId::LinearGradient, "linearGradient"),
    (EId::Marker, "marker"),
    (EId::Mask, "mask"),
    (EId::Path, "path"),
    (EId::Pattern, "pattern"),
    (EId::Polygon, "polygon"),
    (EId::Polyline, "polyline"),
    (EId::RadialGradient, "radialGradient"),
    (EId::Rect, "rect"),
    (EId::Stop, "stop"),
    (EId::Style, "style"),
    (EId::Svg, "svg"),
    (EId::Switch, "switch"),
    (EId::Symbol, "symbol"),
    (EId::Text, "text"),
    (EId::TextPath, "textPath"),
    (EId::Tref, "tref"),
    (EId::Tspan, "tspan"),
    (EId::Use, "use"),
];

impl Spelled for EId {
    ghost all = { all };

    ghost place = { place };

    ghost spelling = { spelling };

    ghost equal_at_one_place = { tags_equal };

    ghost each_stands_at_its_place = { tags_stand };

    ghost each_is_read_from_its_spelling = { tags_read };

    fn place(self) -> u8 {
        self as u8
    }

    fn rows() -> &'static [(EId, &'static str)] {
        &ROWS
    }
}
