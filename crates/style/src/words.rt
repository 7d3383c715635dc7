//! The words of a font's keywords, and the test for one word.
ghost use Rattle.std.specs.Prelude.{◌≡◌};
ghost use Rattle.document.specs.Reads.{card_of};
ghost use Rattle.values.specs.Attributes.{says};
ghost use Rattle.values.specs.Kinds.{as_text};
ghost use Rattle.values.specs.Values.{nearest};
ghost use Rattle.style.specs.declared.keyword.FontStretch.{FontStretch};
ghost use Rattle.style.specs.declared.keyword.Weighing.{Weighing};
ghost use Rattle.style.specs.Fonts.{stretch_words, weight_words};

use crate::keyword::{FontStretch, Weighing};
use document::SvgNode;
use names::AId;
use values::{Keyword, Text, find_attribute};

impl Keyword for FontStretch {
    ghost words = { stretch_words };

    fn words() -> &'static [(FontStretch, &'static str)] {
        &[
            (FontStretch::Normal, "normal"),
            (FontStretch::Condensed, "narrower"),
            (FontStretch::Condensed, "condensed"),
            (FontStretch::UltraCondensed, "ultra-condensed"),
            (FontStretch::ExtraCondensed, "extra-condensed"),
            (FontStretch::SemiCondensed, "semi-condensed"),
            (FontStretch::SemiExpanded, "semi-expanded"),
            (FontStretch::Expanded, "wider"),
            (FontStretch::Expanded, "expanded"),
            (FontStretch::ExtraExpanded, "extra-expanded"),
            (FontStretch::UltraExpanded, "ultra-expanded"),
        ]
    }
}

impl Keyword for Weighing {
    ghost words = { weight_words };

    fn words() -> &'static [(Weighing, &'static str)] {
        &[
            (Weighing::Fixed(400), "normal"),
            (Weighing::Fixed(700), "bold"),
            (Weighing::Fixed(100), "100"),
            (Weighing::Fixed(200), "200"),
            (Weighing::Fixed(300), "300"),
            (Weighing::Fixed(400), "400"),
            (Weighing::Fixed(500), "500"),
            (Weighing::Fixed(600), "600"),
            (Weighing::Fixed(700), "700"),
            (Weighing::Fixed(800), "800"),
            (Weighing::Fixed(900), "900"),
            (Weighing::Bolder, "bolder"),
            (Weighing::Lighter, "lighter"),
        ]
    }
}

// Whether the nearest value of a name is this word.
pub(crate) fn is_nearest(node: SvgNode<'_>, name: AId, word: &[u8]) -> bool
    ensures { result ≡ says (nearest as_text (card_of node.entry.doc) node.entry.id name) word.now }
{
    find_attribute::<Text>(node, name).is_some_and(|Text(value)| value == word)
}
