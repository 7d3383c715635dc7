//! The stage of a language: elements that speak it are drawn, and flows are the paths that they refer to.
ghost use Rattle.std.specs.Prelude.{◌≡◌};
ghost use Rattle.document.specs.Reads.{card_of};
ghost use Rattle.stage.specs.Languages.{speaks, language_stage};

use crate::asked::Stage;
use crate::entry::any_matches;
use crate::reference::path_of;
use document::{Document, SvgNode};
use names::AId;
use std::num::NonZeroU32;
use values::{Text, attribute};

/// A document seen in a language: both are lent by their owners.
#[derive(Clone, Copy)]
pub struct LanguageStage<'a> {
    doc: Document<'a>,
    language: &'a [u8],
}

// Whether an element's own list of languages has the language; one without a list is for all.
fn speaks_language(node: SvgNode<'_>, language: &[u8]) -> bool
    ensures { result ≡ speaks (card_of node.entry.doc) language.now node.entry.id }
{
    attribute::<Text>(node, AId::SystemLanguage).is_none_or(|Text(list)| any_matches(
        list, language,
    ))
}

impl<'a> LanguageStage<'a> {
    /// The stage of a document in a language.
    pub fn new(doc: Document<'a>, language: &'a [u8]) -> LanguageStage<'a>
        ensures of_card { card_of result.doc ≡ card_of doc.entry }
        ensures in_language { result.language.now ≡ language.now }
    {
        LanguageStage { doc, language }
    }
}

impl Stage for LanguageStage<'_> {
    ghost drawn = { λ s. (language_stage (card_of s.doc) s.language.now).drawn };

    ghost flow = { λ s. (language_stage (card_of s.doc) s.language.now).flow };

    fn is_drawn(&self, n: u32) -> bool {
        let node = self.doc.node(n);
        node.is_element() && speaks_language(node, self.language)
    }

    fn flow(&self, n: u32) -> Option<NonZeroU32> {
        path_of(self.doc.node(n)).and_then(NonZeroU32::new)
    }
}
