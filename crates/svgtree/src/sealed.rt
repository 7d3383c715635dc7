//! A sealed card, and the calls on it.
ghost use Rattle.std.specs.Prelude.{◌≡◌, IfOk, OnErr};
ghost use Rattle.card.specs.Tables.{entries, contents};
ghost use Rattle.card.specs.TableOrder.{TablesInOrder};
ghost use Rattle.order.specs.Checks.{card_checked};
ghost use Rattle.traverse.specs.Texts.{card_texts};
ghost use Rattle.svgtree.specs.Calls.{held, Holds, reopened, admitted, Ready, Lists};

use crate::draft::Draft;
use card::{Fault, TableCounts, Tables};
use order::{check_card, check_tables};
use traverse::list_texts;

/// A card that is ready to be read: how much of each table it uses.
#[derive(Drop)]
pub struct Sealed {
    pub(crate) counts: TableCounts,
}

impl Sealed {
    /// Takes tables that are filled already, with their counts, as a sealed card.
    pub fn admit(tables: Tables<'_>, counts: TableCounts) -> Result<Sealed, Fault>
        ensures answer { result ≡ admitted counts (card_checked (entries tables.entry) counts) }
        ensures an_admitted_card_is_in_order { IfOk result (λ s. Ready (entries tables.entry) s (contents (entries tables.entry) counts)) }
    {
        check_card(tables, counts)?;
        Ok(Sealed { counts })
    }

    // A pair hands the card back with the fault, as in `Draft::seal`.
    /// Makes the card a draft again, in which node 1 is open; a refusal hands the card back.
    pub fn reopen(self, tables: Tables<'_>) -> Result<Draft, (Sealed, Fault)>
        ensures answer { result ≡ reopened self (entries tables.entry) }
        ensures the_contents_stay { IfOk result (λ d. held (entries tables.entry) d ≡ contents (entries tables.entry) self.counts) }
        ensures a_card_in_order_stays_in_order { IfOk result (λ d. TablesInOrder (entries tables.entry) self.counts → Holds (entries tables.entry) d (contents (entries tables.entry) self.counts)) }
    {
        let counts = self.counts;
        if let Err(fault) = check_tables(tables, counts) {
            return Err((self, fault));
        }
        let Sealed { counts } = self;
        Ok(Draft { counts, open: 1 })
    }

    /// Lists the card's `text` elements, each once, and answers how many they are; entries after them stay as they are.
    pub fn texts(&self, tables: Tables<'_>, list: &mut [u32]) -> Result<usize, Fault>
        ensures every_text_element_once { Lists (card_checked (entries tables.entry) self.now.counts) (card_texts (contents (entries tables.entry) self.now.counts)) list.old list.new result }
        ensures a_refusal_changes_nothing { OnErr result (list.new ≡ list.old) }
    {
        check_card(tables, self.counts)?;
        list_texts(&tables.nodes[..self.counts.nodes], list)
    }

    /// How much of each table the card uses.
    pub fn counts(&self) -> TableCounts
        ensures { result ≡ self.now.counts }
    {
        let used = self.counts;
        used
    }
}
