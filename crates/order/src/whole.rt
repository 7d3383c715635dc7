//! The tables of a card that have the entries that their counts say.
ghost use Rattle.card.specs.Tables.{entries, Whole};

use card::{TableCounts, Tables};

/// The tables of a card with how much it uses of them: each has those entries, and no count is above its limit.
#[derive(Clone, Copy)]
pub struct WholeTables<'a> {
    pub tables: Tables<'a>,
    pub counts: TableCounts,
    ghost whole: { Whole (entries tables) counts },
}
