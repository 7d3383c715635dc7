//! A card in order, lent for reading.
ghost use Rattle.std.specs.Prelude.{◌≡◌, true, is_ok};
ghost use Rattle.card.specs.Tables.{entries};
ghost use Rattle.order.specs.Checks.{card_checked};

use card::{TableCounts, Tables};

/// A card in order, lent for reading: whoever holds one needs no further check of its links and runs.
#[derive(Clone, Copy)]
pub struct Document<'a> {
    pub(crate) tables: Tables<'a>,
    pub(crate) counts: TableCounts,
    ghost passed: { is_ok (card_checked (entries tables) counts) ≡ true },
}
