//! The first checks of every call on a card: its tables, then the order of its nodes.
ghost use Rattle.std.specs.Prelude.{◌≡◌, ◌≤◌, OnOk};
ghost use Rattle.card.specs.Tables.{entries, Whole};
ghost use Rattle.order.specs.Checks.{table_checked, tables_checked, card_checked, draft_checked, SoundCard, SoundDraft};

use crate::whole::WholeTables;
use card::{Fault, MAX_ATTRIBUTES, MAX_BYTES, MAX_LENGTHS, MAX_NODES, Table, TableCounts, Tables};

// The checks take tables and counts apart, as a caller has them: once they pass, `WholeTables` hold both.
// Refuses a table that is shorter than its count, or whose count is above its limit.
fn check_table(table: Table, entries: usize, count: usize, limit: usize) -> Result<(), Fault>
    ensures answer { result ≡ table_checked table entries count limit }
    ensures room { OnOk result ((count ≤ entries) × (count ≤ limit)) }
{
    if entries < count || limit < count {
        return Err(Fault::TableShort(table));
    }
    Ok(())
}

/// Refuses counts that the tables or the limits do not allow: the first such table is named.
pub fn check_tables(tables: Tables<'_>, counts: TableCounts) -> Result<(), Fault>
    ensures the_first_table_that_fails { result ≡ tables_checked (entries tables.entry) counts }
    ensures whole { OnOk result (Whole (entries tables.entry) counts) }
{
    check_table(Table::Nodes, tables.nodes.len(), counts.nodes, MAX_NODES)?;
    check_table(
        Table::Attributes,
        tables.attributes.len(),
        counts.attributes,
        MAX_ATTRIBUTES,
    )?;
    check_table(Table::Bytes, tables.bytes.len(), counts.bytes, MAX_BYTES)?;
    check_table(
        Table::Lengths,
        tables.lengths.len(),
        counts.lengths,
        MAX_LENGTHS,
    )
}

/// Refuses a card whose tables are too short or whose nodes are out of order: the lowest such node is named.
pub fn check_card(tables: Tables<'_>, counts: TableCounts) -> Result<(), Fault>
    ensures the_first_check_that_fails { result ≡ card_checked (entries tables.entry) counts }
    ensures sound { OnOk result (SoundCard (entries tables.entry) counts) }
{
    check_tables(tables, counts)?;
    let card = WholeTables { tables, counts };
    match card.find_out_of_order() {
        None => Ok(()),
        Some(node) => Err(Fault::OutOfOrder(node)),
    }
}

/// Refuses a draft whose card fails, or whose open element is neither the newest node nor above it.
pub fn check_draft(tables: Tables<'_>, counts: TableCounts, open: u32) -> Result<(), Fault>
    ensures the_first_check_that_fails { result ≡ draft_checked (entries tables.entry) counts «open» }
    ensures sound { OnOk result (SoundDraft (entries tables.entry) counts «open») }
{
    check_card(tables, counts)?;
    let card = WholeTables { tables, counts };
    if !card.lies_above((counts.nodes - 1) as u32, open) {
        return Err(Fault::OutOfOrder(open));
    }
    Ok(())
}
