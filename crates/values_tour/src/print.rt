//! Prints the sizes of a card's elements, and the lengths of its innermost one.
use crate::card_of_line::NAMES;
use card::{TableCounts, Tables};
use document::{Document, SvgNode};
use names::{AId, Spelled};
use order::check_card;
use units::{Settings, convert_list, resolve_font_size};

// The host and the settings go together here, but no more than the way out goes with what is printed: no struct for them.
// Prints the sizes from the first nested element inward.
fn print_sizes(
    rt: &HostRuntime,
    doc: Document<'_>,
    innermost: u32,
    settings: &Settings,
) -> anyhow::Result<()> {
    print!(rt; "sizes")?;
    for k in 2..=innermost {
        let size = resolve_font_size(doc.node(k), settings);
        print!(rt; " {size}")?;
    }
    println!(rt; "")?;
    Ok(())
}

// Prints an element's list under a name.
fn print_list(
    rt: &HostRuntime,
    node: SvgNode<'_>,
    name: AId,
    settings: &Settings,
) -> anyhow::Result<()> {
    let spelling = name.to_str();
    print!(rt; "{spelling}")?;
    if let Some(list) = convert_list(node, name, settings) {
        // A list computes each length when it is asked for it, and has no iterator.
        for length in (0..list.len()).filter_map(|i| list.get(i)) {
            print!(rt; " {length}")?;
        }
    }
    println!(rt; "")?;
    Ok(())
}

/// Prints the sizes of a card's elements, and the lengths of its innermost one.
pub(crate) fn print_card(
    rt: &HostRuntime,
    tables: Tables<'_>,
    counts: TableCounts,
    settings: &Settings,
) -> anyhow::Result<()> {
    if let Err(fault) = check_card(tables, counts) {
        rt.println(fault)?;
        return Ok(());
    }
    let doc = Document::new(tables, counts);
    let innermost = (counts.nodes - 1) as u32;
    print_sizes(rt, doc, innermost, settings)?;
    for name in NAMES {
        print_list(rt, doc.node(innermost), name, settings)?;
    }
    Ok(())
}
