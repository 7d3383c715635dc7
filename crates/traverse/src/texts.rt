//! The list of all text elements.
ghost use Rattle.std.specs.Prelude.{◌≡◌, ◌≤◌, ◌++◌, length, take, drop};
ghost use Rattle.card.specs.declared.record.TableCounts.{TableCounts};
ghost use Rattle.card.specs.Tables.{Entries, contents};
ghost use Rattle.traverse.specs.Texts.{text_elements, card_texts, Listed};

use card::{Fault, NodeData};
use names::EId;

/// How many of some nodes are text elements.
fn count_texts(nodes: &[NodeData]) -> usize
    ensures { result ≡ length (text_elements nodes.now (length nodes.now)) }
{
    nodes
        .iter()
        .filter(|node| node.kind.has_tag(EId::Text))
        .count()
}

/// Writes the text elements to the front of a list that has room for them.
fn write_texts(nodes: &[NodeData], list: &mut [u32])
    requires few { length nodes.now ≤ 4096 }
    requires room { length (text_elements nodes.now (length nodes.now)) ≤ length list.old }
    ensures { list.new ≡ text_elements nodes.now (length nodes.now) ++ drop (length (text_elements nodes.now (length nodes.now))) list.old }
{
    // A place of its own to write at: entries are skipped, and those behind stay, which `zip` would not say.
    let mut written = 0;
    for (k, node) in nodes.iter().enumerate() {
        if node.kind.has_tag(EId::Text) {
            list[written] = k as u32;
            written += 1;
        }
    }
}

/// Lists the numbers of all text elements among the nodes that a card uses, each once, and answers how many they are.
///
/// The order is left open. A list that is too short stays as it is, as do the entries after the listed ones.
pub fn list_texts(nodes: &[NodeData], list: &mut [u32]) -> Result<usize, Fault>
    requires { length nodes.now ≤ 4096 }
    ensures lists { Listed (text_elements nodes.now (length nodes.now)) list.old list.new result }
    ensures texts_of_the_card { (e : Entries) (c : TableCounts) → c.nodes ≤ length e.nodes → take c.nodes e.nodes ≡ nodes.now → text_elements nodes.now (length nodes.now) ≡ card_texts (contents e c) }
{
    let needed = count_texts(nodes);
    if list.len() < needed {
        return Err(Fault::ListShort(needed));
    }
    write_texts(nodes, list);
    Ok(needed)
}
