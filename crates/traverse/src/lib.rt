//! Ways through a card: a cursor over a subtree, and the list of all text elements.
#![tactic(auto)]

mod cursor;
mod texts;

pub use cursor::{Edge, Traverse, edge_at};
pub use texts::list_texts;
