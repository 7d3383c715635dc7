//! A card in order, lent for reading: its nodes, what they hold, and the way up from them.
#![tactic(auto)]

mod attribute;
mod document;
mod node;

pub use document::Document;
pub use node::SvgNode;
