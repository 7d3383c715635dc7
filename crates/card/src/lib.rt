//! What a caption card is: the records of its four tables, its limits, and why a call is refused.
#![tactic(auto)]

mod fault;
mod record;

pub use fault::{Fault, Setting, Table};
pub use record::{
    Attribute, Length, MAX_ATTRIBUTES, MAX_BYTES, MAX_DEPTH, MAX_LENGTHS, MAX_NODES, Marks,
    NodeData, NodeKind, Run, TableCounts, Tables, Value,
};
