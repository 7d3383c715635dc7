//! The check that a card is in order: one pass over its tables that finds the lowest node where a condition fails.
#![tactic(auto)]

mod attribute;
mod check;
mod climb;
mod links;
mod node;
mod pass;
mod value;
mod whole;

pub use check::{check_card, check_draft, check_tables};
pub use value::{check_spelling, keeps_rules};
pub use whole::WholeTables;
