//! The calls on the text of a sealed card.
#![tactic(auto)]

mod angles;
mod element;

pub use angles::rotations;
