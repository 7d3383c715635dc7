//! The characters of an element: the code points of all texts below it.
#![tactic(auto)]

mod below;
mod text;

pub use below::{count_chars_below, count_chars_in, subtree_end};
pub use text::{char_len, count_chars};
