//! Tables of codes in bytes: a count, and then columns with an entry for each number below it.
#![tactic(auto)]

mod table;

pub use table::CodeTable;
