//! What is drawn, and along which flow: the stage that a caller asks of each number.
#![tactic(auto)]

mod asked;
mod entry;
mod every;
mod language;
mod reference;
mod table;

pub use asked::{Stage, record_answers};
pub use every::EveryStage;
pub use language::LanguageStage;
pub use table::TableStage;
