//! A caption card: built by calls or handed in ready, sealed to be read, and reopened.
#![tactic(auto)]

mod draft;
mod room;
mod sealed;

pub use draft::Draft;
pub use sealed::Sealed;
