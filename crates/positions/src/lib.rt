//! The positions and the angles of an element's characters.
#![tactic(auto)]

mod angle;
mod layer;
mod place;
mod position;

pub use angle::resolve_rotate_list;
pub use place::resolve_positions_list;
pub use position::Position;
