//! The parts of the engine, and what its turns share: the checkpoint, and the refusals for want of room.
#![tactic(auto)]

mod change;
mod checkpoint;
mod room;

pub use change::{change_row, make_entry};
pub use checkpoint::make_checkpoint;
pub use room::no_room;
