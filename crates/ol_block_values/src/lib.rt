//! The bytes of a tape's block, read as the value that definitions of shelves speak of.
#![tactic(auto)]

mod laws;
mod reading;

pub use laws::{items_are_blocks, objects_may_be_written, written_blocks_are_items};
pub use reading::read_block;
