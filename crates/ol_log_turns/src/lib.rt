//! The turns of the checkpointer and the flusher, and the switch of the log backer: each is the machine's turn over the storage and the lock table.
#![tactic(auto)]

mod turns;

pub use turns::{checkpoint, clean, switch};
