//! The opening of a disk.
#![tactic(auto)]

mod fault;
mod laws;
mod opening;

pub use fault::{NotReady, OpenFault};
pub use laws::left_of_a_sound_journal;
pub use opening::open_storage;
