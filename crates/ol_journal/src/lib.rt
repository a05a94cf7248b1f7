//! The records that a session of the engine wrote, in order: a list that only grows.
#![tactic(auto)]

mod journal;

pub use journal::Journal;

/// Memory was refused.
pub type NoMemory = std::alloc::AllocError;
