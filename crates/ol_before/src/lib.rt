//! The images of pages that running archives still need, kept as they were before a change.
#![tactic(auto)]

mod before;
mod captured;
mod laws;
mod order;

pub use before::Before;
pub use laws::captures_are_a_map;

/// Memory was refused.
pub type NoMemory = std::alloc::AllocError;
