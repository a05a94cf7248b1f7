//! Data pages in memory, and which of them are dirty.
#![tactic(auto)]

mod frame;
mod laws;
mod marks;
mod pool;
mod queue;
mod space;
mod spaces;

pub use laws::pool_is_a_map;
pub use pool::Pool;

/// Memory was refused.
pub type NoMemory = std::alloc::AllocError;
