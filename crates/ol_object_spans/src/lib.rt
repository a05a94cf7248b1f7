//! The complete objects and marks of one drive's stream of blocks, each with its first bad block, in one pass.
#![tactic(auto)]

mod block;
mod header;
mod headers;
mod object;
mod place;
mod scan;
mod state;
#[cfg(test)]
mod tests;

pub use block::{BlockHead, Held, ReadBlock};
pub use object::Object;
pub use place::Place;
pub use scan::StreamScan;

/// Memory was refused.
pub type NoMemory = std::alloc::AllocError;
