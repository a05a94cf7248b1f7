//! The blocks of a tape, and the archive head that the first and the last block of an archive carry.
#![tactic(auto)]

mod archive_head;
mod block;

pub use archive_head::ArchiveHead;
pub use block::{BLOCK_LENGTH, Block, HEAD_LENGTH, PAYLOAD_LENGTH, encode};

/// Memory was refused.
pub type NoMemory = std::alloc::AllocError;
