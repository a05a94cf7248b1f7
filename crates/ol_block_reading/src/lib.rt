//! The blocks of a tape, and the archive head that the first and the last block of an archive carry, read back.
#![tactic(auto)]

mod archive_head;
mod block;
mod laws;

pub use archive_head::decode_head;
pub use block::decode;
pub use laws::{written_blocks_are_read, written_heads_are_read};
