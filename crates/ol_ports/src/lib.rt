//! What lies outside the engine, as traits: disks, sources, sinks, tape drives and the shelf of their tapes, each with
//! a count of its faults; and what a stop may leave of a disk.
#![tactic(auto)]

mod disk;
mod drive;
mod shelf;
mod stream;
mod whole;

pub use disk::{Disk, PAGE_LENGTH, write_synced};
pub use drive::{BLOCK_LENGTH, Drive, Mounted, Wrote};
pub use shelf::{DRIVES, Shelf};
pub use stream::{Failed, NoMemory, Sink, Source};
pub use whole::{ReadError, read_all, write_all};
