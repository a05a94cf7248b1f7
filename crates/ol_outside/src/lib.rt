//! Devices in memory, which fail where they are told to, over the traits of the outside.
#![tactic(auto)]

mod chunks;
mod faults;
mod kept_calls;
mod memory_disk;
mod memory_drive;
mod memory_shelf;
mod memory_stream;
mod replay;

pub use memory_disk::{Choice, MemoryDisk};
pub use memory_drive::{MemoryDrive, Volumes};
pub use memory_shelf::MemoryShelf;
pub use memory_stream::{MemorySink, MemorySource};
pub use ol_ports::{
    BLOCK_LENGTH, DRIVES, Disk, Drive, Failed, Mounted, NoMemory, PAGE_LENGTH, ReadError, Shelf,
    Sink, Source, Wrote, read_all, write_all, write_synced,
};
