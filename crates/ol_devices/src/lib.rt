//! The devices of the program: standard input and output, a disk of chunk files, tape drives and a shelf
//! of volume files, and the options of the command line that name them.
//!
//! What files, readers and writers hold no contract can say: the contracts here say that faults and calls
//! are counted, in which state each answer leaves a device, and that no file of a device is a standard stream.
#![tactic(auto)]

mod device_file;
mod disk_file;
mod fault;
mod options;
mod paths;
mod shelf_file;
mod streams;
mod tape_file;

pub use device_file::{HeldStreams, hold_streams};
pub use disk_file::{CHUNKS, FileDisk};
pub use options::{OptionFault, Options, parse_options};
pub use shelf_file::FileShelf;
pub use streams::{ReaderSource, WriterSink};
pub use tape_file::FileDrive;
