//! The start of an archive: the machine's turn over the storage and the running archives of the four archivers.
#![tactic(auto)]

mod archive;
mod counting;
mod cursors;
mod marking;
mod refusals;

pub use archive::start;
