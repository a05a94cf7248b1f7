//! Data pages at their places on the disk, under the entries of the physical log.
#![tactic(auto)]

mod laws;
mod pages;

pub use laws::{pages_are_overlaid, places_are_of_the_data_alone};
pub use pages::{CHUNKS, PageFault, read_page, sync_chunks, write_page};
