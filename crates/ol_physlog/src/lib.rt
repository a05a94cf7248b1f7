//! The physical log: the images of pages as they were at the last checkpoint.
#![tactic(auto)]

mod head;
mod laws;
mod log;
mod place;
mod reading;

pub use laws::{heads_are_read, other_parts_leave_entries, stops_are_read};
pub use log::PhysLog;
pub use place::Place;
pub use reading::{Entries, PhysFault, read_entries};

/// The gate byte of an entry that may count.
const OPEN: u8 = 1;

/// The gate byte of an entry that does not.
const SHUT: u8 = 0;
