//! The turns of sessions that read: each is the machine's turn over the storage and the lock table, and writes nothing.
#![tactic(auto)]

mod listing;
mod owners;
mod page;
mod reading;
mod sharing;

pub use listing::list;
pub use reading::read;
