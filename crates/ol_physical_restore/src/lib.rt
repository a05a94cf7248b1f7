//! The physical restore: after a stop, data pages are put back to what they were at the last checkpoint.
#![tactic(auto)]

mod restore;

pub use restore::restore_pages;
