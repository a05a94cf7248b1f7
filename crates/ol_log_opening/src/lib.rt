//! The log ring of a disk that is opened.
#![tactic(auto)]

mod log;

pub use log::{LogOpenFault, read_log};
